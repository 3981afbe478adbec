ghost use Rattle.std.specs.Prelude.{◌≡◌, [], None};
ghost use Rattle.refute_tree.specs.Examples.{two_orders, two_orders_refutation, two_ways, two_ways_refutation};
ghost use Rattle.cert_check.specs.declared.flaw.FlawKind.TheVariants.{NoSuchClause, NotAssumed, NotACycle, NotDenied};
ghost use Rattle.cert_check.specs.declared.flaw.FlawKind.TheVariants.{StepsMissing, LastLemmaNotEmpty};
ghost use Rattle.cert_check.specs.FlawExamples.{one_order, two_weak_orders, without_leaf, with_weaker_leaf, with_zero_leaf};
ghost use Rattle.cert_check.specs.FlawExamples.{with_clash, both_truths, at_step};
ghost use Rattle.cert_check.specs.Flaws.{refutation_flaw};
ghost use Rattle.cert_check.specs.Laws.{TestsLaw, LemmaLaw, FlawLaw, FirstFlawLaw, AcceptedLaw};

/// The tests of the definition of the first flaw answer what the definition of refutations says.
pub fn tests_law()
    ensures { TestsLaw }
{}

/// A lemma has no flaw exactly where its steps refute the denial of its clause.
pub fn lemma_law()
    ensures { LemmaLaw }
{}

/// Lemmas have no flaw exactly where they are a refutation.
pub fn flaw_law()
    ensures { FlawLaw }
{}

/// What the first flaw says: the lemmas before it are refuted, and the steps before it begin a tree, as far as they go, in
/// which its step can't stand, for the reason that its kind names. Where each lemma is refuted, the flaw has the number of
/// none: the last has a literal, or there is none.
pub fn first_law()
    ensures { FirstFlawLaw }
{}

/// A problem whose refutation has no flaw holds on no values of its points.
pub fn accepted_law()
    ensures { AcceptedLaw }
{
    refute_tree::refutation_law();
}

/// The worked examples: three refutations without a flaw, and the first flaws of some that aren't refutations.
pub fn examples_law()
    ensures two_orders { refutation_flaw 3 two_orders two_orders_refutation ≡ None }
    ensures two_ways { refutation_flaw 5 two_ways two_ways_refutation ≡ None }
    ensures no_clause { refutation_flaw 3 one_order two_orders_refutation ≡ at_step 1 NoSuchClause }
    ensures missing { refutation_flaw 3 two_orders without_leaf ≡ at_step 2 StepsMissing }
    ensures not_assumed { refutation_flaw 3 two_orders with_weaker_leaf ≡ at_step 2 NotAssumed }
    ensures not_a_cycle { refutation_flaw 3 two_weak_orders with_zero_leaf ≡ at_step 2 NotACycle }
    ensures clash { refutation_flaw 2 both_truths with_clash ≡ None }
    ensures no_clash { refutation_flaw 3 one_order with_clash ≡ at_step 1 NoSuchClause }
    ensures not_denied { refutation_flaw 3 two_orders with_clash ≡ at_step 1 NotDenied }
    ensures no_lemma { refutation_flaw 3 two_orders [] ≡ at_step 0 LastLemmaNotEmpty }
{}
