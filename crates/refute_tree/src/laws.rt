ghost use Rattle.refute_tree.specs.Trees.{IsRefutation};
ghost use Rattle.refute_tree.specs.Examples.{two_orders, two_orders_refutation};
ghost use Rattle.refute_tree.specs.Examples.{two_ways, two_ways_refutation};
ghost use Rattle.refute_tree.specs.Laws.{RefutationLaw, PlainLengthened, LengthenedPlain, RefutationStays};
ghost use Rattle.refute_tree.specs.Lengths.{lengthened_lemma, shortened_lemma};

/// A problem that has a refutation holds on no values of its points.
pub fn refutation_law()
    ensures { RefutationLaw }
{
    stn_core::cycle_law();
    stn_core::negation_law();
}

/// Lemmas without a clash are lengthened to themselves, and refuted ones have none when they are lengthened. A refutation
/// stays one when its lemmas are lengthened, and when they are shortened.
pub fn lengths_law()
    ensures plain { PlainLengthened }
    ensures no_clash { LengthenedPlain }
    ensures lengthened { RefutationStays lengthened_lemma }
    ensures shortened { RefutationStays shortened_lemma }
{}

/// The two worked examples of refutations are ones: x < y with y < x, and one with clauses of two literals.
pub fn examples_law()
    ensures two_orders { IsRefutation 3 two_orders two_orders_refutation }
    ensures two_ways { IsRefutation 5 two_ways two_ways_refutation }
{}
