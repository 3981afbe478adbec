ghost use Rattle.std.specs.Prelude.{◌≡◌, [], None};
ghost use Rattle.refute_tree.specs.Examples.{two_orders};
ghost use Rattle.cert_check.specs.declared.flaw.FlawKind.TheVariants.{NoSuchPoint, NotDenied, NoSuchKeptLemma, NotActive};
ghost use Rattle.cert_check.specs.FlawExamples.{both_truths, at_step};
ghost use Rattle.lemma_shelf.specs.Examples.{by_clash, by_cases, first_kept, shelf_with, other_order, one_truth};
ghost use Rattle.lemma_shelf.specs.ItemFlaws.{items_flaw};
ghost use Rattle.lemma_shelf.specs.Laws.{ClauseTestLaw, ItemsFlawLaw, OwnFlawLaw};

/// Items have no flaw exactly where they are right. Own lemmas have the first flaw that they have as a refutation.
pub fn flaw_law()
    ensures clause { ClauseTestLaw }
    ensures items { ItemsFlawLaw }
    ensures own { OwnFlawLaw }
{}

/// A lemma that is kept, in the same problem and with its clauses in the other order; and the flaws of what can't be kept:
/// of no earlier entry, behind a pop, and with a point that the problem hasn't. Numbers of clauses in another problem are
/// another lemma.
pub fn examples_law()
    ensures own { items_flaw [] 2 both_truths by_clash ≡ None }
    ensures kept { items_flaw (shelf_with by_clash) 2 both_truths first_kept ≡ None }
    ensures moved { items_flaw (shelf_with by_clash) 2 other_order first_kept ≡ None }
    ensures wider { items_flaw (shelf_with by_cases) 3 both_truths first_kept ≡ None }
    ensures no_entry { items_flaw [] 2 both_truths first_kept ≡ at_step 0 NoSuchKeptLemma }
    ensures popped { items_flaw (shelf_with by_clash) 2 one_truth first_kept ≡ at_step 0 NotActive }
    ensures no_point { items_flaw (shelf_with by_cases) 2 both_truths first_kept ≡ at_step 0 NoSuchPoint }
    ensures not_denied { items_flaw [] 3 two_orders by_clash ≡ at_step 1 NotDenied }
{}
