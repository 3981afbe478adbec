//! Laws of the definitions alone.
ghost use Rattle.std.specs.Prelude.{[]};
ghost use Rattle.refute_tree.specs.Batches.{AreRefuted};
ghost use Rattle.carried_lemmas.specs.Carried.{IsCarried};
ghost use Rattle.carried_lemmas.specs.Examples.{old_clauses, old_lemmas, new_clauses, new_lemmas};
ghost use Rattle.carried_lemmas.specs.Laws.{CarriedRefuted, CarriedOver};

/// What is carried is refuted over the new problem, and within its limits.
pub fn carried_law()
    ensures refuted { CarriedRefuted }
    ensures over { CarriedOver }
{}

/// In the worked example the lemmas are refuted over the old clauses, and the first alone is carried to the new ones.
pub fn example_law()
    ensures refuted { AreRefuted 3 old_clauses [] old_lemmas }
    ensures carried { IsCarried old_clauses old_lemmas 3 new_clauses (record { seen = 0; lemmas = new_lemmas }) }
{}
