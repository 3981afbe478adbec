//! What the definitions say of small tables.
ghost use Rattle.std.specs.Prelude.{◌≡◌, ◌∷◌, [], true, false, pos, negsuc};
ghost use Rattle.stn_core.specs.declared.named.NamedValue.TheVariants.{Int, Truth};
ghost use Rattle.idl_node.specs.declared.sort.Sort.TheVariants as sort;
ghost use Rattle.clause_form.specs.ClauseForm.{clauses_of, points_of};
ghost use Rattle.clause_form.specs.Examples.{literal, yes, no, either_nodes, mixed_nodes};
ghost use Rattle.clause_form.specs.Restricting.{restricted};

/// Clauses in order, and the schedule that values give.
#[tactic(auto, unfolding(crate::specs::ClauseForm::clauses_of, crate::specs::ClauseForm::points_of, crate::specs::Polarity::polarity_of, crate::specs::Polarity::inner_nodes))]
pub fn worked_clause_form()
    // an asserted `or` of an `and` and an atom: the `and` has the fresh point 4
    ensures either_points { points_of 4 either_nodes (4 ∷ 5 ∷ 6 ∷ []) ≡ 5 }
    ensures either_clauses { clauses_of 4 either_nodes (4 ∷ 5 ∷ 6 ∷ []) ≡
        (no 4 ∷ yes 1 ∷ []) ∷ (no 4 ∷ yes 2 ∷ []) ∷ (yes 4 ∷ no 1 ∷ no 2 ∷ [])
        ∷ (yes 4 ∷ literal 3 0 (negsuc 0) ∷ []) ∷ (no 1 ∷ []) ∷ (literal 0 3 (pos 0) ∷ []) ∷ [] }
    // node 2 is denied and inner, node 4 asserted and inner; the atoms are asserted and denied; there is no root 9
    ensures mixed_points { points_of 3 mixed_nodes (5 ∷ 9 ∷ 3 ∷ 4 ∷ 3 ∷ []) ≡ 5 }
    ensures mixed_clauses { clauses_of 3 mixed_nodes (5 ∷ 9 ∷ 3 ∷ 4 ∷ 3 ∷ []) ≡
        (yes 1 ∷ []) ∷ (no 1 ∷ []) ∷ (yes 2 ∷ []) ∷ (no 2 ∷ [])
        ∷ (no 3 ∷ yes 1 ∷ yes 2 ∷ []) ∷ (yes 3 ∷ no 1 ∷ []) ∷ (yes 3 ∷ no 2 ∷ [])
        ∷ (no 4 ∷ yes 1 ∷ []) ∷ (no 4 ∷ yes 2 ∷ []) ∷ (yes 4 ∷ no 1 ∷ no 2 ∷ [])
        ∷ (no 3 ∷ yes 4 ∷ []) ∷ [] }
    // no root, no clause
    ensures nothing { clauses_of 3 mixed_nodes [] ≡ [] }
    // a fresh point's value isn't looked at
    ensures schedule { restricted (sort.Bool ∷ sort.Bool ∷ sort.Int ∷ [])
        (negsuc 6 ∷ negsuc 6 ∷ negsuc 5 ∷ negsuc 11 ∷ negsuc 0 ∷ [])
        ≡ Truth true ∷ Truth false ∷ Int (negsuc 4) ∷ [] }
{}
