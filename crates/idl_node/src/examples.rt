//! What the definitions say of small inputs.
ghost use Rattle.std.specs.Prelude.{◌≡◌, ◌∷◌, [], ◌++◌, ℕ, Some, false, negsuc, pos, true};
ghost use Rattle.stn_core.specs.declared.named.NamedValue.TheVariants.{Int, Truth};
ghost use Rattle.idl_node.specs.Examples.{literal, two_atoms, with_or, with_xor};
ghost use Rattle.idl_node.specs.Making.{chosen, conjoined, denied, disjoined, exclusive, falsehood, implied, neighbours, pairs, then};
ghost use Rattle.idl_node.specs.Nodes.{always, atom, conjunction, denial, disjunction, placed};
ghost use Rattle.idl_node.specs.Truth.{all_pairs, chain, different_truth, exclusive_truth, implied_truth, point_values, truth};

/// Nodes of formulas. What is made of an atom that is denied is an atom, a formula that is denied twice is itself, and
/// equal nodes are one.
pub fn worked_formulas()
    ensures negation { denied (atom (literal 1 0 (pos 4)) ∷ []) 0
        ≡ Some (record {
          nodes = atom (literal 1 0 (pos 4)) ∷ atom (literal 0 1 (negsuc 4)) ∷ [];
          number = 1;
        }) }
    ensures twice { then (denied with_or 2) (λ p. denied p.nodes p.number)
        ≡ Some (record { nodes = with_or ++ denial 2 ∷ []; number = 2 }) }
    ensures never { falsehood [] ≡ Some (record { nodes = always ∷ denial 0 ∷ []; number = 1 }) }
    ensures shared { placed with_or (disjunction (0 ∷ 1 ∷ []))
        ≡ Some (record { nodes = with_or; number = 2 }) }
    ensures order { placed with_or (disjunction (1 ∷ 0 ∷ []))
        ≡ Some (record { nodes = with_or ++ disjunction (1 ∷ 0 ∷ []) ∷ []; number = 3 }) }
    ensures one { conjoined with_or (1 ∷ []) ≡ Some (record { nodes = with_or; number = 1 }) }
    ensures none { disjoined [] [] ≡ Some (record { nodes = disjunction [] ∷ []; number = 0 }) }
    ensures exclusion { exclusive two_atoms 0 (1 ∷ []) ≡ Some (record { nodes = with_xor; number = 6 }) }
    ensures implication { implied two_atoms [] (0 ∷ 1 ∷ [])
        ≡ Some (record {
          nodes = two_atoms ++ atom (literal 0 1 (negsuc 4)) ∷ disjunction (2 ∷ 1 ∷ []) ∷ [];
          number = 3;
        }) }
    ensures choice { chosen with_or 2 0 1
        ≡ Some (record {
          nodes = with_or ++ denial 2 ∷ disjunction (3 ∷ 0 ∷ []) ∷ disjunction (2 ∷ 1 ∷ [])
              ∷ conjunction (4 ∷ 5 ∷ []) ∷ [];
          number = 6;
        }) }
    ensures chained { neighbours {A = ℕ} (7 ∷ 8 ∷ 9 ∷ []) ≡ (7, 8) ∷ (8, 9) ∷ [] }
    ensures paired { pairs {A = ℕ} (7 ∷ 8 ∷ 9 ∷ []) ≡ (7, 8) ∷ (7, 9) ∷ (8, 9) ∷ [] }
{}

/// The truth of nodes, and of formulas by that of their members.
#[tactic(auto, unfolding(crate::specs::Truth::truth, crate::specs::Truth::truth_within))]
pub fn worked_truths()
    ensures values { point_values (Int (negsuc 6) ∷ Truth true ∷ Truth false ∷ []) ≡ pos 0 ∷ negsuc 6
        ∷ pos 0 ∷ pos 1 ∷ [] }
    ensures within { truth with_or (pos 0 ∷ pos 4 ∷ pos 1 ∷ []) 0 ≡ true }
    ensures beyond { truth with_or (pos 0 ∷ pos 5 ∷ pos 1 ∷ []) 2 ≡ false }
    ensures one { truth with_xor (pos 0 ∷ pos 5 ∷ pos 0 ∷ []) 6 ≡ true }
    ensures both { truth with_xor (pos 0 ∷ pos 4 ∷ pos 0 ∷ []) 6 ≡ false }
    ensures exclusion { exclusive_truth true (true ∷ true ∷ []) ≡ true }
    ensures implication { implied_truth (false ∷ false ∷ false ∷ []) ≡ true }
    ensures chained { chain different_truth (true ∷ false ∷ true ∷ []) ≡ true }
    ensures paired { all_pairs different_truth (true ∷ false ∷ true ∷ []) ≡ false }
{}
