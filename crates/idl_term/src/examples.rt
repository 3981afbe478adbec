//! What the definitions say of small inputs.
ghost use Rattle.std.specs.Prelude.{◌≡◌, ◌∷◌, [], codes, true, false, Ok, Err, pos, negsuc};
ghost use Rattle.smt_sexpr.specs.Shapes.{symbol, form};
ghost use Rattle.idl_node.specs.Nodes.{always, atom, denial, conjunction, disjunction};
ghost use Rattle.idl_apply.specs.declared.error.LeftOutTerm.TheVariants.{Times, As};
ghost use Rattle.idl_apply.specs.declared.error.TermRefusal.TheVariants.{UnknownSymbol, IllFormedTerm, WrongCount, WrongSort, NotADifference, BoundTooLarge, LeftOut};
ghost use Rattle.idl_term.specs.Examples.{numeral, x, y, p, q, z, one, two, choice, binding, let_of, names, scope, literal, p_atom, no_p_atom, q_atom, no_q_atom, case, with_number};
ghost use Rattle.idl_term.specs.Lowered.{lowered};
ghost use Rattle.idl_linear.specs.Linear.{point_alone};
ghost use Rattle.idl_scope.specs.Scopes.{formula, numeric};
ghost use Rattle.idl_term.specs.Values.{whole, truth, nothing, value};

/// Values where x is 4, y is 7 and p is true.
#[tactic(auto, unfolding(idl_apply::specs::Operators::operator_of, idl_apply::specs::Operators::connective_of, idl_apply::specs::Operators::order_of, idl_apply::specs::Operators::sign_of, idl_apply::specs::Operators::equality_of, smt_lex::specs::Numbers::value_from))]
pub fn worked_values()
    ensures name { value names x ≡ whole (pos 4) }
    ensures unknown { value names z ≡ nothing }
    ensures chain { value names (form (codes "<") (x ∷ y ∷ numeral (codes "9") ∷ [])) ≡ truth true }
    ensures chain_fails { value names (form (codes "<") (x ∷ y ∷ numeral (codes "5") ∷ [])) ≡ truth false }
    ensures difference { value names (form (codes "-") (x ∷ y ∷ [])) ≡ whole (negsuc 2) }
    ensures three { value names (form (codes "-") (y ∷ x ∷ numeral (codes "1") ∷ [])) ≡ whole (pos 2) }
    ensures implication { value names (form (codes "=>") (p ∷ symbol (codes "false") ∷ p ∷ []))
        ≡ truth true }
    ensures exclusive { value names (form (codes "xor") (p ∷ p ∷ p ∷ [])) ≡ truth true }
    ensures distinct { value names (form (codes "distinct") (x ∷ y ∷ numeral (codes "4") ∷ []))
        ≡ truth false }
    ensures at_once { value names (form (codes "<") (x ∷ y ∷ [])) ≡ truth true }
    ensures swapped { value names (let_of (binding x y ∷ binding y x ∷ [])
        (form (codes "<") (x ∷ y ∷ []))) ≡ truth false }
    ensures ill_sorted { value names (form (codes "<") (x ∷ p ∷ [])) ≡ nothing }
    ensures branches { value names (form (codes "ite")
        (form (codes "not") (p ∷ []) ∷ p ∷ symbol (codes "false") ∷ [])) ≡ truth false }
    ensures number_branches { value names choice ≡ whole (pos 4) }
    ensures other_number { value names (form (codes "ite") (form (codes "not") (p ∷ []) ∷ x ∷ y ∷ []))
        ≡ whole (pos 7) }
    ensures two_sorts { value names (form (codes "ite") (p ∷ x ∷ p ∷ [])) ≡ nothing }
{}

/// What terms are made into, where the time points of x, y, p and q are 1, 2, 3 and 4.
#[tactic(auto, unfolding(idl_apply::specs::Operators::operator_of, idl_apply::specs::Operators::connective_of, idl_apply::specs::Operators::order_of, idl_apply::specs::Operators::sign_of, idl_apply::specs::Operators::equality_of, idl_apply::specs::Operators::left_out_of, idl_apply::specs::Operators::theory_symbols, idl_apply::specs::Operators::reserved_words, crate::specs::Lowered::lowered, crate::specs::Lowered::lowered_leaf, crate::specs::Lowered::head_of, crate::specs::Lowered::is_let, idl_apply::specs::Applied::applied, idl_linear::specs::Differences::difference_of, idl_linear::specs::Linear::sum_of, smt_lex::specs::Numbers::value_from))]
pub fn worked_terms()
    ensures less { lowered scope [] (form (codes "<") (x ∷ y ∷ []))
        ≡ Ok (record { nodes = atom (literal 1 2 (negsuc 0)) ∷ []; is = formula 0 }) }
    ensures equal { lowered scope [] (form (codes "=") (x ∷ numeral (codes "3") ∷ []))
        ≡ Ok (record {
          nodes = atom (literal 1 0 (pos 3)) ∷ atom (literal 0 1 (negsuc 2))
              ∷ conjunction (0 ∷ 1 ∷ []) ∷ [];
          is = formula 2;
        }) }
    ensures falsehood { lowered scope [] (symbol (codes "false"))
        ≡ Ok (record { nodes = always ∷ denial 0 ∷ []; is = formula 1 }) }
    ensures name { lowered scope [] p ≡ Ok
        (record { nodes = atom (literal 3 0 (pos 0)) ∷ []; is = formula 0 }) }
    ensures denied { lowered scope [] (form (codes "not") (p ∷ []))
        ≡ Ok (record {
          nodes = atom (literal 3 0 (pos 0)) ∷ atom (literal 0 3 (negsuc 0)) ∷ [];
          is = formula 1;
        }) }
    ensures swapped { lowered scope [] (let_of (binding x y ∷ binding y x ∷ [])
        (form (codes "<") (x ∷ y ∷ [])))
        ≡ Ok (record { nodes = atom (literal 2 1 (negsuc 0)) ∷ []; is = formula 0 }) }
    ensures cancels { lowered scope [] (form (codes "<") (form (codes "+") (x ∷ y ∷ []) ∷ y ∷ []))
        ≡ Ok (record { nodes = atom (literal 1 0 (negsuc 0)) ∷ []; is = formula 0 }) }
    ensures unknown { lowered scope [] (form (codes "and") (numeral (codes "1") ∷ z ∷ []))
        ≡ Err UnknownSymbol }
    ensures wrong_sort { lowered scope [] (form (codes "and") (x ∷ [])) ≡ Err WrongSort }
    ensures no_difference { lowered scope []
        (form (codes "<=") (form (codes "+") (x ∷ y ∷ []) ∷ numeral (codes "3") ∷ []))
        ≡ Err NotADifference }
    ensures count { lowered scope [] (form (codes "not") (z ∷ z ∷ [])) ≡ Err WrongCount }
    ensures too_large { lowered scope [] (form (codes "=") (x ∷ numeral (codes "1152921504606846977") ∷ []))
        ≡ Err BoundTooLarge }
    ensures left_out { lowered scope [] (form (codes "*") (z ∷ [])) ≡ Err (LeftOut Times) }
    ensures branches { lowered scope [] choice ≡ Ok (record {
      nodes = p_atom ∷ no_p_atom ∷ [];
      is = numeric
          (case (0 ∷ []) (point_alone 1) ∷ case (1 ∷ []) (point_alone 2) ∷ []);
    }) }
    ensures other_branches { lowered scope [] (form (codes "ite") (p ∷ x ∷ p ∷ [])) ≡ Err WrongSort }
    ensures order_of_cases { lowered scope [] (form (codes "+")
        (choice ∷ form (codes "ite") (q ∷ one ∷ two ∷ []) ∷ []))
        ≡ Ok (record {
          nodes = p_atom ∷ no_p_atom ∷ q_atom ∷ no_q_atom ∷ [];
          is = numeric (case (0 ∷ 2 ∷ []) (with_number 1 1) ∷ case (0 ∷ 3 ∷ []) (with_number 1 2)
              ∷ case (1 ∷ 2 ∷ []) (with_number 2 1) ∷ case (1 ∷ 3 ∷ []) (with_number 2 2) ∷ []);
        }) }
    ensures compared_cases { lowered scope [] (form (codes "<") (choice ∷ two ∷ []))
        ≡ Ok (record {
          nodes = p_atom ∷ no_p_atom ∷ atom (literal 1 0 (pos 1)) ∷ disjunction (1 ∷ 2 ∷ [])
              ∷ atom (literal 2 0 (pos 1)) ∷ disjunction (0 ∷ 4 ∷ [])
              ∷ conjunction (3 ∷ 5 ∷ []) ∷ [];
          is = formula 6;
        }) }
    ensures applied_name { lowered scope [] (form (codes "x") (y ∷ [])) ≡ Err IllFormedTerm }
    ensures applied_unknown { lowered scope [] (form (codes "f") (y ∷ [])) ≡ Err UnknownSymbol }
    ensures twice_bound { lowered scope [] (let_of (binding x z ∷ binding x z ∷ []) x) ≡ Err IllFormedTerm }
{}
