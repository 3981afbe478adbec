//! What the definitions say of small inputs.
ghost use Rattle.std.specs.Prelude.{◌≡◌, ◌∷◌, [], codes, true, Ok, Err, pos, negsuc};
ghost use Rattle.idl_term.specs.Contexts.{scope_of};
ghost use Rattle.idl_term.specs.Examples.{numeral, x, p, z};
ghost use Rattle.idl_term.specs.Scopes.{is_known};
ghost use Rattle.idl_apply.specs.declared.error.TermRefusal.TheVariants.{UnknownSymbol, WrongSort, NotADifference, BoundTooLarge};
ghost use Rattle.smt_sexpr.specs.Shapes.{symbol, list_of, form};
ghost use Rattle.smt_script.specs.Examples.{keyword, written, no_parameters, declares, asserts_p, named, with_x, with_p, context_p, context_n, with_n, with_levels, with_n_on_top, minimizes, minimizing, assumes, assuming_p, answered_p};
ghost use Rattle.smt_script.specs.States.{start_state, after, carried_out, settled};
ghost use Rattle.smt_script.specs.declared.error.LeftOutCommand.TheVariants.{Parameters, Sort, Ite, DefineSort};
ghost use Rattle.smt_script.specs.declared.error.Refusal.TheVariants.{UnknownCommand, IllFormedCommand, LogicNotSupported, AlreadyDeclared, TooManyLevels, PopBelowTheBottom, NoModel, NoCore, NoAssumptions, LeftOut, Term};
ghost use Rattle.smt_script.specs.declared.state.Effect.TheVariants.{Ask, Exit, Tell};
ghost use Rattle.smt_script.specs.declared.state.Question.TheVariants.{CheckSat};
ghost use Rattle.smt_script.specs.declared.state.Notice.TheVariants.{Success, Unsupported, Assumptions};
ghost use Rattle.smt_script.specs.declared.state.Satisfiability.TheVariants as verdict;

/// Names and assertions. `with_x` is the state behind `(declare-const x Int)`, `with_p` that behind `(declare-const p Bool)`.
#[tactic(auto, unfolding(crate::specs::States::after, crate::specs::Commands::command_of, crate::specs::Commands::naming_command, crate::specs::Commands::changing_command, crate::specs::Commands::asking_command, crate::specs::Commands::is_unsupported, crate::specs::Commands::left_out_of, idl_apply::specs::Operators::operator_of, idl_apply::specs::Operators::connective_of, idl_apply::specs::Operators::order_of, idl_apply::specs::Operators::sign_of, idl_apply::specs::Operators::equality_of, idl_apply::specs::Operators::left_out_of, idl_apply::specs::Operators::theory_symbols, idl_apply::specs::Operators::reserved_words, idl_term::specs::Lowered::lowered, idl_term::specs::Lowered::lowered_leaf, idl_term::specs::Lowered::head_of, idl_term::specs::Lowered::is_let, smt_lex::specs::Numbers::value_from, smt_lex::specs::Symbols::symbol_content))]
pub fn worked_names()
    ensures declares { after start_state (declares x (codes "Int")) ≡ carried_out with_x }
    ensures function { after start_state
        (form (codes "declare-fun") (x ∷ no_parameters ∷ symbol (codes "Int") ∷ []))
        ≡ carried_out with_x }
    ensures again { after with_x (declares x (codes "Bool")) ≡ Err AlreadyDeclared }
    ensures barred { after with_x (declares (written (codes "|x|")) (codes "Int")) ≡ Err AlreadyDeclared }
    ensures reserved { after start_state (declares (symbol (codes "and")) (codes "Int"))
        ≡ Err AlreadyDeclared }
    ensures parameters { after start_state (form (codes "declare-fun")
        (symbol (codes "f") ∷ list_of (symbol (codes "Int") ∷ []) ∷ symbol (codes "Int") ∷ []))
        ≡ Err (LeftOut Parameters) }
    ensures sort { after start_state (declares (symbol (codes "r")) (codes "Real")) ≡ Err (LeftOut Sort) }
    ensures sort_first { after with_x (declares x (codes "Real")) ≡ Err (LeftOut Sort) }
    ensures defined { after with_p
        (form (codes "define-fun") (p ∷ no_parameters ∷ symbol (codes "Bool") ∷ z ∷ []))
        ≡ Err AlreadyDeclared }
    ensures unknown { after with_p
        (form (codes "define-fun") (x ∷ no_parameters ∷ symbol (codes "Bool") ∷ z ∷ []))
        ≡ Err (Term UnknownSymbol) }
    ensures wrong_sort { after with_p
        (form (codes "define-fun") (x ∷ no_parameters ∷ symbol (codes "Int") ∷ p ∷ []))
        ≡ Err (Term WrongSort) }
    ensures number { after with_p (form (codes "assert") (numeral (codes "5") ∷ [])) ≡ Err (Term WrongSort) }
    ensures names { after with_p (asserts_p (named (codes "n"))) ≡ carried_out with_n }
    ensures named { is_known (scope_of context_n) (codes "n") ≡ true }
    ensures named_again { after with_n (declares (symbol (codes "n")) (codes "Int")) ≡ Err AlreadyDeclared }
    ensures attributes { after with_p
        (asserts_p (keyword (codes ":weight") ∷ numeral (codes "3") ∷ named (codes "n")))
        ≡ carried_out with_n }
    ensures no_attribute { after with_p (asserts_p []) ≡ Err IllFormedCommand }
    ensures two_names { after with_p
        (asserts_p (keyword (codes ":named") ∷ symbol (codes "n") ∷ named (codes "m")))
        ≡ Err IllFormedCommand }
{}

/// What a `minimize` asks, where x is the one declared name.
#[tactic(auto, unfolding(crate::specs::States::after, crate::specs::Commands::command_of, crate::specs::Commands::naming_command, crate::specs::Commands::changing_command, crate::specs::Commands::asking_command, idl_apply::specs::Operators::operator_of, idl_apply::specs::Operators::connective_of, idl_apply::specs::Operators::order_of, idl_apply::specs::Operators::sign_of, idl_apply::specs::Operators::equality_of, idl_apply::specs::Operators::left_out_of, idl_apply::specs::Operators::theory_symbols, idl_apply::specs::Operators::reserved_words, idl_term::specs::Lowered::lowered, idl_term::specs::Lowered::lowered_leaf, idl_term::specs::Lowered::head_of, idl_term::specs::Lowered::is_let, idl_apply::specs::Applied::applied, idl_linear::specs::Differences::difference_of, idl_linear::specs::Linear::sum_of, smt_lex::specs::Numbers::value_from))]
pub fn worked_objectives()
    ensures name { after with_x (minimizes (x ∷ [])) ≡ minimizing 1 0 (pos 0) }
    ensures negative { after with_x (minimizes (form (codes "-") (numeral (codes "3") ∷ x ∷ []) ∷ []))
        ≡ minimizing 0 1 (pos 3) }
    ensures less { after with_x (minimizes (form (codes "-") (x ∷ numeral (codes "3") ∷ []) ∷ []))
        ≡ minimizing 1 0 (negsuc 2) }
    ensures number { after with_x (minimizes (numeral (codes "5") ∷ [])) ≡ minimizing 0 0 (pos 5) }
    ensures twice { after with_x (minimizes (form (codes "+") (x ∷ x ∷ []) ∷ [])) ≡ Err (Term NotADifference) }
    ensures cases { after with_x (minimizes
        (form (codes "ite") (form (codes "<") (x ∷ numeral (codes "3") ∷ []) ∷ x ∷ numeral (codes "5") ∷ []) ∷ []))
        ≡ Err (LeftOut Ite) }
    ensures beyond { after with_x (minimizes (form (codes "+") (x ∷ numeral (codes "1152921504606846977") ∷ []) ∷ []))
        ≡ Err (Term BoundTooLarge) }
    ensures formula { after with_p (minimizes (p ∷ [])) ≡ Err (Term WrongSort) }
    ensures unknown { after with_x (minimizes (z ∷ [])) ≡ Err (Term UnknownSymbol) }
    ensures no_term { after with_x (minimizes []) ≡ Err IllFormedCommand }
    ensures two_terms { after with_x (minimizes (x ∷ x ∷ [])) ≡ Err IllFormedCommand }
{}

/// Assumptions: asked, answered and forgotten, or refused.
#[tactic(auto, unfolding(crate::specs::States::after, crate::specs::Commands::command_of, crate::specs::Commands::naming_command, crate::specs::Commands::changing_command, crate::specs::Commands::asking_command, crate::specs::Commands::is_unsupported, crate::specs::Commands::left_out_of, idl_apply::specs::Operators::operator_of, idl_apply::specs::Operators::connective_of, idl_apply::specs::Operators::order_of, idl_apply::specs::Operators::sign_of, idl_apply::specs::Operators::equality_of, idl_apply::specs::Operators::left_out_of, idl_apply::specs::Operators::theory_symbols, idl_apply::specs::Operators::reserved_words, idl_term::specs::Lowered::lowered, idl_term::specs::Lowered::lowered_leaf, idl_term::specs::Lowered::head_of, idl_term::specs::Lowered::is_let, smt_lex::specs::Numbers::value_from, smt_lex::specs::Symbols::symbol_content))]
pub fn worked_assumptions()
    ensures asked { after with_p (assumes (p ∷ [])) ≡ Ok (record { state = assuming_p; effect = Ask CheckSat }) }
    ensures answered { settled verdict.Unsat assuming_p ≡ answered_p }
    ensures told { after answered_p (form (codes "get-unsat-assumptions") [])
        ≡ Ok (record { state = answered_p; effect = Tell Assumptions }) }
    ensures forgotten { after answered_p (form (codes "check-sat") [])
        ≡ Ok (record { state = with_p; effect = Ask CheckSat }) }
    ensures none { after with_n (form (codes "get-unsat-assumptions") []) ≡ Err NoAssumptions }
    ensures of_a_number { after with_x (assumes (x ∷ [])) ≡ Err (Term WrongSort) }
    ensures unknown { after start_state (assumes (form (codes "not") (p ∷ []) ∷ [])) ≡ Err (Term UnknownSymbol) }
    ensures no_literal { after with_p (assumes (form (codes "and") (p ∷ []) ∷ [])) ≡ Err IllFormedCommand }
    ensures no_list { after with_p (form (codes "check-sat-assuming") (p ∷ [])) ≡ Err IllFormedCommand }
{}

/// Options, levels and the other commands.
#[tactic(auto, unfolding(crate::specs::States::after, crate::specs::Commands::command_of, crate::specs::Commands::naming_command, crate::specs::Commands::changing_command, crate::specs::Commands::asking_command, crate::specs::Commands::is_unsupported, crate::specs::Commands::left_out_of, crate::specs::Options::option_effect, crate::specs::Options::is_production, smt_lex::specs::Numbers::value_from))]
pub fn worked_commands()
    ensures logic { after start_state (form (codes "set-logic") (symbol (codes "QF_IDL") ∷ []))
        ≡ carried_out start_state }
    ensures other_logic { after start_state (form (codes "set-logic") (symbol (codes "QF_LIA") ∷ []))
        ≡ Err LogicNotSupported }
    ensures option { after start_state
        (form (codes "set-option") (keyword (codes ":print-success") ∷ symbol (codes "true") ∷ []))
        ≡ carried_out (record start_state { print_success = true }) }
    ensures no_value { after start_state (form (codes "set-option") (keyword (codes ":print-success") ∷ []))
        ≡ Err IllFormedCommand }
    ensures other_option { after start_state
        (form (codes "set-option") (keyword (codes ":verbosity") ∷ numeral (codes "3") ∷ []))
        ≡ Ok (record { state = start_state; effect = Tell Unsupported }) }
    ensures pushes { after with_p (form (codes "push") (numeral (codes "2") ∷ []))
        ≡ carried_out with_levels }
    ensures pops { after with_n_on_top (form (codes "pop") (numeral (codes "1") ∷ []))
        ≡ carried_out (record with_p { below = context_p ∷ [] }) }
    ensures pops_all { after with_n_on_top (form (codes "pop") (numeral (codes "2") ∷ []))
        ≡ carried_out with_p }
    ensures bottom { after with_p (form (codes "pop") (numeral (codes "1") ∷ [])) ≡ Err PopBelowTheBottom }
    ensures too_many { after start_state (form (codes "push") (numeral (codes "65537") ∷ []))
        ≡ Err TooManyLevels }
    ensures pop_beyond { after with_p (form (codes "pop") (numeral (codes "99999999999999999999") ∷ []))
        ≡ Err PopBelowTheBottom }
    ensures reset { after with_n_on_top (form (codes "reset") []) ≡ carried_out start_state }
    ensures reset_assertions { after (record with_n_on_top { print_success = true })
        (form (codes "reset-assertions") [])
        ≡ carried_out (record start_state { print_success = true }) }
    ensures checks { after with_n (form (codes "check-sat") [])
        ≡ Ok (record { state = with_n; effect = Ask CheckSat }) }
    ensures exits { after with_n (form (codes "exit") []) ≡ Ok (record { state = with_n; effect = Exit }) }
    ensures exit_of_one { after start_state (form (codes "exit") (numeral (codes "1") ∷ []))
        ≡ Err IllFormedCommand }
    ensures unknown { after start_state (form (codes "frob") []) ≡ Err UnknownCommand }
    ensures no_list { after start_state (numeral (codes "5")) ≡ Err IllFormedCommand }
    ensures no_model { after start_state (form (codes "get-model") []) ≡ Err NoModel }
    ensures no_core { after with_n (form (codes "get-unsat-core") []) ≡ Err NoCore }
    ensures no_terms { after start_state (form (codes "get-value") (list_of [] ∷ [])) ≡ Err IllFormedCommand }
    ensures left_out { after start_state
        (form (codes "define-sort") (symbol (codes "A") ∷ no_parameters ∷ symbol (codes "Int") ∷ []))
        ≡ Err (LeftOut DefineSort) }
    ensures unsupported { after start_state (form (codes "get-assertions") [])
        ≡ Ok (record { state = start_state; effect = Tell Unsupported }) }
    ensures unsupported_with { after start_state
        (form (codes "get-option") (numeral (codes "5") ∷ x ∷ []))
        ≡ Ok (record { state = start_state; effect = Tell Unsupported }) }
{}
