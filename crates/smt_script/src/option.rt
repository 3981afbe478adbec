//! What `set-option` does.
ghost use Rattle.std.specs.Prelude.{◌≡◌, Option, option_map};
ghost use Rattle.smt_sexpr.specs.Tree.{Sexpr};
ghost use Rattle.smt_sexpr.specs.Table.{Means, HasMeaning};
ghost use Rattle.smt_script.specs.Options.{truth_named, truth_given, is_production, printing_by, production_by, option_effect};
ghost use Rattle.smt_script.specs.code.Shapes.{ValueIs, HasValue, shown_effect};

use smt_sexpr::{SexprId, Sexprs};

/// What `set-option` does.
#[derive(Clone, Copy, Debug, PartialEq, Eq)]
pub enum OptionEffect {
    /// `success` is to be printed, or not.
    PrintSuccess(bool),
    Nothing,
    Unsupported,
    /// The value isn't one that the option takes.
    IllFormed,
}

/// The truth value that a symbol names.
fn truth_named(name: Option<&[u8]>) -> Option<bool>
    ensures { result ≡ truth_named (option_map (λ text. text.now) name.entry) }
{
    let text = name?;
    if text == b"true".as_slice() {
        Some(true)
    } else if text == b"false".as_slice() {
        Some(false)
    } else {
        None
    }
}

/// The symbol `true` or `false`.
fn truth_given(sexprs: &Sexprs, value: Option<SexprId>) -> Option<bool>
    requires { HasValue sexprs.now value }
    ensures { (v : Option Sexpr) → ValueIs sexprs.now value v → result ≡ truth_given v }
{
    match value {
        Some(id) => truth_named(sexprs.symbol(id)),
        None => None,
    }
}

/// Whether the option takes a truth value and has no effect.
#[tactic(auto, unfolding(crate::specs::Options::is_production))]
fn is_production(keyword: &[u8]) -> bool
    ensures { result ≡ is_production keyword.now }
{
    keyword == b":produce-models".as_slice()
        || keyword == b":produce-proofs".as_slice()
        || keyword == b":produce-unsat-cores".as_slice()
        || keyword == b":produce-unsat-assumptions".as_slice()
        || keyword == b":produce-assertions".as_slice()
        || keyword == b":produce-assignments".as_slice()
}

/// What the option does, with its value.
#[tactic(auto, unfolding(crate::specs::Options::option_effect))]
pub fn option_effect(sexprs: &Sexprs, keyword: &[u8], value: Option<SexprId>) -> OptionEffect
    requires { HasValue sexprs.now value }
    ensures { (v : Option Sexpr) → ValueIs sexprs.now value v
        → shown_effect result ≡ option_effect keyword.now v }
{
    let truth = truth_given(sexprs, value);
    if keyword == b":print-success".as_slice() {
        match truth {
            Some(on) => OptionEffect::PrintSuccess(on),
            None => OptionEffect::IllFormed,
        }
    } else if is_production(keyword) {
        match truth {
            Some(_) => OptionEffect::Nothing,
            None => OptionEffect::IllFormed,
        }
    } else {
        OptionEffect::Unsupported
    }
}
