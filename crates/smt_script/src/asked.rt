//! What a command asks for that is told.
ghost use Rattle.std.specs.Prelude.{◌≡◌};
ghost use Rattle.smt_sexpr.specs.Tree.{Sexpr, Items, list};
ghost use Rattle.smt_sexpr.specs.Table.{Means, MeansEach, HasMeaning};
ghost use Rattle.smt_script.specs.Commands.{asked_terms, echoed_text};

use crate::command::{Request, request_of};
use smt_sexpr::{SexprId, Sexprs};

/// The items of a list.
pub(crate) fn items_of<'s>(sexprs: &'s Sexprs, id: SexprId) -> &'s [SexprId]
    requires { (xs : Items) × Means sexprs.now id (list xs) }
    ensures { (xs : Items) → Means sexprs.now id (list xs) → MeansEach sexprs.now result.now xs }
{
    match sexprs.items(id) {
        Some(items) => items,
        None => &[],
    }
}

/// The terms of a `get-value`; none of another command.
pub fn asked_terms<'s>(sexprs: &'s Sexprs, id: SexprId) -> &'s [SexprId]
    requires { HasMeaning sexprs.now id }
    ensures { (x : Sexpr) → Means sexprs.now id x → MeansEach sexprs.now result.now (asked_terms x) }
{
    match request_of(sexprs, id) {
        Ok(Request::Values(terms)) => items_of(sexprs, terms),
        _ => &[],
    }
}

/// The text of an `echo`, in its quotation marks; nothing of another command.
pub fn echoed_text<'a>(sexprs: &Sexprs<'a>, id: SexprId) -> &'a [u8]
    requires { HasMeaning sexprs.now id }
    ensures { (x : Sexpr) → Means sexprs.now id x → result.now ≡ echoed_text x }
{
    match request_of(sexprs, id) {
        Ok(Request::Echo(text)) => text,
        _ => &[],
    }
}
