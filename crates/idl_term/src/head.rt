//! What a list begins with.
ghost use Rattle.std.specs.Prelude.{◌≡◌, ◌≤◌, length};
ghost use Rattle.idl_term.specs.code.Heads.{head_meaning};
ghost use Rattle.idl_scope.specs.Limits.{names_limit};
ghost use Rattle.idl_term.specs.Lowered.{head_of, symbol_head, list_head, no_operator};
ghost use Rattle.idl_term.specs.code.Trees.{tree_of, trees_of, IsTree, AreTrees};
ghost use Rattle.idl_scope.specs.code.LocalNames.{scope_in};

use crate::reserved::is_reserved;
use crate::symbol::{left_out_of, operator_of};
use idl_apply::{LeftOutTerm, Operator, TermRefusal};
use idl_scope::{FoundName, Locals};
use smt_sexpr::{SexprId, Sexprs};

/// What a list begins with.
#[derive(Clone, Copy)]
pub(crate) enum Head {
    Operator(Operator),
    Let,
    Refused(TermRefusal),
}

/// The name of no operator.
fn other_head(name: &[u8], locals: &Locals) -> Head
    requires { length locals.now.outer.declared ≤ names_limit }
    ensures { head_meaning result ≡ no_operator (scope_in locals.now) name.now }
{
    if let Some(construct) = left_out_of(name) {
        return Head::Refused(TermRefusal::LeftOut(construct));
    }
    if is_reserved(name) {
        return Head::Refused(TermRefusal::IllFormedTerm);
    }
    match locals.find(name) {
        FoundName::Unknown => Head::Refused(TermRefusal::UnknownSymbol),
        _ => Head::Refused(TermRefusal::IllFormedTerm),
    }
}

fn symbol_head(name: &[u8], locals: &Locals) -> Head
    requires { length locals.now.outer.declared ≤ names_limit }
    ensures { head_meaning result ≡ symbol_head (scope_in locals.now) name.now }
{
    if name == b"let".as_slice() {
        return Head::Let;
    }
    match operator_of(name) {
        Some(operator) => Head::Operator(operator),
        None => other_head(name, locals),
    }
}

/// The head of a head that is a list.
fn list_head(sexprs: &Sexprs, items: &[SexprId]) -> Head
    requires { AreTrees sexprs.now items.now }
    ensures { head_meaning result ≡ list_head (trees_of sexprs.now items.now) }
{
    let Some((first, _)) = items.split_first() else {
        return Head::Refused(TermRefusal::IllFormedTerm);
    };
    match sexprs.symbol(*first) {
        Some(name) => {
            if name == b"as".as_slice() {
                Head::Refused(TermRefusal::LeftOut(LeftOutTerm::As))
            } else if name == b"_".as_slice() {
                Head::Refused(TermRefusal::LeftOut(LeftOutTerm::Underscore))
            } else {
                Head::Refused(TermRefusal::IllFormedTerm)
            }
        }
        None => Head::Refused(TermRefusal::IllFormedTerm),
    }
}

/// What a list begins with whose first item this is.
pub(crate) fn head_of(sexprs: &Sexprs, id: SexprId, locals: &Locals) -> Head
    requires meaning { IsTree sexprs.now id }
    requires few { length locals.now.outer.declared ≤ names_limit }
    ensures { head_meaning result ≡ head_of (scope_in locals.now) (tree_of sexprs.now id) }
{
    if let Some(name) = sexprs.symbol(id) {
        return symbol_head(name, locals);
    }
    match sexprs.items(id) {
        Some(items) => list_head(sexprs, items),
        None => Head::Refused(TermRefusal::IllFormedTerm),
    }
}
