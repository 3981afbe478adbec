//! What a term of one token is made into.
ghost use Rattle.std.specs.Prelude.{◌≡◌, ◌≢◌, ◌≤◌, List, IsTrue, Err, length, take};
ghost use Rattle.std.specs.Char.{is_ascii_digit};
ghost use Rattle.std.specs.List.{list_all};
ghost use Rattle.idl_node.specs.Nodes.{NodeValue};
ghost use Rattle.smt_lex.specs.declared.token.TokenKind.TheVariants.{Symbol};
ghost use Rattle.smt_lex.specs.Numbers.{value_of};
ghost use Rattle.smt_sexpr.specs.Tree.{IsLeaf};
ghost use Rattle.idl_term.specs.Lowered.{lowered_leaf, lowered_found, lowered_numeral};
ghost use Rattle.idl_apply.specs.Operators.{is_reserved};
ghost use Rattle.idl_scope.specs.Scopes.{Scope as Meaning, Found, found};
ghost use Rattle.idl_apply.specs.declared.error.TermError.TheVariants.{Refused};
ghost use Rattle.idl_apply.specs.declared.error.TermRefusal.TheVariants.{LeftOut};
ghost use Rattle.idl_scope.specs.code.Kept.{FoundIs, IsNearPlace};
ghost use Rattle.idl_scope.specs.Limits.{names_limit};
ghost use Rattle.idl_scope.specs.code.LocalNames.{scope_in};
ghost use Rattle.idl_apply.specs.code.Shapes.{Lowers};
ghost use Rattle.idl_term.specs.code.Walks.{LowersNames};

use crate::reserved::is_reserved;
use idl_apply::{LeftOutTerm, TermError, TermRefusal, as_formula};
use idl_linear::{CONSTANT_LIMIT, Linear};
use idl_node::{Node, Nodes, Sort};
use idl_scope::{FoundName, Locals, Lowered};
use smt_lex::{TokenKind, numeral_value};
use std::alloc::Global;
use stn_core::Literal;

/// What a name stands for.
fn lower_found(meaning: FoundName, nodes: &mut Nodes) -> Result<Lowered, TermError>
    requires near { IsNearPlace meaning }
    ensures makes { (found : Found) → FoundIs found meaning.entry
        → Lowers nodes.new (lowered_found nodes.old found) result }
    ensures front { take (length nodes.old) nodes.new ≡ nodes.old }
{
    match meaning {
        FoundName::Declared(place, sort) => {
            let point = place as u32 + 1;
            match sort {
                Sort::Int => Ok(Lowered::number(Linear::point(point))),
                Sort::Bool => as_formula(nodes.place(Node::Atom(Literal {
                    x: point,
                    y: 0,
                    c: 0,
                }))),
            }
        }
        FoundName::Bound(term) => Ok(term.copy()?),
        FoundName::Unknown => Err(TermError::Refused(TermRefusal::UnknownSymbol)),
    }
}

/// A symbol, with what it was found to be. After an error the table may be longer.
pub fn lower_symbol(
    name: &[u8],
    meaning: FoundName,
    nodes: &mut Nodes,
) -> Result<Lowered, TermError>
    requires near { IsNearPlace meaning }
    ensures makes { (scope : Meaning) → FoundIs (found scope name.now) meaning.entry
        → Lowers nodes.new (lowered_leaf scope nodes.old Symbol name.now) result }
    ensures front { take (length nodes.old) nodes.new ≡ nodes.old }
{
    if name == b"true".as_slice() {
        return as_formula(nodes.constant(true));
    }
    if name == b"false".as_slice() {
        return as_formula(nodes.constant(false));
    }
    if is_reserved(name) {
        return Err(TermError::Refused(TermRefusal::IllFormedTerm));
    }
    lower_found(meaning, nodes)
}

/// Two symbols. Both are looked up first, so that neither look-up waits for what the other finds. After an error the table may
/// be longer.
#[inline(always)]
pub(crate) fn lower_names(
    first: &[u8],
    second: &[u8],
    locals: &Locals,
    nodes: &mut Nodes,
) -> Result<(Lowered, Lowered), TermError>
    requires few { length locals.now.outer.declared ≤ names_limit }
    ensures makes { LowersNames (scope_in locals.now) nodes.old nodes.new first.now second.now result }
    ensures front { take (length nodes.old) nodes.new ≡ nodes.old }
{
    let first_found = locals.find(first);
    let second_found = locals.find(second);
    let first_term = lower_symbol(first, first_found, nodes)?;
    let second_term = lower_symbol(second, second_found, nodes)?;
    Ok((first_term, second_term))
}

/// The number that digits stand for.
fn lower_numeral(alloc: Global, digits: &[u8]) -> Result<Lowered, TermError>
    requires { IsTrue (list_all is_ascii_digit digits.now) }
    ensures { (nodes : List NodeValue) → Lowers nodes (lowered_numeral nodes (value_of digits.now)) result }
{
    match numeral_value(digits) {
        Some(value) if value <= CONSTANT_LIMIT => {
            Ok(Lowered::number(Linear::number(alloc, value as i64)))
        }
        _ => Err(TermError::Refused(TermRefusal::BoundTooLarge)),
    }
}

fn left_out(term: LeftOutTerm) -> Result<Lowered, TermError>
    ensures { result ≡ Err (Refused (LeftOut term)) }
{
    Err(TermError::Refused(TermRefusal::LeftOut(term)))
}

/// A token that is no symbol.
#[tactic(auto, unfolding(crate::specs::Lowered::lowered_leaf))]
pub fn lower_token(alloc: Global, kind: TokenKind, text: &[u8]) -> Result<Lowered, TermError>
    requires leaf { IsLeaf kind text.now }
    requires other { kind ≢ Symbol }
    ensures { (scope : Meaning) (nodes : List NodeValue)
        → Lowers nodes (lowered_leaf scope nodes kind text.now) result }
{
    match kind {
        TokenKind::Numeral => {
            smt_lex::numeral_digits();
            lower_numeral(alloc, text)
        }
        TokenKind::Decimal => left_out(LeftOutTerm::Decimal),
        TokenKind::Hex => left_out(LeftOutTerm::Hexadecimal),
        TokenKind::Binary => left_out(LeftOutTerm::Binary),
        TokenKind::Text => left_out(LeftOutTerm::String),
        _ => Err(TermError::Refused(TermRefusal::IllFormedTerm)),
    }
}

/// A term of one token. After an error the table may be longer.
pub(crate) fn lower_leaf(
    alloc: Global,
    kind: TokenKind,
    text: &[u8],
    locals: &Locals,
    nodes: &mut Nodes,
) -> Result<Lowered, TermError>
    requires leaf { IsLeaf kind text.now }
    requires few { length locals.now.outer.declared ≤ names_limit }
    ensures makes { Lowers nodes.new (lowered_leaf (scope_in locals.now) nodes.old kind text.now) result }
    ensures front { take (length nodes.old) nodes.new ≡ nodes.old }
{
    match kind {
        TokenKind::Symbol => lower_symbol(text, locals.find(text), nodes),
        _ => lower_token(alloc, kind, text),
    }
}
