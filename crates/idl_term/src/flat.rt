//! Relations of terms of few parts, which are lowered without the machine and its stacks. After an error the table may be longer than before it:
//! the caller cuts it.
ghost use Rattle.std.specs.Prelude.{◌≡◌, ◌≤◌, ◌∷◌, [], length, take, true, IfSome};
ghost use Rattle.smt_sexpr.specs.Tree.{IsLeaf, more, none};
ghost use Rattle.idl_scope.specs.Limits.{names_limit};
ghost use Rattle.idl_scope.specs.Scopes.{shown_term};
ghost use Rattle.idl_scope.specs.code.LocalNames.{scope_in};
ghost use Rattle.idl_apply.specs.Applied.{applied};
ghost use Rattle.idl_term.specs.Lowered.{lowered, lowered_leaf, lowered_list, head_of, operator};
ghost use Rattle.idl_apply.specs.Operators.{takes_count};
ghost use Rattle.idl_term.specs.code.Flat.{MayLower, made_of_two};
ghost use Rattle.idl_apply.specs.code.Shapes.{Lowers};
ghost use Rattle.idl_term.specs.code.Trees.{tree_of, trees_of, IsTree, AreTrees};

use crate::head::{Head, head_of};
use crate::leaf::{lower_leaf, lower_names};
use idl_apply::{Operator, TermError, apply};
use idl_node::Nodes;
use idl_scope::{Locals, Lowered};
use smt_lex::TokenKind;
use smt_sexpr::{SexprId, Sexprs};
use std::alloc::Global;

/// The operator that a list begins with, where it is no connective and takes so many terms.
fn operator_at(sexprs: &Sexprs, head: SexprId, count: usize, locals: &Locals) -> Option<Operator>
    requires head { IsTree sexprs.now head }
    requires few { length locals.now.outer.declared ≤ names_limit }
    ensures { IfSome result (λ o.
        (head_of (scope_in locals.now) (tree_of sexprs.now head) ≡ operator o) × (takes_count o count ≡ true)) }
{
    match head_of(sexprs, head, locals) {
        Head::Operator(Operator::Connective(_)) => None,
        Head::Operator(operator) if operator.takes_count(count) => Some(operator),
        _ => None,
    }
}

/// What an operator makes of one term.
fn apply_to_one(
    alloc: Global,
    operator: Operator,
    nodes: &mut Nodes,
    argument: Lowered,
) -> Result<Lowered, TermError>
    ensures makes { Lowers nodes.new (applied operator nodes.old (shown_term argument ∷ [])) result }
    ensures front { take (length nodes.old) nodes.new ≡ nodes.old }
{
    apply(alloc, operator, nodes, [argument].as_slice())
}

/// What an operator makes of two terms.
fn apply_to_two(
    alloc: Global,
    operator: Operator,
    nodes: &mut Nodes,
    first: Lowered,
    second: Lowered,
) -> Result<Lowered, TermError>
    ensures makes { Lowers nodes.new (applied operator nodes.old (shown_term first ∷ shown_term second ∷ [])) result }
    ensures front { take (length nodes.old) nodes.new ≡ nodes.old }
{
    apply(alloc, operator, nodes, [first, second].as_slice())
}

/// An operator of the terms of two tokens.
fn lower_leaves(
    alloc: Global,
    operator: Operator,
    first: (TokenKind, &[u8]),
    second: (TokenKind, &[u8]),
    locals: &Locals,
    nodes: &mut Nodes,
) -> Result<Lowered, TermError>
    requires first { IsLeaf first.0 first.1.now }
    requires second { IsLeaf second.0 second.1.now }
    requires few { length locals.now.outer.declared ≤ names_limit }
    ensures makes { Lowers nodes.new (made_of_two operator
        (lowered_leaf (scope_in locals.now) nodes.old first.entry.0 first.entry.1.now)
        (λ ns. lowered_leaf (scope_in locals.now) ns second.entry.0 second.entry.1.now)) result }
    ensures front { take (length nodes.old) nodes.new ≡ nodes.old }
{
    let (first_kind, first_text) = first;
    let (second_kind, second_text) = second;
    if let (TokenKind::Symbol, TokenKind::Symbol) = (first_kind, second_kind) {
        let (a, b) = lower_names(first_text, second_text, locals, nodes)?;
        return apply_to_two(alloc, operator, nodes, a, b);
    }
    let a = lower_leaf(alloc, first_kind, first_text, locals, nodes)?;
    let b = lower_leaf(alloc, second_kind, second_text, locals, nodes)?;
    apply_to_two(alloc, operator, nodes, a, b)
}

/// An operator of one token, where the ids are of these.
fn lower_of_one(
    alloc: Global,
    sexprs: &Sexprs,
    head: SexprId,
    only: SexprId,
    locals: &Locals,
    nodes: &mut Nodes,
) -> Result<Option<Lowered>, TermError>
    requires head { IsTree sexprs.now head }
    requires only { IsTree sexprs.now only }
    requires few { length locals.now.outer.declared ≤ names_limit }
    ensures makes { MayLower nodes.old nodes.new (lowered_list (scope_in locals.now) nodes.old
        (more (tree_of sexprs.now head) (more (tree_of sexprs.now only) none))) result }
    ensures front { take (length nodes.old) nodes.new ≡ nodes.old }
{
    let Some((kind, text)) = sexprs.leaf(only) else {
        return Ok(None);
    };
    let Some(operator) = operator_at(sexprs, head, 1, locals) else {
        return Ok(None);
    };
    let argument = lower_leaf(alloc, kind, text, locals, nodes)?;
    let made = apply_to_one(alloc, operator, nodes, argument)?;
    Ok(Some(made))
}

/// An operator of two tokens, where the ids are of these.
fn lower_of_two(
    alloc: Global,
    sexprs: &Sexprs,
    head: SexprId,
    first: SexprId,
    second: SexprId,
    locals: &Locals,
    nodes: &mut Nodes,
) -> Result<Option<Lowered>, TermError>
    requires head { IsTree sexprs.now head }
    requires first { IsTree sexprs.now first }
    requires second { IsTree sexprs.now second }
    requires few { length locals.now.outer.declared ≤ names_limit }
    ensures makes { MayLower nodes.old nodes.new (lowered_list (scope_in locals.now) nodes.old
        (more (tree_of sexprs.now head) (more (tree_of sexprs.now first) (more (tree_of sexprs.now second) none)))) result }
    ensures front { take (length nodes.old) nodes.new ≡ nodes.old }
{
    let Some(first_leaf) = sexprs.leaf(first) else {
        return Ok(None);
    };
    let Some(second_leaf) = sexprs.leaf(second) else {
        return Ok(None);
    };
    let Some(operator) = operator_at(sexprs, head, 2, locals) else {
        return Ok(None);
    };
    let made = lower_leaves(alloc, operator, first_leaf, second_leaf, locals, nodes)?;
    Ok(Some(made))
}

/// A term of one token, or an operator of one or two tokens. Of another term there is none, and the table stays.
fn lower_small(
    alloc: Global,
    sexprs: &Sexprs,
    id: SexprId,
    locals: &Locals,
    nodes: &mut Nodes,
) -> Result<Option<Lowered>, TermError>
    requires tree { IsTree sexprs.now id }
    requires few { length locals.now.outer.declared ≤ names_limit }
    ensures makes { MayLower nodes.old nodes.new (lowered (scope_in locals.now) nodes.old (tree_of sexprs.now id)) result }
    ensures front { take (length nodes.old) nodes.new ≡ nodes.old }
{
    if let Some((kind, text)) = sexprs.leaf(id) {
        let made = lower_leaf(alloc, kind, text, locals, nodes)?;
        return Ok(Some(made));
    }
    match sexprs.items(id) {
        Some([head, only]) => lower_of_one(alloc, sexprs, *head, *only, locals, nodes),
        Some([head, first, second]) => {
            lower_of_two(alloc, sexprs, *head, *first, *second, locals, nodes)
        }
        _ => Ok(None),
    }
}

/// An operator of two small terms, where the ids are of these.
fn lower_of_small(
    alloc: Global,
    sexprs: &Sexprs,
    head: SexprId,
    first: SexprId,
    second: SexprId,
    locals: &Locals,
    nodes: &mut Nodes,
) -> Result<Option<Lowered>, TermError>
    requires head { IsTree sexprs.now head }
    requires first { IsTree sexprs.now first }
    requires second { IsTree sexprs.now second }
    requires few { length locals.now.outer.declared ≤ names_limit }
    ensures makes { MayLower nodes.old nodes.new (lowered_list (scope_in locals.now) nodes.old
        (more (tree_of sexprs.now head) (more (tree_of sexprs.now first) (more (tree_of sexprs.now second) none)))) result }
    ensures front { take (length nodes.old) nodes.new ≡ nodes.old }
{
    let Some(operator) = operator_at(sexprs, head, 2, locals) else {
        return Ok(None);
    };
    let before = nodes.len();
    let Some(a) = lower_small(alloc, sexprs, first, locals, nodes)? else {
        return Ok(None);
    };
    let Some(b) = lower_small(alloc, sexprs, second, locals, nodes)? else {
        nodes.cut(before);
        return Ok(None);
    };
    let made = apply_to_two(alloc, operator, nodes, a, b)?;
    Ok(Some(made))
}

/// A list of an operator that is no connective and two small terms. Of another term there is none, and the table stays.
pub(crate) fn lower_flat(
    alloc: Global,
    sexprs: &Sexprs,
    id: SexprId,
    locals: &Locals,
    nodes: &mut Nodes,
) -> Result<Option<Lowered>, TermError>
    requires tree { IsTree sexprs.now id }
    requires few { length locals.now.outer.declared ≤ names_limit }
    ensures makes { MayLower nodes.old nodes.new (lowered (scope_in locals.now) nodes.old (tree_of sexprs.now id)) result }
    ensures front { take (length nodes.old) nodes.new ≡ nodes.old }
{
    match sexprs.items(id) {
        Some([head, first, second]) => {
            lower_of_small(alloc, sexprs, *head, *first, *second, locals, nodes)
        }
        _ => Ok(None),
    }
}
