//! The nodes of comparisons of Int terms. After an error the table may be longer than before it: the caller cuts it.
ghost use Rattle.std.specs.Prelude.{◌≡◌, ◌≤ℤ◌, pos, neg_ℤ, [], length, take, map};
ghost use Rattle.idl_linear.specs.Limits.{number_limit};
ghost use Rattle.idl_node.specs.code.Made.{Makes};
ghost use Rattle.idl_apply.specs.Comparing.{at_most, below, at_least, above, related, compared, all_compared, each_compared, or_too_large};
ghost use Rattle.idl_node.specs.Making.{conjoined, disjoined, neighbours, pairs};
ghost use Rattle.idl_apply.specs.code.Applying.{both_atoms, either_atom};
ghost use Rattle.idl_apply.specs.code.Shapes.{Places};

use crate::error::TermError;
use crate::pairing::compare_cases;
use crate::repeated::repeats;
use crate::rows::{Operands, compare_next};
use idl_cases::Cases;
use idl_linear::{Difference, Linear, compare};
use idl_node::{Node, NodeError, Nodes};
use std::alloc::Global;
use stn_core::Literal;

/// A relation between whole numbers (SMT-LIB 2.6, theories Core and Ints).
#[derive(Clone, Copy, Debug, PartialEq, Eq)]
pub enum Relation {
    AtMost,
    Less,
    AtLeast,
    Greater,
    Equal,
    Distinct,
}

/// `x - y <= n`.
fn at_most(difference: Difference) -> Literal
    ensures { result ≡ at_most difference }
{
    Literal {
        x: difference.x,
        y: difference.y,
        c: difference.n,
    }
}

/// `x - y < n`.
fn below(difference: Difference) -> Literal
    requires { neg_ℤ (pos number_limit) ≤ℤ difference.n }
    ensures { result ≡ below difference }
{
    Literal {
        x: difference.x,
        y: difference.y,
        c: difference.n - 1,
    }
}

/// `x - y >= n`.
fn at_least(difference: Difference) -> Literal
    requires { neg_ℤ (pos number_limit) ≤ℤ difference.n }
    ensures { result ≡ at_least difference }
{
    Literal {
        x: difference.y,
        y: difference.x,
        c: -difference.n,
    }
}

/// `x - y > n`.
fn above(difference: Difference) -> Literal
    requires low { neg_ℤ (pos number_limit) ≤ℤ difference.n }
    requires high { difference.n ≤ℤ pos number_limit }
    ensures { result ≡ above difference }
{
    Literal {
        x: difference.y,
        y: difference.x,
        c: -difference.n - 1,
    }
}

/// Both bounds.
fn both(alloc: Global, nodes: &mut Nodes, first: Literal, second: Literal) -> Result<u32, NodeError>
    ensures makes { Makes nodes.new (both_atoms nodes.old first second) result }
    ensures front { take (length nodes.old) nodes.new ≡ nodes.old }
{
    let first = nodes.place(Node::Atom(first))?;
    let second = nodes.place(Node::Atom(second))?;
    let members = vec![in alloc; first, second]?;
    nodes.place(Node::And(members))
}

/// One of the bounds.
fn either(
    alloc: Global,
    nodes: &mut Nodes,
    first: Literal,
    second: Literal,
) -> Result<u32, NodeError>
    ensures makes { Makes nodes.new (either_atom nodes.old first second) result }
    ensures front { take (length nodes.old) nodes.new ≡ nodes.old }
{
    let first = nodes.place(Node::Atom(first))?;
    let second = nodes.place(Node::Atom(second))?;
    let members = vec![in alloc; first, second]?;
    nodes.place(Node::Or(members))
}

/// The difference in its relation to its number.
pub(crate) fn relate(
    alloc: Global,
    nodes: &mut Nodes,
    relation: Relation,
    difference: Difference,
) -> Result<u32, NodeError>
    requires low { neg_ℤ (pos number_limit) ≤ℤ difference.n }
    requires high { difference.n ≤ℤ pos number_limit }
    ensures makes { Makes nodes.new (related nodes.old relation difference) result }
    ensures front { take (length nodes.old) nodes.new ≡ nodes.old }
{
    match relation {
        Relation::AtMost => nodes.place(Node::Atom(at_most(difference))),
        Relation::Less => nodes.place(Node::Atom(below(difference))),
        Relation::AtLeast => nodes.place(Node::Atom(at_least(difference))),
        Relation::Greater => nodes.place(Node::Atom(above(difference))),
        Relation::Equal => both(alloc, nodes, at_most(difference), at_least(difference)),
        Relation::Distinct => either(alloc, nodes, below(difference), above(difference)),
    }
}

/// Two linear terms in the relation.
pub(crate) fn compare_two(
    alloc: Global,
    nodes: &mut Nodes,
    relation: Relation,
    a: &Linear,
    b: &Linear,
) -> Result<u32, TermError>
    ensures makes { Places nodes.new (compared relation nodes.old a.now b.now) result }
    ensures front { take (length nodes.old) nodes.new ≡ nodes.old }
{
    let difference = compare(a, b)?;
    let number = relate(alloc, nodes, relation, difference)?;
    Ok(number)
}

/// All of the parts.
pub(crate) fn conjoin(nodes: &mut Nodes, parts: Vec<u32>) -> Result<u32, TermError>
    ensures makes { Places nodes.new (or_too_large (conjoined nodes.old parts.items)) result }
    ensures front { take (length nodes.old) nodes.new ≡ nodes.old }
{
    let number = nodes.conjoin(parts)?;
    Ok(number)
}

/// One of the parts.
pub(crate) fn disjoin(nodes: &mut Nodes, parts: Vec<u32>) -> Result<u32, TermError>
    ensures makes { Places nodes.new (or_too_large (disjoined nodes.old parts.items)) result }
    ensures front { take (length nodes.old) nodes.new ≡ nodes.old }
{
    let number = nodes.disjoin(parts)?;
    Ok(number)
}

/// Each term in the relation to its neighbour.
fn compare_neighbours(
    alloc: Global,
    nodes: &mut Nodes,
    relation: Relation,
    terms: &[&Cases],
) -> Result<u32, TermError>
    ensures makes { Places nodes.new (each_compared relation nodes.old []
        (neighbours (map (λ t. t.now) terms.now))) result }
    ensures front { take (length nodes.old) nodes.new ≡ nodes.old }
{
    let mut parts = Vec::new(alloc);
    for i in 1..terms.len() {
        parts.push(compare_cases(alloc, nodes, relation, terms[i - 1], terms[i])?)?;
    }
    conjoin(nodes, parts)
}

/// Each term in the relation to all behind it. Of a term that equals one before it nothing is compared again.
fn compare_pairs(
    alloc: Global,
    nodes: &mut Nodes,
    relation: Relation,
    terms: &[&Cases],
) -> Result<u32, TermError>
    ensures makes { Places nodes.new (each_compared relation nodes.old []
        (pairs (map (λ t. t.now) terms.now))) result }
    ensures front { take (length nodes.old) nodes.new ≡ nodes.old }
{
    let earlier = repeats(alloc, terms, nodes.len())?;
    let all = Operands {
        relation,
        terms,
        earlier: &earlier,
    };
    let mut starts = Vec::new(alloc);
    let mut parts = Vec::new(alloc);
    for _i in 0..terms.len() {
        let start = parts.len();
        compare_next(alloc, nodes, all, &starts, &mut parts)?;
        starts.push(start)?;
    }
    conjoin(nodes, parts)
}

/// The terms in the relation: `distinct` of all pairs, the others of neighbours.
pub fn compare_all(
    alloc: Global,
    nodes: &mut Nodes,
    relation: Relation,
    terms: &[&Cases],
) -> Result<u32, TermError>
    ensures makes { Places nodes.new (all_compared relation nodes.old (map (λ t. t.now) terms.now)) result }
    ensures front { take (length nodes.old) nodes.new ≡ nodes.old }
{
    match relation {
        Relation::Distinct => compare_pairs(alloc, nodes, relation, terms),
        _ => compare_neighbours(alloc, nodes, relation, terms),
    }
}
