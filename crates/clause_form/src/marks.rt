//! Which nodes are asserted, denied and inner: marks, one for each node. Roots and members beyond the table have none.
ghost use Rattle.std.specs.Prelude.{◌≡◌, ◌<◌, ℕ, List, [], length, IfOk, nat_eq};
ghost use Rattle.idl_node.specs.Nodes.{NodeValue, node_value, shown};
ghost use Rattle.idl_node.specs.Tables.{IsTableOver};
ghost use Rattle.clause_form.specs.code.Marking.{AreMarks, AreNodeMarks, ArePolarityMarks, MarksMore};
ghost use Rattle.clause_form.specs.Polarity.{Polarity, is_among, spread, body_at, is_compound, node_at, compounds, inner_of};

use idl_node::Node;
use std::alloc::{AllocError, Global};

/// The asserted and the denied nodes.
pub struct PolarityMarks {
    pub asserted: Vec<bool>,
    pub denied: Vec<bool>,
}

impl Drop for PolarityMarks {
    fn drop(self) {
        let PolarityMarks { asserted, denied } = self;
        drop(asserted);
        drop(denied);
    }
}

/// All of them.
pub struct NodeMarks {
    pub polarity: PolarityMarks,
    pub inner: Vec<bool>,
}

impl Drop for NodeMarks {
    fn drop(self) {
        let NodeMarks { polarity, inner } = self;
        drop(polarity);
        drop(inner);
    }
}

fn mark(marks: &mut [bool], number: u32)
    ensures count { length marks.new ≡ length marks.old }
    ensures each { MarksMore marks.old marks.new (λ k. nat_eq k number) }
{
    let place = number as usize;
    if place < marks.len() {
        marks[place] = true;
    }
}

fn mark_all(marks: &mut [bool], numbers: &[u32])
    ensures count { length marks.new ≡ length marks.old }
    ensures each { MarksMore marks.old marks.new (λ k. is_among k numbers.now) }
{
    for number in numbers {
        mark(marks, *number);
    }
}

/// What one node adds: an asserted `and` asserts its members, a denied `or` denies them, and a `not` turns its member.
fn spread(asserted: &mut [bool], denied: &mut [bool], node: &Node, number: usize)
    requires in_asserted { number < length asserted.old }
    requires same { length denied.old ≡ length asserted.old }
    ensures { (p : Polarity) → ArePolarityMarks (length asserted.old) asserted.old denied.old p
        → ArePolarityMarks (length asserted.old) asserted.new denied.new
        (spread number (node_value node.now) p) }
{
    let is_asserted = asserted[number];
    let is_denied = denied[number];
    match node {
        Node::True | Node::Atom(_) => {}
        Node::Not(member) => {
            if is_asserted {
                mark(denied, *member);
            }
            if is_denied {
                mark(asserted, *member);
            }
        }
        Node::And(members) => {
            if is_asserted {
                mark_all(asserted, members);
            }
        }
        Node::Or(members) => {
            if is_denied {
                mark_all(denied, members);
            }
        }
    }
}

/// Marks for so many nodes, none of them set.
fn no_marks(alloc: Global, count: usize) -> Result<Vec<bool>, AllocError>
    ensures { IfOk result (λ marks. AreMarks count marks.items []) }
{
    let marks = vec![in alloc; false; count]?;
    Ok(marks)
}

/// The member of a `not`, else the node itself.
fn body_of(nodes: &[Node], number: u32) -> u32
    ensures { result ≡ body_at (shown nodes.now) number }
{
    match nodes.get(number as usize) {
        Some(Node::Not(member)) => *member,
        _ => number,
    }
}

fn is_compound(nodes: &[Node], number: u32) -> bool
    ensures { result ≡ is_compound (node_at (shown nodes.now) number) }
{
    matches!(nodes.get(number as usize), Some(Node::And(_) | Node::Or(_)))
}

fn mark_compounds(marks: &mut [bool], nodes: &[Node], members: &[u32])
    ensures count { length marks.new ≡ length marks.old }
    ensures each { MarksMore marks.old marks.new (λ k. is_among k (compounds (shown nodes.now) members.now)) }
{
    for member in members {
        let body = body_of(nodes, *member);
        if is_compound(nodes, body) {
            mark(marks, body);
        }
    }
}

/// The members of whose literals clauses are made.
fn needed_members(node: &Node, asserted: bool, denied: bool, inner: bool) -> &[u32]
    ensures { (nodes : List NodeValue)
        → inner_of asserted denied inner nodes (node_value node.now) ≡ compounds nodes result.now }
{
    match node {
        Node::And(members) if inner || denied => members,
        Node::Or(members) if inner || asserted => members,
        _ => &[],
    }
}

/// One pass, from the last node down: a node's members have smaller numbers, so that what a node is stands when it is reached.
fn mark_nodes(
    asserted: &mut [bool],
    denied: &mut [bool],
    inner: &mut [bool],
    nodes: &[Node],
    roots: &[u32],
)
    requires table { (points : ℕ) × IsTableOver points (shown nodes.now) }
    requires no_asserted { AreMarks (length nodes.now) asserted.old [] }
    requires no_denied { AreMarks (length nodes.now) denied.old [] }
    requires no_inner { AreMarks (length nodes.now) inner.old [] }
    ensures { AreNodeMarks (length nodes.now) asserted.new denied.new inner.new (shown nodes.now) roots.now }
{
    mark_all(asserted, roots);
    let mut left = nodes.len();
    while left > 0 {
        left -= 1;
        let node = &nodes[left];
        spread(asserted, denied, node, left);
        let members = needed_members(node, asserted[left], denied[left], inner[left]);
        mark_compounds(inner, nodes, members);
    }
}

/// The asserted, the denied and the inner nodes, where these are the roots.
pub fn node_marks(alloc: Global, nodes: &[Node], roots: &[u32]) -> Result<NodeMarks, AllocError>
    requires table { (points : ℕ) × IsTableOver points (shown nodes.now) }
    ensures { IfOk result (λ marks. AreNodeMarks (length nodes.now)
        marks.polarity.asserted.items marks.polarity.denied.items marks.inner.items (shown nodes.now)
        roots.now) }
{
    let mut asserted = no_marks(alloc, nodes.len())?;
    let mut denied = no_marks(alloc, nodes.len())?;
    let mut inner = no_marks(alloc, nodes.len())?;
    mark_nodes(&mut asserted, &mut denied, &mut inner, nodes, roots);
    Ok(NodeMarks {
        polarity: PolarityMarks { asserted, denied },
        inner,
    })
}
