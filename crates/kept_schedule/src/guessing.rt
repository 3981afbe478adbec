//! Truths by the values that are tried, as hints.
use crate::naming::value_at;
use idl_node::Node;
use stn_core::Literal;

/// How many of the newest roots are looked at before all nodes are.
const NEWEST: usize = 64;

fn literal_holds(values: &[i64], literal: Literal) -> bool {
    let x = value_at(values, literal.x as usize);
    let y = value_at(values, literal.y as usize);
    x.saturating_sub(y) <= literal.c
}

/// Whether the node is an atom that doesn't hold.
fn atom_fails(nodes: &[Node], number: u32, values: &[i64]) -> bool {
    match nodes.get(number as usize) {
        Some(Node::Atom(literal)) => !literal_holds(values, *literal),
        _ => false,
    }
}

fn one_fails(nodes: &[Node], members: &[u32], values: &[i64]) -> bool {
    for member in members {
        if atom_fails(nodes, *member, values) {
            return true;
        }
    }
    false
}

fn all_fail(nodes: &[Node], members: &[u32], values: &[i64]) -> bool {
    for member in members {
        if !atom_fails(nodes, *member, values) {
            return false;
        }
    }
    true
}

/// Whether a look at the node and its members shows that it is false.
pub fn root_fails(nodes: &[Node], number: u32, values: &[i64]) -> bool {
    match nodes.get(number as usize) {
        Some(Node::Atom(literal)) => !literal_holds(values, *literal),
        Some(Node::And(members)) => one_fails(nodes, members, values),
        Some(Node::Or(members)) => all_fail(nodes, members, values),
        _ => false,
    }
}

/// Some of the newest roots.
pub fn newest(roots: &[u32]) -> &[u32] {
    let first = roots.len().saturating_sub(NEWEST);
    &roots[first..]
}

/// Whether a look at some of the newest roots shows one that is false.
pub fn newest_fail(nodes: &[Node], roots: &[u32], values: &[i64]) -> bool {
    for root in newest(roots) {
        if root_fails(nodes, *root, values) {
            return true;
        }
    }
    false
}

fn mark_at(marks: &[bool], number: u32) -> bool {
    marks.get(number as usize).copied().unwrap_or(false)
}

fn all_marked(marks: &[bool], members: &[u32]) -> bool {
    for member in members {
        if !mark_at(marks, *member) {
            return false;
        }
    }
    true
}

fn one_marked(marks: &[bool], members: &[u32]) -> bool {
    for member in members {
        if mark_at(marks, *member) {
            return true;
        }
    }
    false
}

/// The truth of a node by the marks of those before it.
fn node_guess(node: &Node, values: &[i64], marks: &[bool]) -> bool {
    match node {
        Node::True => true,
        Node::Atom(literal) => literal_holds(values, *literal),
        Node::Not(member) => !mark_at(marks, *member),
        Node::And(members) => all_marked(marks, members),
        Node::Or(members) => one_marked(marks, members),
    }
}

/// Marks what each node is on the values.
pub fn guess(nodes: &[Node], values: &[i64], marks: &mut [bool]) {
    for (k, node) in nodes.iter().enumerate() {
        if k < marks.len() {
            marks[k] = node_guess(node, values, marks);
        }
    }
}
