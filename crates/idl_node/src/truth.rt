//! The truth of a node.
ghost use Rattle.std.specs.Prelude.{◌≡◌, ◌<◌, ◌≤◌, ◌+◌, ℕ, List, length, slice_index_or, false, IfOk, OnOk, OnErr};
ghost use Rattle.std.specs.List.{AllByRecursion, list_all, list_any};
ghost use Rattle.idl_node.specs.Nodes.{NodeValue, node_value};
ghost use Rattle.idl_node.specs.Tables.{IsTableOver, IsNodeOf};
ghost use Rattle.idl_node.specs.Truth.{point_values, literal_truth, node_truth, truth, AreTruths, BeginsWith};
ghost use Rattle.stn_core.specs.Literal.{IsOver, value_at};

use crate::node::Node;
use crate::nodes::Nodes;
use std::alloc::AllocError;
use stn_core::{Literal, NamedValue, NamedValues, Value};

/// The value of a time point: 0 of the zero point, and then each name's. An Int name's is its number; a Bool name's is 0 where
/// the name is true, else 1.
pub fn point_value(values: &[NamedValue], point: u32) -> Value
    requires { point < length values.now + 1 }
    ensures { result ≡ value_at (point_values values.now) point }
{
    if point == 0 {
        return 0;
    }
    match values[point as usize - 1] {
        NamedValue::Int(number) => number,
        NamedValue::Truth(true) => 0,
        NamedValue::Truth(false) => 1,
    }
}

/// Whether the literal holds.
fn literal_holds(literal: Literal, values: &[NamedValue]) -> bool
    requires x { literal.x < length values.now + 1 }
    requires y { literal.y < length values.now + 1 }
    ensures { result ≡ literal_truth (point_values values.now) literal }
{
    let x = point_value(values, literal.x);
    let y = point_value(values, literal.y);
    x.saturating_sub(y) <= Value::from(literal.c)
}

/// Whether all of the members are true.
fn all_hold(members: &[u32], marks: &[bool]) -> bool
    requires { AllByRecursion (λ m. m < length marks.now) members.now }
    ensures { result ≡ list_all (λ j. slice_index_or marks.now j false) members.now }
{
    for member in members {
        if !marks[*member as usize] {
            return false;
        }
    }
    true
}

/// Whether one of the members is true.
fn any_holds(members: &[u32], marks: &[bool]) -> bool
    requires { AllByRecursion (λ m. m < length marks.now) members.now }
    ensures { result ≡ list_any (λ j. slice_index_or marks.now j false) members.now }
{
    for member in members {
        if marks[*member as usize] {
            return true;
        }
    }
    false
}

/// The truth of a node by the marks of the nodes before it.
fn node_holds(node: &Node, values: &NamedValues, marks: &[bool]) -> bool
    requires { (nodes : List NodeValue) × IsNodeOf (IsOver (length values.now + 1)) nodes
        (length marks.now) (node_value node.now) }
    ensures { result ≡ node_truth (point_values values.now) (λ j. slice_index_or marks.now j false)
        (node_value node.now) }
{
    match node {
        Node::True => true,
        Node::Atom(literal) => literal_holds(*literal, values.as_slice()),
        Node::Not(member) => !marks[*member as usize],
        Node::And(members) => all_hold(members, marks),
        Node::Or(members) => any_holds(members, marks),
    }
}

/// Whether the node is true where the names have these values. `marks` is the caller's buffer, as long as the table: it then
/// tells the truth of each node up to this one, so one call gives all of them. It takes time of the order of these nodes and
/// their members, and no memory.
pub fn eval(nodes: &Nodes, number: u32, values: &NamedValues, marks: &mut [bool]) -> bool
    requires table { IsTableOver (length values.now + 1) nodes.now }
    requires number { number < length nodes.now }
    requires room { length marks.old ≡ length nodes.now }
    ensures truth { result ≡ truth nodes.now (point_values values.now) number }
    ensures room { length marks.new ≡ length nodes.now }
    ensures each { (k : ℕ) → k ≤ number → slice_index_or marks.new k false
        ≡ truth nodes.now (point_values values.now) k }
{
    let slice = nodes.as_slice();
    let end = number as usize + 1;
    for i in 0..end {
        let value = node_holds(&slice[i], values, &marks[..i]);
        marks[i] = value;
    }
    marks[number as usize]
}

/// Goes on with the marks of the table's first nodes, up to this node's.
fn mark_up_to(
    nodes: &Nodes,
    number: u32,
    values: &NamedValues,
    marks: &mut Vec<bool>,
) -> Result<(), AllocError>
    requires table { IsTableOver (length values.now + 1) nodes.now }
    requires number { number < length nodes.now }
    requires marks { AreTruths nodes.now (point_values values.now) marks.old.items }
    ensures room { OnOk result (number < length marks.new.items) }
    ensures marks { AreTruths nodes.now (point_values values.now) marks.new.items }
    ensures front { BeginsWith marks.new.items marks.old.items }
{
    let slice = nodes.as_slice();
    let last = number as usize;
    'nodes: while marks.len() <= last {
        let i = marks.len();
        let value = node_holds(&slice[i], values, &marks[..i]);
        marks.push(value)?;
    }
    Ok(())
}

/// Whether the node is true where the names have these values. `marks` tells the truth of the table's first nodes, as many as
/// there are marks, and then, where there were fewer, of all nodes up to this one: so it takes time of the order of the nodes that
/// it tells anew, and their members. Where there is no memory, the marks are as they were.
pub fn eval_on(
    nodes: &Nodes,
    number: u32,
    values: &NamedValues,
    marks: &mut Vec<bool>,
) -> Result<bool, AllocError>
    requires table { IsTableOver (length values.now + 1) nodes.now }
    requires number { number < length nodes.now }
    requires marks { AreTruths nodes.now (point_values values.now) marks.old.items }
    ensures truth { IfOk result (λ holds. holds ≡ truth nodes.now (point_values values.now) number) }
    ensures marks { AreTruths nodes.now (point_values values.now) marks.new.items }
    ensures front { BeginsWith marks.new.items marks.old.items }
    ensures refused { OnErr result (marks.new.items ≡ marks.old.items) }
{
    let before = marks.len();
    if let Err(error) = mark_up_to(nodes, number, values, marks) {
        marks.truncate(before);
        return Err(error);
    }
    Ok(marks[number as usize])
}
