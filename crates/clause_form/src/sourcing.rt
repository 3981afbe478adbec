//! From which root each clause comes.
ghost use Rattle.std.specs.Prelude.{◌≡◌, ◌<◌, ◌++◌, ◌∷◌, [], ℕ, length, nat_eq, None, IfOk, OnOk, slice_index};
ghost use Rattle.idl_node.specs.Nodes.{NodeValue, node_value, shown};
ghost use Rattle.idl_node.specs.Tables.{IsTableOver};
ghost use Rattle.clause_form.specs.code.Marking.{AreMarks, AreNodeMarks};
ghost use Rattle.clause_form.specs.Polarity.{Polarity, is_among, spread, node_at, polarity_of};
ghost use Rattle.clause_form.specs.Sources.{sources_of, asserted_count, denied_count, inner_clause_count, node_sources, sources_below, first_root, asserts, denies, times_when};
ghost use Rattle.clause_form.specs.code.FirstRoots.{AreFirst, AreFirstPolarities, Lowers, alone, number_before};

use crate::form::Marks;
use crate::marks::{NodeMarks, node_marks};
use idl_node::{Node, Nodes};
use std::alloc::{AllocError, Global};

/// For each node the number of the first root that alone asserts it, and of the first that alone denies it, or the count
/// of the roots.
#[derive(Drop)]
struct Firsts {
    asserted: Vec<usize>,
    denied: Vec<usize>,
}

fn lower(firsts: &mut [usize], number: u32, first: usize)
    ensures count { length firsts.new ≡ length firsts.old }
    ensures each { Lowers (λ k. nat_eq k number) first firsts.old firsts.new }
{
    let place = number as usize;
    if place < firsts.len() && first < firsts[place] {
        firsts[place] = first;
    }
}

fn lower_all(firsts: &mut [usize], numbers: &[u32], first: usize)
    ensures count { length firsts.new ≡ length firsts.old }
    ensures each { Lowers (λ k. is_among k numbers.now) first firsts.old firsts.new }
{
    for number in numbers {
        lower(firsts, *number, first);
    }
}

// What one node adds, by each root alone.
fn spread_first(
    asserted: &mut [usize],
    denied: &mut [usize],
    node: &Node,
    number: usize,
    count: usize,
)
    requires in_asserted { number < length asserted.old }
    requires same { length denied.old ≡ length asserted.old }
    ensures { (p : ℕ → Polarity) → AreFirstPolarities (length asserted.old) count asserted.old denied.old p
        → AreFirstPolarities (length asserted.old) count asserted.new denied.new
        (λ r. spread number (node_value node.now) (p r)) }
{
    let by_asserted = asserted[number];
    let by_denied = denied[number];
    match node {
        Node::True | Node::Atom(_) => {}
        Node::Not(member) => {
            lower(denied, *member, by_asserted);
            lower(asserted, *member, by_denied);
        }
        Node::And(members) => lower_all(asserted, members, by_asserted),
        Node::Or(members) => lower_all(denied, members, by_denied),
    }
}

// Each root asserts itself.
fn lower_roots(asserted: &mut [usize], roots: &[u32])
    requires { AreFirst (length asserted.old) (length roots.now) asserted.old (λ r. []) }
    ensures { AreFirst (length asserted.old) (length roots.now) asserted.new (λ r. slice_index roots.now r ∷ []) }
{
    for (r, root) in roots.iter().enumerate() {
        lower(asserted, *root, r);
    }
}

// One pass, from the last node down.
fn spread_all(asserted: &mut [usize], denied: &mut [usize], nodes: &[Node], roots: &[u32])
    requires count { length asserted.old ≡ length nodes.now }
    requires no_asserted { AreFirst (length nodes.now) (length roots.now) asserted.old (λ r. []) }
    requires no_denied { AreFirst (length nodes.now) (length roots.now) denied.old (λ r. []) }
    ensures { AreFirstPolarities (length nodes.now) (length roots.now) asserted.new denied.new
        (alone (shown nodes.now) roots.now) }
{
    lower_roots(asserted, roots);
    let mut left = nodes.len();
    while left > 0 {
        left -= 1;
        spread_first(asserted, denied, &nodes[left], left, roots.len());
    }
}

fn no_firsts(alloc: Global, nodes: usize, count: usize) -> Result<Vec<usize>, AllocError>
    ensures { IfOk result (λ firsts. AreFirst nodes count firsts.items (λ r. [])) }
{
    let firsts = vec![in alloc; count; nodes]?;
    Ok(firsts)
}

fn firsts_of(alloc: Global, nodes: &[Node], roots: &[u32]) -> Result<Firsts, AllocError>
    ensures { IfOk result (λ firsts. AreFirstPolarities (length nodes.now) (length roots.now)
        firsts.asserted.items firsts.denied.items (alone (shown nodes.now) roots.now)) }
{
    let mut asserted = no_firsts(alloc, nodes.len(), roots.len())?;
    let mut denied = no_firsts(alloc, nodes.len(), roots.len())?;
    spread_all(&mut asserted, &mut denied, nodes, roots);
    Ok(Firsts { asserted, denied })
}

fn number_before(count: usize, first: usize) -> Option<usize>
    ensures { result ≡ number_before count first }
{
    if first < count { Some(first) } else { None }
}

// How many clauses the node has where it's asserted.
fn asserted_count(node: &Node) -> usize
    ensures { result ≡ asserted_count (node_value node.now) }
{
    match node {
        Node::True | Node::Atom(_) | Node::Or(_) => 1,
        Node::Not(_) | Node::And(_) => 0,
    }
}

fn denied_count(node: &Node) -> usize
    ensures { result ≡ denied_count (node_value node.now) }
{
    match node {
        Node::True | Node::Atom(_) | Node::And(_) => 1,
        Node::Not(_) | Node::Or(_) => 0,
    }
}

// And where it's inner.
fn inner_clause_count(node: &Node) -> usize
    ensures { result ≡ inner_clause_count (node_value node.now) }
{
    match node {
        Node::And(members) | Node::Or(members) => members.len() + 1,
        Node::True | Node::Atom(_) | Node::Not(_) => 0,
    }
}

// So many times the source, where there is a clause.
fn push_times(
    sources: &mut Vec<Option<usize>>,
    when: bool,
    count: usize,
    source: Option<usize>,
) -> Result<(), AllocError>
    ensures { OnOk result (sources.new.items ≡ sources.old.items ++ times_when when count source) }
{
    if when {
        for _k in 0..count {
            sources.push(source)?;
        }
    }
    Ok(())
}

// The sources of the clauses of a node.
fn push_node(
    sources: &mut Vec<Option<usize>>,
    node: &Node,
    marks: Marks,
    by_asserted: Option<usize>,
    by_denied: Option<usize>,
) -> Result<(), AllocError>
    ensures { OnOk result (sources.new.items ≡ sources.old.items
        ++ (times_when marks.asserted (asserted_count (node_value node.now)) by_asserted
        ++ (times_when marks.denied (denied_count (node_value node.now)) by_denied
        ++ times_when marks.inner (inner_clause_count (node_value node.now)) None))) }
{
    push_times(sources, marks.asserted, asserted_count(node), by_asserted)?;
    push_times(sources, marks.denied, denied_count(node), by_denied)?;
    push_times(sources, marks.inner, inner_clause_count(node), None)
}

fn push_all(
    alloc: Global,
    nodes: &[Node],
    roots: &[u32],
    marks: &NodeMarks,
    firsts: &Firsts,
) -> Result<Vec<Option<usize>>, AllocError>
    requires marks { AreNodeMarks (length nodes.now) marks.now.polarity.asserted.items
        marks.now.polarity.denied.items marks.now.inner.items (shown nodes.now) roots.now }
    requires firsts { AreFirstPolarities (length nodes.now) (length roots.now)
        firsts.now.asserted.items firsts.now.denied.items (alone (shown nodes.now) roots.now) }
    ensures { IfOk result (λ sources. sources.items ≡ sources_of (shown nodes.now) roots.now) }
{
    let mut sources = Vec::new(alloc);
    for number in 0..nodes.len() {
        let is = Marks {
            asserted: marks.polarity.asserted[number],
            denied: marks.polarity.denied[number],
            inner: marks.inner[number],
        };
        let by_asserted = number_before(roots.len(), firsts.asserted[number]);
        let by_denied = number_before(roots.len(), firsts.denied[number]);
        push_node(&mut sources, &nodes[number], is, by_asserted, by_denied)?;
    }
    Ok(sources)
}

/// For each clause of the problem of these roots (`problem_of`), in order, the number of a root: for a clause of an
/// asserted node the first root that alone asserts it, for one of a denied node the first that alone denies it, and none
/// for a clause of an inner node. Where the roots of some clauses are true, so are these clauses, on the values of the
/// points that say of each inner node what it is (`sources_law`).
///
/// It takes time and memory of the order of the table, the members of its nodes and the roots.
pub fn sources(
    alloc: Global,
    nodes: &Nodes,
    roots: &[u32],
) -> Result<Vec<Option<usize>>, AllocError>
    requires table { (points : ℕ) × IsTableOver points nodes.now }
    ensures { IfOk result (λ sources. sources.items ≡ sources_of nodes.now roots.now) }
{
    let table = nodes.as_slice();
    let marks = node_marks(alloc, table, roots)?;
    let firsts = firsts_of(alloc, table, roots)?;
    let sources = push_all(alloc, table, roots, &marks, &firsts)?;
    Ok(sources)
}
