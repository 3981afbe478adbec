//! The steps that a conflict gives, front to back.
ghost use Rattle.std.specs.Prelude.{◌≡◌, ◌<◌, ◌≤◌, ◌+◌, ◌∷◌, ◌++◌, [], ℕ, length, false, true, OnOk, IfOk};
ghost use Rattle.stn_core.specs.Literal.{negation_of, literal_at};
ghost use Rattle.conflict_analysis.specs.code.Trails.{entry_at, on_trail};
ghost use Rattle.conflict_analysis.specs.code.Trails.{IsClosed, StandsUsed, IsUsedConflict, FollowsUsed};
ghost use Rattle.conflict_analysis.specs.code.Places.{ArePassed};
ghost use Rattle.conflict_analysis.specs.code.Leaves.{at_leaves, AreLeaves, StandsAssumed, IsAssumedConflict};
ghost use Rattle.conflict_analysis.specs.code.Leaves.{IsChosen, IsOutline};
ghost use Rattle.conflict_analysis.specs.declared.entry.Conflict.TheVariants.{Clause as OfClause};
ghost use Rattle.conflict_analysis.specs.code.Spines.{step_of, Grows, Assumes, IsShut, AreShut, ClosesAll, Refutes};
ghost use Rattle.conflict_analysis.specs.code.Spines.{IsOpen, IsOpening, IsClosing, IsOpeningAt, IsClosingAt};

use crate::entry::{Conflict, Reason, Role, Source};
use crate::graph::ImplicationGraph;
use crate::leaves::used_place;
use crate::reading::{denial_guess, numbers_of};
use refute_tree::{Earlier, Steps};
use search_guide::Guide;
use std::alloc::{AllocError, Global};
use stn_core::{Literal, negate};

/// What becomes of the trail's literals: their roles, which of them stand at leaves alone, and the guide, which knows
/// where they stand.
#[derive(Drop)]
pub struct Outline<'a> {
    pub roles: &'a [Role],
    pub leaves: &'a [bool],
    pub guide: &'a Guide,
}

fn push_step_of(source: Source, steps: &mut Steps) -> Result<(), AllocError>
    ensures { OnOk result (steps.new ≡ steps.old ++ step_of source ∷ []) }
{
    match source {
        Source::Input(i) => steps.push_input(i),
        Source::Lemma(j) => steps.push_lemma(j),
    }
}

// The clause of the problem that a literal at leaves follows from.
fn push_clash_of<E: Earlier>(
    graph: &ImplicationGraph<'_, E>,
    outline: &Outline<'_>,
    literal: Literal,
    below: usize,
    k: usize,
    steps: &mut Steps,
) -> Result<(), AllocError>
    requires k { k < length graph.now.trail }
    requires before { k < below }
    requires denied { on_trail graph.now.trail k ≡ negation_of literal }
    requires leaf { at_leaves outline.now.leaves.now k ≡ true }
    requires leaves { AreLeaves graph.now.inputs graph.now.lemmas graph.now.trail outline.now.roles.now
        outline.now.leaves.now }
    ensures { OnOk result (Grows steps.old steps.new (IsShut graph.now.inputs graph.now.lemmas
        (Assumes graph.now.trail outline.now.roles.now outline.now.leaves.now below) literal)) }
{
    match graph.reason(k) {
        Reason::Clause(source, _) => match *source {
            Source::Input(i) => steps.push_clash(i),
            Source::Lemma(_) => unreachable!(),
        },
        Reason::Given => unreachable!(),
        Reason::Decision => unreachable!(),
        Reason::Pair(_) => unreachable!(),
        Reason::Cycle(_) => unreachable!(),
    }
}

// A leaf for the case in which the literal is assumed, whose negation is used.
fn push_leaf<E: Earlier>(
    graph: &ImplicationGraph<'_, E>,
    outline: &Outline<'_>,
    literal: Literal,
    below: usize,
    guess: Option<usize>,
    steps: &mut Steps,
) -> Result<(), AllocError>
    requires outline { IsOutline graph.now outline.now.roles.now outline.now.leaves.now }
    requires within { below ≤ length graph.now.trail }
    requires used { StandsUsed graph.now.trail outline.now.roles.now below (negation_of literal) }
    ensures { OnOk result (Grows steps.old steps.new (IsShut graph.now.inputs graph.now.lemmas
        (Assumes graph.now.trail outline.now.roles.now outline.now.leaves.now below) literal)) }
{
    let k = used_place(graph, outline.roles, negate(literal), below, guess);
    if outline.leaves[k] {
        push_clash_of(graph, outline, literal, below, k, steps)
    } else {
        steps.push_pair(literal)
    }
}

// Leaves for the cases of the clause's literals from one place up to another.
fn push_leaves<E: Earlier>(
    graph: &ImplicationGraph<'_, E>,
    outline: &Outline<'_>,
    source: Source,
    clause: &[Literal],
    low: usize,
    high: usize,
    below: usize,
    steps: &mut Steps,
) -> Result<(), AllocError>
    requires outline { IsOutline graph.now outline.now.roles.now outline.now.leaves.now }
    requires within { below ≤ length graph.now.trail }
    requires order { low ≤ high }
    requires end { high ≤ length clause.now }
    requires used { (q : ℕ) → low ≤ q → q < high
        → StandsUsed graph.now.trail outline.now.roles.now below (negation_of (literal_at clause.now q)) }
    ensures { OnOk result (Grows steps.old steps.new (AreShut graph.now.inputs graph.now.lemmas
        (Assumes graph.now.trail outline.now.roles.now outline.now.leaves.now below) clause.now low high)) }
{
    let numbers = numbers_of(outline.guide, source);
    for q in low..high {
        let guess = denial_guess(outline.guide, numbers, q, clause[q]);
        push_leaf(graph, outline, clause[q], below, guess, steps)?;
    }
    Ok(())
}

// Opens the case in which the literal at the place is assumed.
fn push_opening<E: Earlier>(
    graph: &ImplicationGraph<'_, E>,
    outline: &Outline<'_>,
    k: usize,
    steps: &mut Steps,
) -> Result<(), AllocError>
    requires outline { IsOutline graph.now outline.now.roles.now outline.now.leaves.now }
    requires within { k < length graph.now.trail }
    requires follows { FollowsUsed graph.now outline.now.roles.now k }
    ensures { OnOk result (Grows steps.old steps.new (IsOpening graph.now.inputs graph.now.lemmas
        (Assumes graph.now.trail outline.now.roles.now outline.now.leaves.now k) (on_trail graph.now.trail k)
        (entry_at graph.now.trail k).reason)) }
{
    match graph.reason(k) {
        Reason::Given => Ok(()),
        Reason::Decision => Ok(()),
        Reason::Clause(source, place) => {
            let clause = graph.clause(*source);
            push_step_of(*source, steps)?;
            push_leaves(graph, outline, *source, clause, 0, *place, k, steps)?;
            Ok(())
        }
        Reason::Pair(_) => {
            steps.push_either(graph.literal(k))?;
            Ok(())
        }
        Reason::Cycle(_) => {
            steps.push_either(graph.literal(k))?;
            Ok(())
        }
    }
}

// Closes the other cases.
fn push_closing<E: Earlier>(
    graph: &ImplicationGraph<'_, E>,
    outline: &Outline<'_>,
    k: usize,
    steps: &mut Steps,
) -> Result<(), AllocError>
    requires outline { IsOutline graph.now outline.now.roles.now outline.now.leaves.now }
    requires within { k < length graph.now.trail }
    requires follows { FollowsUsed graph.now outline.now.roles.now k }
    ensures { OnOk result (Grows steps.old steps.new (IsClosing graph.now.inputs graph.now.lemmas
        (Assumes graph.now.trail outline.now.roles.now outline.now.leaves.now k) (on_trail graph.now.trail k)
        (entry_at graph.now.trail k).reason)) }
{
    match graph.reason(k) {
        Reason::Given => Ok(()),
        Reason::Decision => Ok(()),
        Reason::Clause(source, place) => {
            let clause = graph.clause(*source);
            let next = *place + 1;
            let count = clause.len();
            push_leaves(graph, outline, *source, clause, next, count, k, steps)?;
            Ok(())
        }
        Reason::Pair(tighter) => {
            let cycle = [*tighter, negate(graph.literal(k))];
            steps.push_cycle(cycle.as_slice())?;
            Ok(())
        }
        Reason::Cycle(cycle) => {
            steps.push_cycle(cycle.as_slice())?;
            Ok(())
        }
    }
}

// Whether no literal of the clause is denied by one that stands at leaves.
fn is_clash<E: Earlier>(
    graph: &ImplicationGraph<'_, E>,
    outline: &Outline<'_>,
    source: Source,
    clause: &[Literal],
) -> bool
    requires roles { length graph.now.trail ≤ length outline.now.roles.now }
    requires count { length graph.now.trail ≤ length outline.now.leaves.now }
    requires used { (q : ℕ) → q < length clause.now
        → StandsUsed graph.now.trail outline.now.roles.now (length graph.now.trail)
        (negation_of (literal_at clause.now q)) }
    ensures { result ≡ true → (q : ℕ) → q < length clause.now
        → StandsAssumed graph.now.trail outline.now.roles.now outline.now.leaves.now (length graph.now.trail)
        (negation_of (literal_at clause.now q)) }
{
    let below = graph.count();
    let numbers = numbers_of(outline.guide, source);
    for q in 0..clause.len() {
        let guess = denial_guess(outline.guide, numbers, q, clause[q]);
        let k = used_place(graph, outline.roles, negate(clause[q]), below, guess);
        if outline.leaves[k] {
            return false;
        }
    }
    true
}

// The cases of a clause all of whose literals are denied, each with its leaf.
fn push_cases<E: Earlier>(
    graph: &ImplicationGraph<'_, E>,
    outline: &Outline<'_>,
    source: Source,
    steps: &mut Steps,
) -> Result<(), AllocError>
    requires outline { IsOutline graph.now outline.now.roles.now outline.now.leaves.now }
    requires conflict { IsUsedConflict graph.now outline.now.roles.now (OfClause source) }
    ensures { OnOk result (Grows steps.old steps.new
        (ClosesAll graph.now outline.now.roles.now outline.now.leaves.now)) }
{
    let clause = graph.clause(source);
    let count = clause.len();
    let below = graph.count();
    push_step_of(source, steps)?;
    push_leaves(graph, outline, source, clause, 0, count, below, steps)?;
    Ok(())
}

// A clause all of whose literals are denied: as a clash, if it is one of the problem and all denials are
// assumed.
fn push_denied<E: Earlier>(
    graph: &ImplicationGraph<'_, E>,
    outline: &Outline<'_>,
    source: Source,
    steps: &mut Steps,
) -> Result<(), AllocError>
    requires outline { IsOutline graph.now outline.now.roles.now outline.now.leaves.now }
    requires conflict { IsUsedConflict graph.now outline.now.roles.now (OfClause source) }
    ensures { OnOk result (Grows steps.old steps.new
        (ClosesAll graph.now outline.now.roles.now outline.now.leaves.now)) }
{
    match source {
        Source::Lemma(_) => {}
        Source::Input(i) => {
            let clause = graph.clause(source);
            if is_clash(graph, outline, source, clause) {
                steps.push_clash(i)?;
                return Ok(());
            }
        }
    }
    push_cases(graph, outline, source, steps)?;
    Ok(())
}

// The conflict as a tree.
fn push_conflict<E: Earlier>(
    graph: &ImplicationGraph<'_, E>,
    outline: &Outline<'_>,
    conflict: &Conflict,
    steps: &mut Steps,
) -> Result<(), AllocError>
    requires outline { IsOutline graph.now outline.now.roles.now outline.now.leaves.now }
    requires conflict { IsUsedConflict graph.now outline.now.roles.now conflict.now }
    requires assumed { IsAssumedConflict graph.now.trail outline.now.roles.now outline.now.leaves.now conflict.now }
    ensures { OnOk result (Grows steps.old steps.new
        (ClosesAll graph.now outline.now.roles.now outline.now.leaves.now)) }
{
    match conflict {
        Conflict::Clause(source) => {
            push_denied(graph, outline, *source, steps)?;
            Ok(())
        }
        Conflict::Cycle(cycle) => {
            steps.push_cycle(cycle.as_slice())?;
            Ok(())
        }
    }
}

fn is_open(outline: &Outline<'_>, k: usize) -> bool
    requires roles { k < length outline.now.roles.now }
    requires count { k < length outline.now.leaves.now }
    ensures open { result ≡ true → IsOpen outline.now.roles.now outline.now.leaves.now k }
    ensures closed { IsOpen outline.now.roles.now outline.now.leaves.now k → result ≡ true }
{
    match outline.roles[k] {
        Role::Unused => false,
        Role::Kept => false,
        Role::Resolved => !outline.leaves[k],
    }
}

fn push_opening_at<E: Earlier>(
    graph: &ImplicationGraph<'_, E>,
    outline: &Outline<'_>,
    k: usize,
    steps: &mut Steps,
) -> Result<(), AllocError>
    requires outline { IsOutline graph.now outline.now.roles.now outline.now.leaves.now }
    requires within { k < length graph.now.trail }
    requires closed { IsClosed graph.now.inputs graph.now.lemmas graph.now.trail outline.now.roles.now }
    ensures { OnOk result (Grows steps.old steps.new (IsOpeningAt graph.now.inputs graph.now.lemmas
        graph.now.trail outline.now.roles.now outline.now.leaves.now k)) }
{
    if is_open(outline, k) {
        push_opening(graph, outline, k, steps)?;
    }
    Ok(())
}

fn push_closing_at<E: Earlier>(
    graph: &ImplicationGraph<'_, E>,
    outline: &Outline<'_>,
    k: usize,
    steps: &mut Steps,
) -> Result<(), AllocError>
    requires outline { IsOutline graph.now outline.now.roles.now outline.now.leaves.now }
    requires within { k < length graph.now.trail }
    requires closed { IsClosed graph.now.inputs graph.now.lemmas graph.now.trail outline.now.roles.now }
    ensures { OnOk result (Grows steps.old steps.new (IsClosingAt graph.now.inputs graph.now.lemmas
        graph.now.trail outline.now.roles.now outline.now.leaves.now k)) }
{
    if is_open(outline, k) {
        push_closing(graph, outline, k, steps)?;
    }
    Ok(())
}

/// The steps, for the roles that the trail's literals have, of which these are used, the last one first, and
/// some stand at leaves alone. They are made in the memory of others, and then copied to some of their size.
pub fn steps_for<E: Earlier>(
    alloc: Global,
    graph: &ImplicationGraph<'_, E>,
    outline: &Outline<'_>,
    passed: &[usize],
    conflict: &Conflict,
    steps: &mut Steps,
) -> Result<Steps, AllocError>
    requires roles { length graph.now.trail ≤ length outline.now.roles.now }
    requires passed { ArePassed 0 (length graph.now.trail) outline.now.roles.now passed.now }
    requires closed { IsClosed graph.now.inputs graph.now.lemmas graph.now.trail outline.now.roles.now }
    requires chosen { IsChosen graph.now.inputs graph.now.lemmas graph.now.trail outline.now.roles.now passed.now
        0 outline.now.leaves.now }
    requires conflict { IsUsedConflict graph.now outline.now.roles.now conflict.now }
    requires assumed { IsAssumedConflict graph.now.trail outline.now.roles.now outline.now.leaves.now conflict.now }
    ensures { IfOk result (Refutes graph.now.inputs graph.now.lemmas graph.now.trail outline.now.roles.now) }
{
    steps.clear();
    let mut left = passed.len();
    'forth: while 0 < left {
        left -= 1;
        let k = passed[left];
        push_opening_at(graph, outline, k, steps)?;
    }
    push_conflict(graph, outline, conflict, steps)?;
    'back: for i in 0..passed.len() {
        let k = passed[i];
        push_closing_at(graph, outline, k, steps)?;
    }
    let copy = steps.copy(alloc)?;
    Ok(copy)
}
