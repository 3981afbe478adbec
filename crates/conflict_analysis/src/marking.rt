//! Which literals of the trail a conflict rests on.
ghost use Rattle.std.specs.Prelude.{◌≡◌, ◌≢◌, ◌<◌, ◌≤◌, ◌⊎◌, ◌↔◌, ℕ, length, true, IfOk, IfSome, IfNone, OnOk};
ghost use Rattle.stn_core.specs.Literal.{negation_of, literal_at};
ghost use Rattle.conflict_analysis.specs.code.Trails.{Stands, StandsUsed, IsMarkedMore, IsGrounded, IsClosed, on_trail};
ghost use Rattle.conflict_analysis.specs.code.Trails.{role_at, IsUsed, IsConflict, IsTurned, IsMarked, IsStatedAt};
ghost use Rattle.conflict_analysis.specs.code.Places.{AreWaiting, KeepsWaiting, ArePassed};

use crate::entry::{Conflict, Entry, Level, Reason, Role, Source};
use crate::graph::ImplicationGraph;
use crate::places::Places;
use crate::reading::{denial_guess, is_same, literal_place, numbers_of};
use crate::redundancy::Redundancy;
use refute_tree::Earlier;
use search_guide::Guide;
use std::alloc::AllocError;
use stn_core::{Literal, negate};

/// The roles of the trail's literals, and what the way back over them keeps in mind.
#[derive(Drop)]
pub struct Marks {
    pub roles: Vec<Role>,
    /// the places of the used literals that weren't passed
    pub waiting: Places,
    /// those of the others, from the last on
    pub passed: Vec<usize>,
    /// from which place on all kept literals but one are resolved
    pub start: usize,
    /// how many are kept from there on and weren't passed
    pub open: usize,
    /// below which place the root's literals stand, which are all resolved
    pub root: usize,
    /// which of the kept literals follow from others
    pub redundancy: Redundancy,
}

// A place below another one at which the literal stands, if there is one: the last one, or the one that was guessed, or
// else the first.
fn place_of<E: Earlier>(
    graph: &ImplicationGraph<'_, E>,
    literal: Literal,
    below: usize,
    guess: Option<usize>,
) -> Option<usize>
    requires within { below ≤ length graph.now.trail }
    ensures below { IfSome result (λ k. k < below) }
    ensures is { IfSome result (λ k. on_trail graph.now.trail k ≡ literal) }
    ensures none { IfNone result ((j : ℕ) → j < below → on_trail graph.now.trail j ≢ literal) }
{
    let last = below.wrapping_sub(1);
    if last < below && is_same(graph.literal(last), literal) {
        return Some(last);
    }
    if let Some(k) = guess {
        if k < below && is_same(graph.literal(k), literal) {
            return Some(k);
        }
    }
    for k in 0..below {
        if is_same(graph.literal(k), literal) {
            return Some(k);
        }
    }
    None
}

// The conflict rests on the literal, if it stands below the place. Whether it does.
fn need<E: Earlier>(
    graph: &ImplicationGraph<'_, E>,
    marks: &mut Marks,
    literal: Literal,
    below: usize,
    guess: Option<usize>,
) -> Result<bool, AllocError>
    requires count { length graph.now.trail ≤ length marks.old.roles.items }
    requires within { below ≤ length graph.now.trail }
    ensures more { OnOk result (IsMarkedMore below marks.old.roles.items marks.new.roles.items) }
    ensures waiting { OnOk result (KeepsWaiting marks.old.roles.items marks.old.waiting
        marks.new.roles.items marks.new.waiting) }
    ensures passed { OnOk result (marks.new.passed.items ≡ marks.old.passed.items) }
    ensures used { IfOk result (λ stands. stands ≡ true → StandsUsed graph.now.trail marks.new.roles.items below literal) }
    ensures stands { IfOk result (λ stands. Stands graph.now.trail below literal → stands ≡ true) }
{
    let Some(k) = place_of(graph, literal, below, guess) else {
        return Ok(false);
    };
    if let Role::Unused = marks.roles[k] {
        marks.waiting.push(k)?;
        marks.roles[k] = Role::Kept;
        if marks.start <= k {
            marks.open = marks.open.saturating_add(1);
        }
    }
    Ok(true)
}

// It rests on the negations of the clause's literals but the one at the place, as far as they stand below another place. Whether
// all do.
fn need_denials<E: Earlier>(
    graph: &ImplicationGraph<'_, E>,
    marks: &mut Marks,
    guide: &Guide,
    source: Source,
    clause: &[Literal],
    place: usize,
    below: usize,
) -> Result<bool, AllocError>
    requires count { length graph.now.trail ≤ length marks.old.roles.items }
    requires within { below ≤ length graph.now.trail }
    ensures more { OnOk result (IsMarkedMore below marks.old.roles.items marks.new.roles.items) }
    ensures waiting { OnOk result (KeepsWaiting marks.old.roles.items marks.old.waiting
        marks.new.roles.items marks.new.waiting) }
    ensures passed { OnOk result (marks.new.passed.items ≡ marks.old.passed.items) }
    ensures used { IfOk result (λ stand. stand ≡ true → (q : ℕ) → q < length clause.now → q ≢ place
        → StandsUsed graph.now.trail marks.new.roles.items below (negation_of (literal_at clause.now q))) }
    ensures stand { IfOk result (λ stand. ((q : ℕ) → q < length clause.now → q ≢ place
        → Stands graph.now.trail below (negation_of (literal_at clause.now q))) → stand ≡ true) }
{
    let numbers = numbers_of(guide, source);
    for q in 0..clause.len() {
        if q != place {
            let guess = denial_guess(guide, numbers, q, clause[q]);
            let stands = need(graph, marks, negate(clause[q]), below, guess)?;
            if !stands {
                return Ok(false);
            }
        }
    }
    Ok(true)
}

// It rests on the cycle's literals but the negation of this one.
fn need_cycle<E: Earlier>(
    graph: &ImplicationGraph<'_, E>,
    marks: &mut Marks,
    guide: &Guide,
    cycle: &[Literal],
    literal: Literal,
    below: usize,
) -> Result<(), AllocError>
    requires count { length graph.now.trail ≤ length marks.old.roles.items }
    requires within { below ≤ length graph.now.trail }
    requires stand { (q : ℕ) → q < length cycle.now
        → (literal_at cycle.now q ≡ negation_of literal) ⊎ Stands graph.now.trail below (literal_at cycle.now q) }
    ensures more { OnOk result (IsMarkedMore below marks.old.roles.items marks.new.roles.items) }
    ensures waiting { OnOk result (KeepsWaiting marks.old.roles.items marks.old.waiting
        marks.new.roles.items marks.new.waiting) }
    ensures passed { OnOk result (marks.new.passed.items ≡ marks.old.passed.items) }
    ensures used { OnOk result ((q : ℕ) → q < length cycle.now
        → (literal_at cycle.now q ≡ negation_of literal)
        ⊎ StandsUsed graph.now.trail marks.new.roles.items below (literal_at cycle.now q)) }
{
    let denied = negate(literal);
    for q in 0..cycle.len() {
        if !is_same(cycle[q], denied) {
            let guess = literal_place(guide, cycle[q]);
            need(graph, marks, cycle[q], below, guess)?;
        }
    }
    Ok(())
}

// It rests on all of the cycle's literals.
fn need_all<E: Earlier>(
    graph: &ImplicationGraph<'_, E>,
    marks: &mut Marks,
    guide: &Guide,
    cycle: &[Literal],
    below: usize,
) -> Result<(), AllocError>
    requires count { length graph.now.trail ≤ length marks.old.roles.items }
    requires within { below ≤ length graph.now.trail }
    requires stand { (q : ℕ) → q < length cycle.now → Stands graph.now.trail below (literal_at cycle.now q) }
    ensures more { OnOk result (IsMarkedMore below marks.old.roles.items marks.new.roles.items) }
    ensures waiting { OnOk result (KeepsWaiting marks.old.roles.items marks.old.waiting
        marks.new.roles.items marks.new.waiting) }
    ensures passed { OnOk result (marks.new.passed.items ≡ marks.old.passed.items) }
    ensures used { OnOk result ((q : ℕ) → q < length cycle.now
        → StandsUsed graph.now.trail marks.new.roles.items below (literal_at cycle.now q)) }
{
    for q in 0..cycle.len() {
        let guess = literal_place(guide, cycle[q]);
        need(graph, marks, cycle[q], below, guess)?;
    }
    Ok(())
}

/// The literals on which a conflict rests at once.
pub fn need_conflict<E: Earlier>(
    graph: &ImplicationGraph<'_, E>,
    marks: &mut Marks,
    guide: &Guide,
    conflict: &Conflict,
) -> Result<(), AllocError>
    requires count { length graph.now.trail ≤ length marks.old.roles.items }
    requires conflict { IsConflict graph.now.inputs graph.now.lemmas
        (Stands graph.now.trail (length graph.now.trail)) conflict.now }
    ensures more { OnOk result (IsMarkedMore (length graph.now.trail) marks.old.roles.items marks.new.roles.items) }
    ensures waiting { OnOk result (KeepsWaiting marks.old.roles.items marks.old.waiting
        marks.new.roles.items marks.new.waiting) }
    ensures passed { OnOk result (marks.new.passed.items ≡ marks.old.passed.items) }
    ensures used { OnOk result (IsConflict graph.now.inputs graph.now.lemmas
        (StandsUsed graph.now.trail marks.new.roles.items (length graph.now.trail)) conflict.now) }
{
    let below = graph.count();
    match conflict {
        Conflict::Clause(source) => {
            let clause = graph.clause(*source);
            need_denials(graph, marks, guide, *source, clause, clause.len(), below)?;
        }
        Conflict::Cycle(cycle) => need_all(graph, marks, guide, cycle.as_slice(), below)?,
    }
    Ok(())
}

// Whether the literal at the place k of the trail stands at this place of the clause.
fn is_stated<E: Earlier>(
    graph: &ImplicationGraph<'_, E>,
    source: Source,
    place: usize,
    k: usize,
) -> bool
    requires within { k < length graph.now.trail }
    ensures { result ≡ true ↔ IsStatedAt graph.now.inputs graph.now.lemmas (on_trail graph.now.trail k) source place }
{
    if !graph.is_known(source) {
        return false;
    }
    let clause = graph.clause(source);
    place < clause.len() && is_same(clause[place], graph.literal(k))
}

// Instead of the literal at the place the conflict rests on what that follows from, if it does: whether it follows from a clause is
// tested here.
fn resolve<E: Earlier>(
    graph: &ImplicationGraph<'_, E>,
    marks: &mut Marks,
    guide: &Guide,
    k: usize,
    whole: bool,
) -> Result<(), AllocError>
    requires count { length graph.now.trail ≤ length marks.old.roles.items }
    requires within { k < length graph.now.trail }
    requires trail { IsGrounded graph.now }
    requires closed { IsClosed graph.now.inputs graph.now.lemmas graph.now.trail marks.old.roles.items }
    requires used { IsUsed (role_at marks.old.roles.items k) }
    ensures turned { OnOk result (IsTurned graph.now.inputs graph.now.lemmas graph.now.trail whole k
        marks.old.roles.items marks.new.roles.items) }
    ensures waiting { OnOk result (KeepsWaiting marks.old.roles.items marks.old.waiting
        marks.new.roles.items marks.new.waiting) }
    ensures passed { OnOk result (marks.new.passed.items ≡ marks.old.passed.items) }
{
    match graph.reason(k) {
        Reason::Given => {}
        Reason::Decision => {}
        Reason::Clause(source, place) => {
            if is_stated(graph, *source, *place, k) {
                let clause = graph.clause(*source);
                let follows = need_denials(graph, marks, guide, *source, clause, *place, k)?;
                if follows {
                    marks.roles[k] = Role::Resolved;
                }
            }
        }
        Reason::Pair(tighter) => {
            let literal = graph.literal(k);
            let cycle = [*tighter, negate(literal)];
            need_cycle(graph, marks, guide, cycle.as_slice(), literal, k)?;
            marks.roles[k] = Role::Resolved;
        }
        Reason::Cycle(cycle) => {
            need_cycle(graph, marks, guide, cycle.as_slice(), graph.literal(k), k)?;
            marks.roles[k] = Role::Resolved;
        }
    }
    Ok(())
}

// Where the level of the literal at the place begins.
fn level_start(levels: &[Level], k: usize) -> usize {
    for level in levels.iter().rev() {
        if level.start <= k {
            return level.start;
        }
    }
    0
}

// The way back starts with the literal at the place, the last that the conflict rests on: what stands on its
// level.
fn begin_at(marks: &mut Marks, levels: &[Level], k: usize)
    ensures roles { marks.new.roles.items ≡ marks.old.roles.items }
    ensures waiting { marks.new.waiting ≡ marks.old.waiting }
    ensures passed { marks.new.passed.items ≡ marks.old.passed.items }
{
    marks.start = level_start(levels, k);
    marks.open = marks.waiting.count_from(marks.start).saturating_add(1);
}

// Whether the literal at the place, which stands below the last level, can be resolved without a literal more
// in the learned clause. Any body is right.
fn is_redundant(
    trail: &[Entry],
    marks: &mut Marks,
    guide: &Guide,
    k: usize,
) -> Result<bool, AllocError>
    ensures roles { marks.new.roles.items ≡ marks.old.roles.items }
    ensures waiting { marks.new.waiting ≡ marks.old.waiting }
    ensures passed { marks.new.passed.items ≡ marks.old.passed.items }
{
    if marks.redundancy.has_no_level() {
        for place in marks.waiting.as_slice() {
            if let Some(entry) = trail.get(*place) {
                marks.redundancy.add_level(guide, entry);
            }
        }
        if let Some(entry) = trail.get(k) {
            marks.redundancy.add_level(guide, entry);
        }
    }
    marks
        .redundancy
        .is_redundant(trail, &marks.roles, marks.root, guide, k)
}

// Whether to resolve a literal that the conflict rests on. Any body is right.
//
// The first unique implication point: of the literals on the last level all but one are resolved. So are the
// root's, which need no place in the clause, and those that follow from others.
fn is_to_resolve(
    trail: &[Entry],
    levels: &[Level],
    marks: &mut Marks,
    guide: &Guide,
    k: usize,
) -> Result<bool, AllocError>
    ensures roles { marks.new.roles.items ≡ marks.old.roles.items }
    ensures waiting { marks.new.waiting ≡ marks.old.waiting }
    ensures passed { marks.new.passed.items ≡ marks.old.passed.items }
{
    if marks.passed.is_empty() {
        begin_at(marks, levels, k);
    }
    if marks.start <= k {
        let others = marks.open > 1;
        marks.open = marks.open.saturating_sub(1);
        return Ok(others);
    }
    if k < marks.root {
        return Ok(true);
    }
    is_redundant(trail, marks, guide, k)
}

// A turn of the way back over the trail.
fn turn<E: Earlier>(
    graph: &ImplicationGraph<'_, E>,
    levels: &[Level],
    marks: &mut Marks,
    guide: &Guide,
    k: usize,
    whole: bool,
) -> Result<(), AllocError>
    requires count { length graph.now.trail ≤ length marks.old.roles.items }
    requires within { k < length graph.now.trail }
    requires trail { IsGrounded graph.now }
    requires closed { IsClosed graph.now.inputs graph.now.lemmas graph.now.trail marks.old.roles.items }
    ensures turned { OnOk result (IsTurned graph.now.inputs graph.now.lemmas graph.now.trail whole k
        marks.old.roles.items marks.new.roles.items) }
    ensures waiting { OnOk result (KeepsWaiting marks.old.roles.items marks.old.waiting
        marks.new.roles.items marks.new.waiting) }
    ensures passed { OnOk result (marks.new.passed.items ≡ marks.old.passed.items) }
{
    if let Role::Kept = marks.roles[k] {
        let resolves = is_to_resolve(graph.trail(), levels, marks, guide, k)?;
        if whole || resolves {
            resolve(graph, marks, guide, k, whole)?;
        }
    }
    Ok(())
}

/// Goes back over the places on which the conflict rests.
pub fn mark_back<E: Earlier>(
    graph: &ImplicationGraph<'_, E>,
    levels: &[Level],
    marks: &mut Marks,
    guide: &Guide,
    whole: bool,
) -> Result<(), AllocError>
    requires count { length graph.now.trail ≤ length marks.old.roles.items }
    requires trail { IsGrounded graph.now }
    requires closed { IsClosed graph.now.inputs graph.now.lemmas graph.now.trail marks.old.roles.items }
    requires waiting { AreWaiting (length graph.now.trail) marks.old.roles.items marks.old.waiting }
    requires passed { ArePassed (length graph.now.trail) (length graph.now.trail) marks.old.roles.items
        marks.old.passed.items }
    ensures marked { OnOk result (IsMarked graph.now.inputs graph.now.lemmas graph.now.trail whole 0
        marks.old.roles.items marks.new.roles.items) }
    ensures passed { OnOk result (ArePassed 0 (length graph.now.trail) marks.new.roles.items
        marks.new.passed.items) }
{
    let mut low = graph.count();
    'back: while let Some(k) = marks.waiting.next_below(low) {
        low = k;
        turn(graph, levels, marks, guide, k, whole)?;
        marks.passed.push(k)?;
    }
    Ok(())
}
