//! From a conflict to a learned clause with its tree.
ghost use Rattle.std.specs.Prelude.{◌≡◌, ◌≤◌, ℕ, [], length, All, IfOk, false};
ghost use Rattle.conflict_analysis.specs.declared.entry.Role.TheVariants.{Unused};
ghost use Rattle.conflict_analysis.specs.code.Trails.{IsGrounded, IsConflict, Stands, IsDenial, AreOver, KeepsAll};
ghost use Rattle.conflict_analysis.specs.code.Trails.{DeniesKept};
ghost use Rattle.conflict_analysis.specs.code.Trails.{role_at};
ghost use Rattle.conflict_analysis.specs.code.Places.{ArePassed};
ghost use Rattle.conflict_analysis.specs.code.Leaves.{at_leaves};
ghost use Rattle.conflict_analysis.specs.Proved.{IsProved};

use crate::citing::is_cited;
use crate::entry::{Conflict, Entry, Level, Reason, Role};
use crate::graph::ImplicationGraph;
use crate::leaves::choose_leaves;
use crate::marking::{Marks, mark_back, need_conflict};
use crate::places::Places;
use crate::reading::named;
use crate::redundancy::Redundancy;
use crate::spine::{Outline, steps_for};
use crate::tables::{NoLeaves, Tables, Unmarked, clear, unmark};
use refute_tree::{Earlier, Lemma};
use search_guide::Guide;
use std::alloc::{AllocError, Global};
use std::mem;
use stn_core::{Clause, Literal, negate};

// The negations of the literals that are kept.
fn kept_clause<E: Earlier>(
    alloc: Global,
    graph: &ImplicationGraph<'_, E>,
    roles: &[Role],
    passed: &[usize],
) -> Result<Vec<Literal>, AllocError>
    requires roles { length graph.now.trail ≤ length roles.now }
    requires passed { ArePassed 0 (length graph.now.trail) roles.now passed.now }
    ensures kept { IfOk result (λ clause. KeepsAll graph.now.trail roles.now (length graph.now.trail) clause.items) }
    ensures denied { IfOk result (λ clause. All (DeniesKept graph.now.trail roles.now) clause.items) }
{
    let mut clause = Vec::new(alloc);
    for i in 0..passed.len() {
        let k = passed[i];
        if let Role::Kept = roles[k] {
            clause.push(negate(graph.literal(k)))?;
        }
    }
    Ok(clause)
}

// Below which place the root's literals stand, of so many.
fn root_end(count: usize, levels: &[Level]) -> usize {
    match levels.first() {
        Some(level) => level.start,
        None => count,
    }
}

// Before a way back: no literal is used.
fn begin<E: Earlier>(
    alloc: Global,
    graph: &ImplicationGraph<'_, E>,
    levels: &[Level],
    tables: &mut Tables,
) -> Result<Marks, AllocError>
    ensures count { IfOk result (λ marks. length graph.now.trail ≤ length marks.roles.items) }
    ensures clean { IfOk result (λ marks. (j : ℕ) → role_at marks.roles.items j ≡ Unused) }
    ensures waiting { IfOk result (λ marks. marks.waiting ≡ []) }
    ensures passed { IfOk result (λ marks. marks.passed.items ≡ []) }
{
    let count = graph.count();
    let unmarked = mem::replace(&mut tables.unmarked, Unmarked::new(alloc));
    let mut redundancy = mem::replace(&mut tables.redundancy, Redundancy::new(alloc));
    redundancy.begin(count)?;
    let mut passed = mem::replace(&mut tables.passed, Vec::new(alloc));
    passed.truncate(0);
    Ok(Marks {
        roles: unmarked.into_roles(count)?,
        waiting: Places::new(alloc),
        passed,
        start: count,
        open: 0,
        root: root_end(count, levels),
        redundancy,
    })
}

// A table in which no place of the trail stands at leaves.
fn lend_leaves<E: Earlier>(
    alloc: Global,
    graph: &ImplicationGraph<'_, E>,
    tables: &mut Tables,
) -> Result<Vec<bool>, AllocError>
    ensures count { IfOk result (λ leaves. length graph.now.trail ≤ length leaves.items) }
    ensures clean { IfOk result (λ leaves. (k : ℕ) → at_leaves leaves.items k ≡ false) }
{
    let none = mem::replace(&mut tables.no_leaves, NoLeaves::new(alloc));
    none.into_leaves(graph.count())
}

fn is_resolved(marks: &Marks, k: usize) -> bool {
    matches!(marks.roles.get(k), Some(Role::Resolved))
}

fn bump_reason(entry: &Entry, guide: &mut Guide) {
    match &entry.reason {
        Reason::Clause(source, _) => guide.bump_clause(named(*source)),
        Reason::Cycle(_) => guide.use_distances(),
        Reason::Given | Reason::Decision | Reason::Pair(_) => {}
    }
}

// The literals on which the conflict rests are more active than they were, but those that it rests on for the
// sake of fewer literals in the clause. So are the clauses up to the implication point.
fn bump_used(trail: &[Entry], marks: &Marks, guide: &mut Guide, conflict: &Conflict) {
    if let Conflict::Clause(source) = conflict {
        guide.bump_clause(named(*source));
    }
    for k in &marks.passed {
        if *k < marks.root || trail.len() <= *k {
            return;
        }
        if !marks.redundancy.is_inner(*k) {
            guide.bump(trail[*k].number);
        }
        if marks.start <= *k && is_resolved(marks, *k) {
            bump_reason(&trail[*k], guide);
        }
    }
}

// Where the root's literals stand on which the conflict rests, and which no lemma states: the first place
// first.
fn wanted_roots<E: Earlier>(
    graph: &ImplicationGraph<'_, E>,
    marks: &Marks,
    guide: &Guide,
    wanted: &mut Vec<usize>,
) -> Result<(), AllocError> {
    for k in marks.passed.iter().rev() {
        if marks.root <= *k {
            return Ok(());
        }
        if !is_cited(graph, guide, *k) {
            wanted.push(*k)?;
        }
    }
    Ok(())
}

/// The clause that a conflict teaches, with its tree: the negations of some of the trail's literals. The one
/// error is want of memory.
///
/// With `whole` the literals are negations of decided ones, of the cube's, and of such as don't follow from the clause that is
/// named as their reason: where each does, of decided ones and the cube's alone. Else it is the clause of the
/// first unique implication point of the last level on which the conflict rests, and to `wanted` come the
/// places of the root's literals whose reasons are in the steps and could be cited.
pub fn analyze<E: Earlier>(
    alloc: Global,
    graph: &ImplicationGraph<'_, E>,
    levels: &[Level],
    guide: &mut Guide,
    tables: &mut Tables,
    whole: bool,
    conflict: &Conflict,
    wanted: &mut Vec<usize>,
) -> Result<Lemma, AllocError>
    requires trail { IsGrounded graph.now }
    requires over { AreOver graph.now.points graph.now.trail }
    requires conflict { IsConflict graph.now.inputs graph.now.lemmas
        (Stands graph.now.trail (length graph.now.trail)) conflict.now }
    ensures proved { IfOk result (IsProved graph.now.points graph.now.inputs graph.now.lemmas) }
    ensures denials { IfOk result (λ lemma. All (IsDenial graph.now.inputs graph.now.lemmas graph.now.trail whole) lemma.clause) }
{
    let mut marks = begin(alloc, graph, levels, tables)?;
    need_conflict(graph, &mut marks, guide, conflict)?;
    mark_back(graph, levels, &mut marks, guide, whole)?;
    if !whole {
        bump_used(graph.trail(), &marks, guide, conflict);
        wanted_roots(graph, &marks, guide, wanted)?;
    }
    let clause = kept_clause(alloc, graph, &marks.roles, &marks.passed)?;
    let mut leaves = lend_leaves(alloc, graph, tables)?;
    choose_leaves(
        graph,
        &marks.roles,
        &marks.passed,
        guide,
        conflict,
        &mut leaves,
    );
    let outline = Outline {
        roles: &marks.roles,
        leaves: &leaves,
        guide,
    };
    let steps = steps_for(
        alloc,
        graph,
        &outline,
        &marks.passed,
        conflict,
        &mut tables.steps,
    )?;
    tables.no_leaves = clear(leaves, &marks.passed);
    tables.unmarked = unmark(marks.roles, &marks.passed);
    tables.redundancy = marks.redundancy;
    tables.passed = marks.passed;
    Ok(Lemma {
        clause: Clause::new(clause),
        steps,
    })
}
