//! What a conflict leads to.
ghost use Rattle.std.specs.Prelude.{◌≡◌, ◌≢◌, ◌↔◌, ℕ, ◌<◌, ◌+◌, [], length, true, Some};
ghost use Rattle.std.specs.Prelude.{IfOk, IfSome, IfNone, OnOk};
ghost use Rattle.stn_core.specs.Literal.{negation_of, literal_at};
ghost use Rattle.branch_search.specs.Slices.{Excludes};
ghost use Rattle.branch_search.specs.code.Search.{IsState, IsStuck, IsTaught, IsLearned, IsSettled, IsExcluded, FailsReason, HasNoClause};

use crate::both::Both;
use crate::state::State;
use crate::task::Task;
use conflict_analysis::{
    Conflict, ImplicationGraph, Level, Source, analyze, is_same, literal_place, number_of,
    numbers_of, unit_place,
};
use refute_tree::{Earlier, Lemma};
use search_guide::Guide;
use std::alloc::{AllocError, Global};
use stn_core::{Literal, Net, negate};

// Whether nothing was decided.
fn is_root(levels: &[Level]) -> bool
    ensures { result ≡ true ↔ (length levels.now ≡ 0) }
{
    levels.is_empty()
}

// The clause of the lemma with the number.
fn clause_at(own: &[Lemma], j: usize) -> &[Literal] {
    match own.get(j) {
        Some(lemma) => lemma.clause.as_slice(),
        None => &[],
    }
}

/// How a conflict is settled.
#[derive(Clone, Copy, Debug, PartialEq, Eq)]
pub enum Reaction {
    /// The search goes on with fewer levels.
    Jumped,
    /// The lemma with this number excludes the cube.
    Excluded(usize),
    /// Nothing was decided, and what was learned doesn't exclude the cube: some literal doesn't follow from the clause by which it
    /// stands on the trail.
    Unsettled,
}

// At which place the cube has the literal's negation: the place where it stands on the trail, on which the cube's literals are
// the first ones, or else the first one.
fn denial_in(cube: &[Literal], guide: &Guide, literal: Literal) -> Option<usize>
    ensures within { IfSome result (λ k. k < length cube.now) }
    ensures is { IfSome result (λ k. literal_at cube.now k ≡ negation_of literal) }
    ensures none { IfNone result ((k : ℕ) → k < length cube.now → literal_at cube.now k ≢ negation_of literal) }
{
    let denial = negate(literal);
    if let Some(k) = literal_place(guide, denial) {
        if k < cube.len() && is_same(cube[k], denial) {
            return Some(k);
        }
    }
    for k in 0..cube.len() {
        if is_same(cube[k], denial) {
            return Some(k);
        }
    }
    None
}

// Whether the lemma with the number states that some literal of the cube fails.
fn excludes(cube: &[Literal], guide: &Guide, own: &[Lemma], j: usize) -> bool
    ensures sound { result ≡ true → Excludes cube.now own.now j }
    ensures all { Excludes cube.now own.now j → result ≡ true }
{
    let Some(lemma) = own.get(j) else {
        return false;
    };
    let clause = lemma.clause.as_slice();
    for q in 0..clause.len() {
        let Some(_place) = denial_in(cube, guide, clause[q]) else {
            return false;
        };
    }
    true
}

impl State {
    /// The lemma that a conflict teaches: with `whole` of denials of decided literals and the cube's, and of others that don't follow
    /// from the clause which is named as their reason.
    pub fn lemma_of<E: Earlier, N: Net>(
        &mut self,
        alloc: Global,
        task: &Task<'_, E>,
        net: &N,
        conflict: &Conflict,
        whole: bool,
        wanted: &mut Vec<usize>,
    ) -> Result<Lemma, AllocError>
        requires stuck { IsStuck task.now self.old (N.literals_of net.now) conflict.now }
        ensures entries { self.new.entries.items ≡ self.old.entries.items }
        ensures levels { self.new.levels.items ≡ self.old.levels.items }
        ensures own { self.new.own.items ≡ self.old.own.items }
        ensures taught { IfOk result (IsTaught task.now self.old whole) }
    {
        let both = Both {
            task,
            own: self.own.as_slice(),
        };
        let graph = ImplicationGraph::new(task.problem(), &both, self.entries.as_slice());
        let lemma = analyze(
            alloc,
            &graph,
            self.levels.as_slice(),
            &mut self.guide,
            &mut self.tables,
            whole,
            conflict,
            wanted,
        )?;
        Ok(lemma)
    }

    // Learns from a conflict.
    fn learn<E: Earlier, N: Net>(
        &mut self,
        alloc: Global,
        task: &Task<'_, E>,
        net: &N,
        conflict: &Conflict,
        wanted: &mut Vec<usize>,
    ) -> Result<(), AllocError>
        requires stuck { IsStuck task.now self.old (N.literals_of net.now) conflict.now }
        ensures entries { self.new.entries.items ≡ self.old.entries.items }
        ensures levels { self.new.levels.items ≡ self.old.levels.items }
        ensures learned { OnOk result (IsLearned task.now self.old self.new (N.literals_of net.now)) }
    {
        let whole = is_root(&self.levels);
        let lemma = self.lemma_of(alloc, task, net, conflict, whole, wanted)?;
        self.guide.add_lemma(lemma.clause.as_slice())?;
        self.own.push(lemma)?;
        Ok(())
    }

    // To which level to jump back from the clause of a lemma. Any level is right.
    fn jump_level(&mut self, alloc: Global, source: Source) -> Result<usize, AllocError>
        requires { 0 < length self.old.levels.items }
        ensures entries { self.new.entries.items ≡ self.old.entries.items }
        ensures levels { self.new.levels.items ≡ self.old.levels.items }
        ensures own { self.new.own.items ≡ self.old.own.items }
        ensures within { IfOk result (λ level. level < length self.old.levels.items) }
    {
        let numbers = Vec::from_slice(alloc, numbers_of(&self.guide, source))?;
        let level = self.guide.after_conflict(&numbers);
        self.guide.decay();
        self.met_conflict = true;
        self.conflicts = self.conflicts.saturating_add(1);
        if level < self.levels.len() {
            Ok(level)
        } else {
            Ok(0)
        }
    }

    /// The literal that the own lemma with the number gives, if it gives one.
    pub fn take_learned<E: Earlier, N: Net>(
        &mut self,
        task: &Task<'_, E>,
        net: &N,
        source: Source,
        j: usize,
    ) -> Result<(), AllocError>
        requires state { IsState task.now self.old (N.literals_of net.now) }
        ensures levels { self.new.levels.items ≡ self.old.levels.items }
        ensures state { OnOk result (IsState task.now self.new (N.literals_of net.now)) }
    {
        let clause = clause_at(&self.own, j);
        let Some(place) = unit_place(&self.guide, &self.entries, source, clause) else {
            return Ok(());
        };
        let number = number_of(&self.guide, source, place);
        self.take_unit(task, net, source, place, number)?;
        Ok(())
    }

    /// Learns from a conflict, jumps back and takes what the lemma gives there.
    pub fn react<E: Earlier, N: Net>(
        &mut self,
        alloc: Global,
        task: &Task<'_, E>,
        net: &mut N,
        conflict: &Conflict,
    ) -> Result<Reaction, AllocError>
        requires points { N.points_of net.old ≡ task.now.problem.points }
        requires stuck { IsStuck task.now self.old (N.literals_of net.old) conflict.now }
        ensures points { N.points_of net.new ≡ N.points_of net.old }
        ensures settled { IfOk result (IsSettled task.now
            (length self.old.levels.items) self.new (N.literals_of net.new)) }
        ensures reasons { IfOk result (FailsReason task.now self.old) }
        ensures adds { N.adds_of net.new ≡ N.adds_of net.old }
    {
        let j = self.own.len();
        let mut wanted = Vec::new(alloc);
        self.learn(alloc, task, net, conflict, &mut wanted)?;
        if is_root(&self.levels) {
            if excludes(task.cube(), &self.guide, self.own.as_slice(), j) {
                return Ok(Reaction::Excluded(j));
            }
            return Ok(Reaction::Unsettled);
        }
        self.cite_all(alloc, task, net, &wanted)?;
        let source = Source::Lemma(task.count() + j);
        let level = self.jump_level(alloc, source)?;
        self.cut(net, level);
        self.take_learned(task, net, source, j)?;
        Ok(Reaction::Jumped)
    }

    /// Where nothing was decided, and no literal stands on the trail by a clause, the lemma that a conflict teaches excludes
    /// the cube.
    pub fn exclude<E: Earlier, N: Net>(
        &mut self,
        alloc: Global,
        task: &Task<'_, E>,
        net: &N,
        conflict: &Conflict,
    ) -> Result<usize, AllocError>
        requires stuck { IsStuck task.now self.old (N.literals_of net.now) conflict.now }
        requires root { self.old.levels.items ≡ [] }
        requires plain { HasNoClause self.old.entries.items }
        ensures entries { self.new.entries.items ≡ self.old.entries.items }
        ensures levels { self.new.levels.items ≡ self.old.levels.items }
        ensures excluded { IfOk result (IsExcluded task.now self.new) }
    {
        let j = self.own.len();
        let mut wanted = Vec::new(alloc);
        self.learn(alloc, task, net, conflict, &mut wanted)?;
        Ok(j)
    }
}
