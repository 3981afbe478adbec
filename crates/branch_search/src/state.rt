//! The trail of a search, beside a net that has some of its literals, and the lemmas learned so far.
ghost use Rattle.std.specs.Prelude.{◌≡◌, ◌<◌, ◌≤◌, ◌+◌, ◌++◌, ◌∷◌, [], length, take, min, true, OnOk};
ghost use Rattle.std.specs.Prelude.{IfOk};
ghost use Rattle.conflict_analysis.specs.code.Trails.{on_trail, Stands};
ghost use Rattle.branch_search.specs.code.Search.{start_of, in_net_of, IsState, IsAfter};
ghost use Rattle.branch_search.specs.code.Search.{IsNetAfter};
ghost use Rattle.stn_core.specs.Limits.{adds_limit};

use crate::hearing::Hearing;
use crate::task::Task;
use conflict_analysis::{Conflict, Entry, Level, Reason, Tables, is_standing, literal_on};
use refute_tree::{Earlier, Lemma};
use search_distances::Distances;
use search_guide::{Guide, LiteralNumber};
use std::alloc::{AllocError, Global};
use std::mem;
use stn_core::{Added, Literal, Mark, Net};

pub struct State {
    pub guide: Guide,
    /// distances between points, where there are few of them
    pub distances: Option<Distances>,
    pub entries: Vec<Entry>,
    pub levels: Vec<Level>,
    pub own: Vec<Lemma>,
    /// what one conflict leaves to the next one
    pub tables: Tables,
    /// the first place of the trail from which the guide hasn't looked yet for what follows
    pub followed: usize,
    /// the first place whose literal hasn't been put into the net yet, or passed by
    pub netted: usize,
    /// the first place whose literal hasn't been put into the distances yet, or passed by
    pub measured: usize,
    /// whether there was a conflict in this slice
    pub met_conflict: bool,
    /// how many lemmas were handed to the last slice: behind them the guide knows the own ones
    pub seen: usize,
    /// how many conflicts and decisions there were in all slices
    pub conflicts: u64,
    pub decisions: u64,
    /// what other workers tell
    pub hearing: Hearing,
}

impl Drop for State {
    fn drop(self) {
        let State {
            guide,
            distances,
            entries,
            levels,
            own,
            tables,
            followed: _,
            netted: _,
            measured: _,
            met_conflict: _,
            seen: _,
            conflicts: _,
            decisions: _,
            hearing,
        } = self;
        drop(guide);
        drop(distances);
        drop(entries);
        drop(levels);
        drop(own);
        drop(tables);
        drop(hearing);
    }
}

// Whether the guide has as many literals and the same first one for the clause of the lemma with this number, or
// doesn't watch it.
fn has_clause(guide: &Guide, j: usize, clause: &[Literal]) -> bool {
    let numbers = guide.numbers_of(search_guide::Source::Lemma(j));
    match numbers.first() {
        Some(number) => {
            numbers.len() == clause.len() && guide.literal(*number) == clause.first().copied()
        }
        None => true,
    }
}

// Whether the guide's lemmas between two numbers are the handed ones from another number on.
fn are_at<E: Earlier>(guide: &Guide, handed: &E, from: usize, to: usize, start: usize) -> bool {
    for j in from..to {
        let k = start.saturating_add(j - from);
        if k >= handed.count() || !has_clause(guide, j, handed.clause(k)) {
            return false;
        }
    }
    true
}

// The first lemma from a number on whose clause the guide has, or how many it knows.
fn first_watched(guide: &Guide, seen: usize) -> usize {
    for j in seen..guide.lemmas() {
        if !guide.numbers_of(search_guide::Source::Lemma(j)).is_empty() {
            return j;
        }
    }
    guide.lemmas()
}

// From which number on the handed lemmas are those that the guide knows behind the first `seen`.
fn start_of_own<E: Earlier>(guide: &Guide, handed: &E, seen: usize) -> Option<usize> {
    let known = guide.lemmas();
    if known > handed.count() || !are_at(guide, handed, 0, seen, 0) {
        return None;
    }
    // those before the first that is watched fit anywhere
    let first = first_watched(guide, seen);
    let before = first.saturating_sub(seen);
    let last = handed.count().saturating_sub(known.saturating_sub(seen));
    for start in seen..last.saturating_add(1) {
        if are_at(guide, handed, first, known, start.saturating_add(before)) {
            return Some(start);
        }
    }
    None
}

// The literals from a place on leave the trail.
fn unset_from(entries: &[Entry], guide: &mut Guide, start: usize) {
    let count = entries.len();
    for back in 0..count {
        let k = count - 1 - back;
        if start <= k {
            guide.unset(entries[k].number);
        }
    }
}

// And the distances.
fn retract_distances(distances: &mut Option<Distances>, start: usize) {
    if let Some(distances) = distances {
        distances.retract(start);
    }
}

impl State {
    pub fn new(alloc: Global, guide: Guide, distances: Option<Distances>, hearing: Hearing) -> Self
        ensures entries { result.entries.items ≡ [] }
        ensures levels { result.levels.items ≡ [] }
        ensures own { result.own.items ≡ [] }
    {
        State {
            guide,
            distances,
            entries: Vec::new(alloc),
            levels: Vec::new(alloc),
            own: Vec::new(alloc),
            tables: Tables::new(alloc),
            followed: 0,
            netted: 0,
            measured: 0,
            met_conflict: false,
            seen: 0,
            conflicts: 0,
            decisions: 0,
            hearing,
        }
    }

    /// Before another slice: no literal stands on the trail, and there are no own lemmas. The guide stays,
    /// where the lemmas that it knows are among those that are handed, and others may stand before its own.
    pub fn renew<E: Earlier>(&mut self, alloc: Global, task: &Task<'_, E>) -> Result<(), AllocError>
        ensures entries { OnOk result (self.new.entries.items ≡ []) }
        ensures levels { OnOk result (self.new.levels.items ≡ []) }
        ensures own { OnOk result (self.new.own.items ≡ []) }
    {
        self.clear();
        self.own.truncate(0);
        self.met_conflict = false;
        let count = task.count();
        self.hearing.renew(self.conflicts, count);
        match start_of_own(&self.guide, task.handed(), self.seen) {
            Some(start) => self.guide.renumber(self.seen, start, count)?,
            None => {
                self.guide = Guide::with_policy(alloc, task.problem(), self.guide.policy())?;
                self.distances = Distances::new(alloc, &self.guide, task.problem().points)?;
                self.guide.renumber(0, 0, count)?;
            }
        }
        self.seen = count;
        if self.guide.plan_under(task.problem(), task.cube())? {
            self.distances = Distances::new(alloc, &self.guide, task.problem().points)?;
        }
        Ok(())
    }

    /// The own lemmas, which leave the state.
    pub fn take_own(&mut self, alloc: Global) -> Vec<Lemma>
        ensures { result.items ≡ self.old.own.items }
    {
        mem::replace(&mut self.own, Vec::new(alloc))
    }

    /// One literal more.
    pub fn push(
        &mut self,
        literal: Literal,
        number: LiteralNumber,
        reason: Reason,
    ) -> Result<(), AllocError>
        ensures levels { self.new.levels.items ≡ self.old.levels.items }
        ensures own { self.new.own.items ≡ self.old.own.items }
        ensures entries { OnOk result (self.new.entries.items
            ≡ self.old.entries.items ++ record { literal = literal; number = number; reason = reason } ∷ []) }
    {
        let place = self.entries.len();
        self.entries.push(Entry {
            literal,
            number,
            reason,
        })?;
        self.guide.set(number, place, self.levels.len());
        Ok(())
    }

    /// Whether the literal, which has this number, stands on the trail where the guide has it.
    pub fn is_on_trail(&self, number: LiteralNumber, literal: Literal) -> bool
        ensures { result ≡ true → Stands self.now.entries.items (length self.now.entries.items) literal }
    {
        is_standing(&self.guide, &self.entries, number, literal)
    }

    /// The literal at the place of the trail goes into the net. The conflict is with the net's literals.
    pub fn add_to_net<E: Earlier, N: Net>(
        &self,
        task: &Task<'_, E>,
        net: &mut N,
        k: usize,
    ) -> Result<Option<Conflict>, AllocError>
        requires within { k < length self.now.entries.items }
        requires points { N.points_of net.old ≡ task.now.problem.points }
        requires state { IsState task.now self.now (N.literals_of net.old) }
        ensures points { N.points_of net.new ≡ N.points_of net.old }
        ensures after { IfOk result (IsAfter task.now self.now (N.literals_of net.new)) }
        ensures counts { OnOk result (N.adds_of net.new ≡ min (N.adds_of net.old + 1) adds_limit) }
        ensures added { IfOk result (IsNetAfter (N.literals_of net.old) (on_trail self.now.entries.items k)
            (N.literals_of net.new)) }
    {
        match net.add(literal_on(&self.entries, k))? {
            Added::Yes => Ok(None),
            Added::Cycle(cycle) => Ok(Some(Conflict::Cycle(cycle))),
        }
    }

    /// Before the decision of a literal.
    pub fn begin_level<N: Net>(&mut self, net: &N) -> Result<(), AllocError>
        ensures entries { self.new.entries.items ≡ self.old.entries.items }
        ensures own { self.new.own.items ≡ self.old.own.items }
        ensures levels { OnOk result (self.new.levels.items ≡ self.old.levels.items
            ++ record { start = length self.old.entries.items; in_net = length (N.literals_of net.now) } ∷
            []) }
    {
        let level = Level {
            start: self.entries.len(),
            in_net: net.mark().length,
        };
        self.levels.push(level)?;
        Ok(())
    }

    /// Back to before the decision with this number.
    pub fn cut<N: Net>(&mut self, net: &mut N, level: usize)
        requires level { level < length self.old.levels.items }
        requires within { in_net_of self.old.levels.items level ≤ length (N.literals_of net.old) }
        ensures points { N.points_of net.new ≡ N.points_of net.old }
        ensures adds { N.adds_of net.new ≡ N.adds_of net.old }
        ensures entries { self.new.entries.items
            ≡ take (start_of self.old.levels.items level) self.old.entries.items }
        ensures levels { self.new.levels.items ≡ take level self.old.levels.items }
        ensures literals { N.literals_of net.new
            ≡ take (in_net_of self.old.levels.items level) (N.literals_of net.old) }
        ensures own { self.new.own.items ≡ self.old.own.items }
    {
        let Level { start, in_net } = self.levels[level];
        unset_from(&self.entries, &mut self.guide, start);
        self.levels.truncate(level);
        self.entries.truncate(start);
        self.followed = self.followed.min(start);
        self.netted = self.netted.min(start);
        self.measured = self.measured.min(start);
        retract_distances(&mut self.distances, start);
        net.retract(Mark { length: in_net });
    }

    /// No literal stands on the trail. The lemmas stay.
    pub fn clear(&mut self)
        ensures entries { self.new.entries.items ≡ [] }
        ensures levels { self.new.levels.items ≡ [] }
        ensures own { self.new.own.items ≡ self.old.own.items }
    {
        unset_from(&self.entries, &mut self.guide, 0);
        self.levels.truncate(0);
        self.entries.truncate(0);
        self.followed = 0;
        self.netted = 0;
        self.measured = 0;
        retract_distances(&mut self.distances, 0);
    }
}
