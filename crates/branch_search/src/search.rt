//! The turns of a search.
ghost use Rattle.std.specs.Prelude.{◌≡◌, ◌<◌, ◌≤◌, ◌+◌, length, min, true, IfOk, IfSome, OnOk};
ghost use Rattle.branch_search.specs.code.Search.{IsAfter, IsState, IsStuck};
ghost use Rattle.stn_core.specs.Limits.{adds_limit};
ghost use Rattle.branch_search.specs.code.Turns.{IsTurn, IsFoundOrPaused};
ghost use Rattle.stn_core.specs.Solution.{IsSolution};

use crate::conflict::Reaction;
use crate::model::try_model;
use crate::state::State;
use crate::task::Task;
use conflict_analysis::{Conflict, Entry, Level, Reason, is_over};
use refute_tree::Earlier;
use search_guide::{Guide, LiteralNumber};
use std::alloc::{AllocError, Global};
use stn_core::{Net, Problem, Schedule};

/// How a search ends.
#[derive(Drop)]
pub enum Found {
    /// All clauses hold on the schedule.
    Model(Schedule),
    /// The lemma with this number excludes the cube.
    Excluded(usize),
    /// The budget is spent, or nothing is open.
    Spent,
}

/// What a turn comes to.
#[derive(Drop)]
pub enum Turn {
    /// There is one level more.
    Decided,
    /// There are fewer levels.
    Jumped,
    /// The search ends.
    Ended(Found),
}

/// How much a search may still do.
#[derive(Clone, Copy)]
pub struct Rest {
    /// how many decisions are left
    pub decisions: u64,
    /// the count of adds at which the budget is spent
    pub target: u64,
    /// whether the search may pause
    pub pauses: bool,
}

// From conflict to conflict a slice passes by so many before it looks at its budget. Shorter slices of a large
// problem end before they come to anything.
const LOOK: u64 = 500;

// Where it is time to restart, the first level whose decision is no more active than an open atom: those before
// it would be decided again; all levels, where lemmas are to be looked at, or the search to pause. Any level is right.
//
// Source: van der Tak, Ramos and Heule, "Reusing the assignment trail in CDCL solvers", JSAT 7 (2011).
fn restart_level(
    guide: &mut Guide,
    entries: &[Entry],
    levels: &[Level],
    wants_pause: bool,
) -> Option<usize>
    ensures { IfSome result (λ level. level < length levels.now) }
{
    if wants_pause || guide.wants_vivification() {
        return if levels.is_empty() { None } else { Some(0) };
    }
    if !guide.wants_restart() {
        return None;
    }
    for (number, level) in levels.iter().enumerate() {
        let outranks = match entries.get(level.start) {
            Some(entry) => guide.outranks(entry.number),
            None => false,
        };
        if !outranks {
            return Some(number);
        }
    }
    None
}

impl State {
    // Whether the search pauses once nothing is decided, where it may: clauses alone lead to most conflicts, as on mutual
    // exclusion and circuits. Where distances do, lemmas of others gain less than a pause costs.
    fn wants_pause(&self, may_pause: bool) -> bool
        ensures { result ≡ true → may_pause ≡ true }
    {
        may_pause && self.hearing.wants_pause(self.conflicts) && !self.guide.wants_distances()
    }

    // Back to the level from which a restart decides anew, if it is time.
    fn restart<E: Earlier, N: Net>(&mut self, task: &Task<'_, E>, net: &mut N, may_pause: bool)
        requires state { IsState task.now self.old (N.literals_of net.old) }
        ensures points { N.points_of net.new ≡ N.points_of net.old }
        ensures adds { N.adds_of net.new ≡ N.adds_of net.old }
        ensures levels { length self.new.levels.items ≤ length self.old.levels.items }
        ensures state { IsState task.now self.new (N.literals_of net.new) }
    {
        let wants_pause = self.wants_pause(may_pause);
        let found = restart_level(&mut self.guide, &self.entries, &self.levels, wants_pause);
        let Some(level) = found else {
            return;
        };
        self.cut(net, level);
    }

    // Reacts to a conflict, and looks at restart and budget.
    fn settle<E: Earlier, N: Net>(
        &mut self,
        alloc: Global,
        task: &Task<'_, E>,
        net: &mut N,
        rest: Rest,
        conflict: &Conflict,
    ) -> Result<Turn, AllocError>
        requires points { N.points_of net.old ≡ task.now.problem.points }
        requires stuck { IsStuck task.now self.old (N.literals_of net.old) conflict.now }
        ensures points { N.points_of net.new ≡ N.points_of net.old }
        ensures turn { IfOk result (IsTurn task.now
            rest.decisions (length self.old.levels.items) self.new (N.literals_of net.new)) }
        ensures counts { OnOk result (min (N.adds_of net.old) adds_limit ≤ N.adds_of net.new) }
    {
        match self.react(alloc, task, net, conflict)? {
            Reaction::Jumped => {}
            Reaction::Excluded(j) => return Ok(Turn::Ended(Found::Excluded(j))),
            Reaction::Unsettled => return Ok(Turn::Ended(Found::Spent)),
        }
        self.guide.forget()?;
        let is_spent = self.conflicts % LOOK == 0 && rest.target <= net.adds();
        let is_in_plan = self.guide.has_plan();
        if self
            .hearing
            .ends_slice(self.conflicts, is_spent, is_in_plan)
        {
            return Ok(Turn::Ended(Found::Spent));
        }
        self.restart(task, net, rest.pauses);
        Ok(Turn::Jumped)
    }

    /// Begins a level with this literal, if it is one over the problem's points.
    pub fn open_level<E: Earlier, N: Net>(
        &mut self,
        task: &Task<'_, E>,
        net: &N,
        number: LiteralNumber,
    ) -> Result<bool, AllocError>
        requires state { IsState task.now self.old (N.literals_of net.now) }
        ensures levels { OnOk result (length self.new.levels.items ≤ length self.old.levels.items + 1) }
        ensures state { OnOk result (IsState task.now self.new (N.literals_of net.now)) }
    {
        let Some(literal) = self.guide.literal(number) else {
            return Ok(false);
        };
        if !is_over(literal, task.problem().points) {
            return Ok(false);
        }
        self.begin_level(net)?;
        self.push(literal, number, Reason::Decision)?;
        Ok(true)
    }

    // Decides the literal with the number.
    fn decide<E: Earlier, N: Net>(
        &mut self,
        task: &Task<'_, E>,
        net: &N,
        rest: Rest,
        number: LiteralNumber,
    ) -> Result<Turn, AllocError>
        requires points { N.points_of net.now ≡ task.now.problem.points }
        requires state { IsState task.now self.old (N.literals_of net.now) }
        ensures turn { IfOk result (IsTurn task.now
            rest.decisions (length self.old.levels.items) self.new (N.literals_of net.now)) }
    {
        if rest.decisions < 1 {
            return Ok(Turn::Ended(Found::Spent));
        }
        if !self.open_level(task, net, number)? {
            return Ok(Turn::Ended(Found::Spent));
        }
        self.decisions = self.decisions.saturating_add(1);
        Ok(Turn::Decided)
    }

    // Whether the slice ends, as it is looked at before a decision.
    fn is_spent<N: Net>(&self, net: &N, rest: Rest) -> bool {
        rest.decisions == 0
            || (!self.met_conflict && rest.target <= net.adds())
            || self.hearing.is_over()
    }

    // A model, where one is likely or nothing is open.
    fn find_model<N: Net>(
        &mut self,
        alloc: Global,
        problem: &Problem,
        net: &mut N,
        is_decided: bool,
    ) -> Result<Option<Schedule>, AllocError>
        requires points { N.points_of net.old ≡ problem.now.points }
        ensures points { N.points_of net.new ≡ N.points_of net.old }
        ensures literals { OnOk result (N.literals_of net.new ≡ N.literals_of net.old) }
        ensures entries { self.new.entries.items ≡ self.old.entries.items }
        ensures levels { self.new.levels.items ≡ self.old.levels.items }
        ensures own { self.new.own.items ≡ self.old.own.items }
        ensures model { IfOk result (λ found. IfSome found (IsSolution problem.now)) }
        ensures counts { OnOk result (min (N.adds_of net.old) adds_limit ≤ N.adds_of net.new) }
    {
        if !is_decided && !self.guide.seems_model(net.schedule()) {
            return Ok(None);
        }
        try_model(alloc, problem, &self.guide, net)
    }

    // Behind what follows from the trail: reacts to a conflict, or else finds a model or decides.
    fn turn<E: Earlier, N: Net>(
        &mut self,
        alloc: Global,
        task: &Task<'_, E>,
        net: &mut N,
        rest: Rest,
        found: Option<Conflict>,
    ) -> Result<Turn, AllocError>
        requires points { N.points_of net.old ≡ task.now.problem.points }
        requires after { IsAfter task.now self.old (N.literals_of net.old) found }
        ensures points { N.points_of net.new ≡ N.points_of net.old }
        ensures turn { IfOk result (IsTurn task.now
            rest.decisions (length self.old.levels.items) self.new (N.literals_of net.new)) }
        ensures counts { OnOk result (min (N.adds_of net.old) adds_limit ≤ N.adds_of net.new) }
    {
        if let Some(conflict) = found {
            return self.settle(alloc, task, net, rest, &conflict);
        }
        let chosen = self.guide.choose(net.schedule());
        if let Some(schedule) = self.find_model(alloc, task.problem(), net, chosen.is_none())? {
            return Ok(Turn::Ended(Found::Model(schedule)));
        }
        if self.is_spent(net, rest) {
            return Ok(Turn::Ended(Found::Spent));
        }
        match chosen {
            Some(number) => self.decide(task, net, rest, number),
            None => Ok(Turn::Ended(Found::Spent)),
        }
    }

    // Whether the search pauses here.
    fn is_to_pause(&self, may_pause: bool, found: &Option<Conflict>) -> bool
        ensures { result ≡ true → may_pause ≡ true }
    {
        self.levels.is_empty() && found.is_none() && self.wants_pause(may_pause)
    }

    /// Turn after turn, up to a model, a lemma that excludes the cube, or the budget's end. Where it may, it pauses, and
    /// then there is none of these.
    pub fn search<E: Earlier, N: Net>(
        &mut self,
        alloc: Global,
        task: &Task<'_, E>,
        net: &mut N,
        rest: Rest,
    ) -> Result<Option<Found>, AllocError>
        requires points { N.points_of net.old ≡ task.now.problem.points }
        requires state { IsState task.now self.old (N.literals_of net.old) }
        ensures points { N.points_of net.new ≡ N.points_of net.old }
        ensures found { IfOk result (IsFoundOrPaused task.now self.new rest.pauses) }
        ensures counts { OnOk result (min (N.adds_of net.old) adds_limit ≤ N.adds_of net.new) }
    {
        let mut left = rest;
        'turns: loop {
            let found = self.propagate(alloc, task, net)?;
            let found = self.vivify(alloc, task, net, found)?;
            if self.is_to_pause(rest.pauses, &found) {
                return Ok(None);
            }
            match self.turn(alloc, task, net, left, found)? {
                Turn::Decided => left.decisions -= 1,
                Turn::Jumped => {}
                Turn::Ended(found) => return Ok(Some(found)),
            }
        }
    }
}
