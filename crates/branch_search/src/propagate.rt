//! What follows from the trail's literals, by ladders, clauses, the net and distances.
ghost use Rattle.std.specs.Prelude.{◌≡◌, ◌<◌, ◌≤◌, ◌+◌, length, true, min, IfOk, OnOk};
ghost use Rattle.branch_search.specs.code.Search.{IsState, IsAfter, IsTried, IsWeaker};
ghost use Rattle.stn_core.specs.Limits.{adds_limit};

use crate::both::Both;
use crate::state::State;
use crate::task::Task;
use conflict_analysis::{Conflict, Reason, Source, is_conflict, is_over, literal_on, source_of};
use refute_tree::Earlier;
use search_guide::{Guide, LiteralNumber, Proposal};
use std::alloc::{AllocError, Global};
use stn_core::{Literal, Literals, Net, negate};

/// What became of a proposal.
#[derive(Drop)]
pub enum Tried {
    /// The literal stands on the trail.
    Pushed,
    /// There was none, or it failed its test.
    Nothing,
    /// The trail's literals can't all hold.
    Stuck(Conflict),
}

// Whether the second bounds the same two points at most as tightly.
fn is_weaker(tighter: Literal, weaker: Literal) -> bool
    ensures { result ≡ true → IsWeaker tighter weaker }
{
    tighter.x == weaker.x && tighter.y == weaker.y && tighter.c <= weaker.c
}

impl State {
    // The literal with the number, which stands at a place of a clause. That the clause's others are denied is tested where
    // a conflict comes to rest on it.
    pub fn take_unit<E: Earlier, N: Net>(
        &mut self,
        task: &Task<'_, E>,
        net: &N,
        source: Source,
        place: usize,
        number: LiteralNumber,
    ) -> Result<Tried, AllocError>
        requires state { IsState task.now self.old (N.literals_of net.now) }
        ensures levels { self.new.levels.items ≡ self.old.levels.items }
        ensures taken { IfOk result (IsTried task.now self.new (N.literals_of net.now)) }
        ensures longer { OnOk result (length self.old.entries.items ≤ length self.new.entries.items) }
    {
        let Some(literal) = self.guide.literal(number) else {
            return Ok(Tried::Nothing);
        };
        if !is_over(literal, task.problem().points) {
            return Ok(Tried::Nothing);
        }
        self.push(literal, number, Reason::Clause(source, place))?;
        Ok(Tried::Pushed)
    }

    // A clause whose literals are all denied, one of them perhaps at the place `near` of the trail.
    pub fn take_conflict<E: Earlier, N: Net>(
        &mut self,
        task: &Task<'_, E>,
        net: &N,
        source: Source,
        near: usize,
    ) -> Tried
        requires state { IsState task.now self.old (N.literals_of net.now) }
        ensures levels { self.new.levels.items ≡ self.old.levels.items }
        ensures taken { IsTried task.now self.new (N.literals_of net.now) result }
        ensures longer { length self.old.entries.items ≤ length self.new.entries.items }
    {
        let both = Both {
            task,
            own: self.own.as_slice(),
        };
        if is_conflict(
            task.problem(),
            &both,
            &self.guide,
            &self.entries,
            source,
            near,
        ) {
            return Tried::Stuck(Conflict::Clause(source));
        }
        Tried::Nothing
    }

    // A literal on the same two points as the one at the place of the trail, which is at most as tight.
    fn take_weaker<E: Earlier, N: Net>(
        &mut self,
        alloc: Global,
        task: &Task<'_, E>,
        net: &N,
        k: usize,
        number: LiteralNumber,
    ) -> Result<Tried, AllocError>
        requires within { k < length self.old.entries.items }
        requires state { IsState task.now self.old (N.literals_of net.now) }
        ensures levels { self.new.levels.items ≡ self.old.levels.items }
        ensures taken { IfOk result (IsTried task.now self.new (N.literals_of net.now)) }
        ensures longer { OnOk result (length self.old.entries.items ≤ length self.new.entries.items) }
    {
        let tighter = literal_on(&self.entries, k);
        let Some(weaker) = self.guide.literal(number) else {
            return Ok(Tried::Nothing);
        };
        if !is_over(weaker, task.problem().points) || !is_weaker(tighter, weaker) {
            return Ok(Tried::Nothing);
        }
        if self.is_on_trail(Guide::negated(number), negate(weaker)) {
            let cycle = vec![in alloc; tighter, negate(weaker)]?;
            return Ok(Tried::Stuck(Conflict::Cycle(Literals::new(cycle))));
        }
        self.push(weaker, number, Reason::Pair(tighter))?;
        Ok(Tried::Pushed)
    }

    // What the guide proposes next, of what follows from the literal at the place of the trail.
    fn take_next<E: Earlier, N: Net>(
        &mut self,
        alloc: Global,
        task: &Task<'_, E>,
        net: &N,
        k: usize,
    ) -> Result<Tried, AllocError>
        requires within { k < length self.old.entries.items }
        requires state { IsState task.now self.old (N.literals_of net.now) }
        ensures levels { self.new.levels.items ≡ self.old.levels.items }
        ensures taken { IfOk result (IsTried task.now self.new (N.literals_of net.now)) }
        ensures longer { OnOk result (length self.old.entries.items ≤ length self.new.entries.items) }
    {
        match self.guide.next()? {
            Proposal::Nothing => Ok(Tried::Nothing),
            Proposal::Weaker(number) => self.take_weaker(alloc, task, net, k, number),
            Proposal::Unit(source, place, unit) => {
                self.take_unit(task, net, source_of(source), place, unit)
            }
            Proposal::Conflict(source) => Ok(self.take_conflict(task, net, source_of(source), k)),
        }
    }

    // What follows from the literal at the place of the trail, by ladders and clauses.
    fn follow<E: Earlier, N: Net>(
        &mut self,
        alloc: Global,
        task: &Task<'_, E>,
        net: &N,
        k: usize,
    ) -> Result<Option<Conflict>, AllocError>
        requires within { k < length self.old.entries.items }
        requires state { IsState task.now self.old (N.literals_of net.now) }
        ensures levels { self.new.levels.items ≡ self.old.levels.items }
        ensures after { IfOk result (IsAfter task.now self.new (N.literals_of net.now)) }
    {
        let limit = self.guide.literals();
        self.guide.begin(self.entries[k].number);
        'proposals: for _turn in 0..limit {
            match self.take_next(alloc, task, net, k)? {
                Tried::Pushed => {}
                Tried::Nothing => return Ok(None),
                Tried::Stuck(conflict) => return Ok(Some(conflict)),
            }
        }
        Ok(None)
    }

    /// The same for all literals from `followed` on, and for those that come.
    pub fn follow_all<E: Earlier, N: Net>(
        &mut self,
        alloc: Global,
        task: &Task<'_, E>,
        net: &N,
    ) -> Result<Option<Conflict>, AllocError>
        requires state { IsState task.now self.old (N.literals_of net.now) }
        ensures levels { self.new.levels.items ≡ self.old.levels.items }
        ensures after { IfOk result (IsAfter task.now self.new (N.literals_of net.now)) }
    {
        let limit = self.guide.literals();
        'literals: for _turn in 0..limit {
            let k = self.followed;
            if k >= self.entries.len() {
                return Ok(None);
            }
            self.followed = k + 1;
            if let Some(conflict) = self.follow(alloc, task, net, k)? {
                return Ok(Some(conflict));
            }
        }
        Ok(None)
    }

    /// Whether the net is to have the literal at the place, and so the distances. Pure ones and those that
    /// others imply add nothing to it.
    pub fn is_for_net(&self, k: usize) -> bool
        requires { k < length self.now.entries.items }
    {
        match &self.entries[k].reason {
            Reason::Pair(_) | Reason::Cycle(_) => false,
            _ => !self.guide.is_pure(self.entries[k].number),
        }
    }

    // The next literal into the net, if there is one that isn't in it yet.
    fn net_next<E: Earlier, N: Net>(
        &mut self,
        task: &Task<'_, E>,
        net: &mut N,
    ) -> Result<Option<Conflict>, AllocError>
        requires points { N.points_of net.old ≡ task.now.problem.points }
        requires state { IsState task.now self.old (N.literals_of net.old) }
        ensures points { N.points_of net.new ≡ N.points_of net.old }
        ensures levels { self.new.levels.items ≡ self.old.levels.items }
        ensures after { IfOk result (IsAfter task.now self.new (N.literals_of net.new)) }
        ensures counts { OnOk result (min (N.adds_of net.old) adds_limit ≤ N.adds_of net.new) }
    {
        let k = self.netted;
        if k >= self.entries.len() {
            return Ok(None);
        }
        self.netted = k + 1;
        if !self.is_for_net(k) {
            return Ok(None);
        }
        let found = self.add_to_net(task, net, k)?;
        Ok(found)
    }

    /// All that follows from the trail's literals, by ladders, clauses, the net and distances, or a conflict.
    /// All literals go into the net before the next one goes into the distances, since what clauses and
    /// ladders alone lead to costs less.
    pub fn propagate<E: Earlier, N: Net>(
        &mut self,
        alloc: Global,
        task: &Task<'_, E>,
        net: &mut N,
    ) -> Result<Option<Conflict>, AllocError>
        requires points { N.points_of net.old ≡ task.now.problem.points }
        requires state { IsState task.now self.old (N.literals_of net.old) }
        ensures points { N.points_of net.new ≡ N.points_of net.old }
        ensures levels { self.new.levels.items ≡ self.old.levels.items }
        ensures after { IfOk result (IsAfter task.now self.new (N.literals_of net.new)) }
        ensures counts { OnOk result (min (N.adds_of net.old) adds_limit ≤ N.adds_of net.new) }
    {
        // each literal goes once into the net and once into the distances
        let limit = self.guide.literals().saturating_add(1);
        'literals: for _turn in 0..limit {
            if let Some(conflict) = self.follow_all(alloc, task, net)? {
                return Ok(Some(conflict));
            }
            if self.netted >= self.entries.len() && self.is_measured() {
                return Ok(None);
            }
            if self.has_many_waiting() {
                let literals = self.take_waiting(alloc)?;
                if let Some(conflict) = self.net_all(alloc, task, net, &literals)? {
                    return Ok(Some(conflict));
                }
            } else if self.netted < self.entries.len() {
                if let Some(conflict) = self.net_next(task, net)? {
                    return Ok(Some(conflict));
                }
            } else {
                self.measure_next(alloc, task, net)?;
            }
        }
        Ok(None)
    }
}
