//! How a slice begins: the cube, and the clauses of one literal.
ghost use Rattle.std.specs.Prelude.{◌≡◌, ◌<◌, ◌≤◌, [], All, min, IfOk, OnOk};
ghost use Rattle.stn_core.specs.Literal.{IsOver};
ghost use Rattle.branch_search.specs.code.Search.{IsState, IsAfter, IsTried, IsEntered, HasNoClause};
ghost use Rattle.stn_core.specs.Limits.{adds_limit};

use crate::propagate::Tried;
use crate::state::State;
use crate::task::Task;
use conflict_analysis::{Conflict, Reason, Source, number_of};
use refute_tree::Earlier;
use std::alloc::{AllocError, Global};
use stn_core::Net;

impl State {
    /// The cube's literals go on the trail and into the net. With a number: that lemma excludes the cube.
    pub fn enter<E: Earlier, N: Net>(
        &mut self,
        alloc: Global,
        task: &Task<'_, E>,
        net: &mut N,
    ) -> Result<Option<usize>, AllocError>
        requires points { N.points_of net.old ≡ task.now.problem.points }
        requires state { IsState task.now self.old (N.literals_of net.old) }
        requires root { self.old.levels.items ≡ [] }
        requires plain { HasNoClause self.old.entries.items }
        requires empty { N.literals_of net.old ≡ [] }
        requires over { All (IsOver task.now.problem.points) task.now.cube }
        ensures points { N.points_of net.new ≡ N.points_of net.old }
        ensures plain { OnOk result (HasNoClause self.new.entries.items) }
        ensures entered { IfOk result (IsEntered task.now self.new (N.literals_of net.new)) }
        ensures counts { OnOk result (min (N.adds_of net.old) adds_limit ≤ N.adds_of net.new) }
    {
        let cube = task.cube();
        'literals: for l in cube {
            let number = self.guide.add_literal(*l)?;
            let place = self.entries.len();
            self.push(*l, number, Reason::Given)?;
            if let Some(conflict) = self.add_to_net(task, net, place)? {
                let j = self.exclude(alloc, task, net, &conflict)?;
                return Ok(Some(j));
            }
        }
        self.netted = self.entries.len();
        Ok(None)
    }

    // The clause, where it has at most one literal.
    fn take_short<E: Earlier, N: Net>(
        &mut self,
        task: &Task<'_, E>,
        net: &N,
        source: Source,
        count: usize,
    ) -> Result<Tried, AllocError>
        requires state { IsState task.now self.old (N.literals_of net.now) }
        ensures levels { self.new.levels.items ≡ self.old.levels.items }
        ensures taken { IfOk result (IsTried task.now self.new (N.literals_of net.now)) }
    {
        if count > 1 {
            return Ok(Tried::Nothing);
        }
        let near = self.entries.len();
        match self.take_conflict(task, net, source, near) {
            Tried::Stuck(conflict) => Ok(Tried::Stuck(conflict)),
            _ => {
                let number = number_of(&self.guide, source, 0);
                self.take_unit(task, net, source, 0, number)
            }
        }
    }

    // The problem's clauses of one literal.
    fn take_inputs<E: Earlier, N: Net>(
        &mut self,
        task: &Task<'_, E>,
        net: &N,
    ) -> Result<Option<Conflict>, AllocError>
        requires state { IsState task.now self.old (N.literals_of net.now) }
        ensures levels { self.new.levels.items ≡ self.old.levels.items }
        ensures after { IfOk result (IsAfter task.now self.new (N.literals_of net.now)) }
    {
        let clauses = task.problem().clauses.as_slice();
        'clauses: for i in 0..clauses.len() {
            let count = clauses[i].as_slice().len();
            let taken = self.take_short(task, net, Source::Input(i), count)?;
            if let Tried::Stuck(conflict) = taken {
                return Ok(Some(conflict));
            }
        }
        Ok(None)
    }

    // The handed lemmas' clauses, which the guide learns of, and those of one literal.
    fn take_handed<E: Earlier, N: Net>(
        &mut self,
        task: &Task<'_, E>,
        net: &N,
    ) -> Result<Option<Conflict>, AllocError>
        requires state { IsState task.now self.old (N.literals_of net.now) }
        ensures levels { self.new.levels.items ≡ self.old.levels.items }
        ensures after { IfOk result (IsAfter task.now self.new (N.literals_of net.now)) }
    {
        'lemmas: for j in 0..task.count() {
            let clause = task.clause(j);
            self.guide.tell_lemma(j, clause)?;
            let taken = self.take_short(task, net, Source::Lemma(j), clause.len())?;
            if let Tried::Stuck(conflict) = taken {
                return Ok(Some(conflict));
            }
        }
        Ok(None)
    }

    /// The clauses of one literal, of the problem and of the handed lemmas.
    pub fn take_units<E: Earlier, N: Net>(
        &mut self,
        task: &Task<'_, E>,
        net: &N,
    ) -> Result<Option<Conflict>, AllocError>
        requires state { IsState task.now self.old (N.literals_of net.now) }
        ensures levels { self.new.levels.items ≡ self.old.levels.items }
        ensures after { IfOk result (IsAfter task.now self.new (N.literals_of net.now)) }
    {
        if let Some(conflict) = self.take_handed(task, net)? {
            return Ok(Some(conflict));
        }
        let found = self.take_inputs(task, net)?;
        Ok(found)
    }
}
