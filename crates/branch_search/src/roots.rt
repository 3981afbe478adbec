//! Lemmas for what holds without a decision, so that a learned lemma doesn't write its reasons again: each is
//! made once, when a conflict first rests on the literal, and is then the literal's reason.
ghost use Rattle.std.specs.Prelude.{◌≡◌, ◌<◌, length, All, true, Some, IfOk, IfSome, OnOk};
ghost use Rattle.conflict_analysis.specs.Proved.{IsClauseOver};
ghost use Rattle.conflict_analysis.specs.code.Trails.{Follows, IsByClause, IsTrail, Stands, entry_at, on_trail};
ghost use Rattle.branch_search.specs.code.Roots.{denial_of};
ghost use Rattle.branch_search.specs.code.Search.{IsState, all_lemmas};

use crate::both::Both;
use crate::state::State;
use crate::task::Task;
use conflict_analysis::{
    Conflict, Entry, ImplicationGraph, Reason, Source, analyze, is_same, literal_on, reason_on,
    unit_of,
};
use refute_tree::{Earlier, Lemma};
use search_guide::Guide;
use std::alloc::{AllocError, Global};
use std::mem;
use stn_core::{Literal, Literals, Net, negate};

// At which place of the last lemma's clause the literal stands, or 0.
fn place_in(own: &[Lemma], literal: Literal) -> usize {
    let Some(lemma) = own.last() else {
        return 0;
    };
    let clause = lemma.clause.as_slice();
    for q in 0..clause.len() {
        if clause[q] == literal {
            return q;
        }
    }
    0
}

impl State {
    // Whether the literal at the place k of the trail stands at this place of the clause, of which the others are denied before it.
    fn follows_by_clause<E: Earlier>(
        &self,
        task: &Task<'_, E>,
        source: Source,
        place: usize,
        k: usize,
    ) -> bool
        requires within { k < length self.now.entries.items }
        requires lemmas { All (IsClauseOver task.now.problem.points) (all_lemmas task.now.handed self.now.own.items) }
        ensures { result ≡ true → IsByClause task.now.problem.clauses (all_lemmas task.now.handed self.now.own.items)
            (Stands self.now.entries.items k) (on_trail self.now.entries.items k) source place }
    {
        let both = Both {
            task,
            own: self.own.as_slice(),
        };
        let before = &self.entries[..k];
        let Some(unit) = unit_of(task.problem(), &both, &self.guide, before, source, place) else {
            return false;
        };
        is_same(unit, literal_on(&self.entries, k))
    }

    // What the negation of the literal at the place is in conflict with, where the literal follows from others.
    fn denial_conflict<E: Earlier>(
        &self,
        alloc: Global,
        task: &Task<'_, E>,
        k: usize,
    ) -> Result<Option<Conflict>, AllocError>
        requires within { k < length self.now.entries.items }
        requires lemmas { All (IsClauseOver task.now.problem.points) (all_lemmas task.now.handed self.now.own.items) }
        requires trail { IsTrail task.now.problem.clauses (all_lemmas task.now.handed self.now.own.items) task.now.cube
            self.now.entries.items }
        ensures denial { IfOk result (λ found. IfSome found (λ conflict. denial_of (on_trail self.now.entries.items k)
            (entry_at self.now.entries.items k).reason ≡ Some conflict)) }
        ensures follows { IfOk result (λ found. IfSome found (λ _. Follows task.now.problem.clauses
            (all_lemmas task.now.handed self.now.own.items) (Stands self.now.entries.items k)
            (on_trail self.now.entries.items k) (entry_at self.now.entries.items k).reason)) }
    {
        let literal = literal_on(&self.entries, k);
        match reason_on(&self.entries, k) {
            Reason::Given => Ok(None),
            Reason::Decision => Ok(None),
            Reason::Clause(source, place) => {
                if !self.follows_by_clause(task, *source, *place, k) {
                    return Ok(None);
                }
                Ok(Some(Conflict::Clause(*source)))
            }
            Reason::Pair(tighter) => {
                let cycle = vec![in alloc; *tighter, negate(literal)]?;
                Ok(Some(Conflict::Cycle(Literals::new(cycle))))
            }
            Reason::Cycle(cycle) => {
                let copy = Vec::from_slice(alloc, cycle.as_slice())?;
                Ok(Some(Conflict::Cycle(Literals::new(copy))))
            }
        }
    }

    // A lemma for the literal at the place, given the cube: the negation is assumed in its place.
    fn derive<E: Earlier, N: Net>(
        &mut self,
        alloc: Global,
        task: &Task<'_, E>,
        net: &N,
        k: usize,
    ) -> Result<(), AllocError>
        requires within { k < length self.old.entries.items }
        requires state { IsState task.now self.old (N.literals_of net.now) }
        ensures levels { self.new.levels.items ≡ self.old.levels.items }
        ensures entries { OnOk result (self.new.entries.items ≡ self.old.entries.items) }
        ensures state { OnOk result (IsState task.now self.new (N.literals_of net.now)) }
    {
        let Some(conflict) = self.denial_conflict(alloc, task, k)? else {
            return Ok(());
        };
        let denial = Entry {
            literal: negate(literal_on(&self.entries, k)),
            number: Guide::negated(self.entries[k].number),
            reason: Reason::Decision,
        };
        let entry = mem::replace(&mut self.entries[k], denial);
        let both = Both {
            task,
            own: self.own.as_slice(),
        };
        let mut wanted = Vec::new(alloc);
        let graph = ImplicationGraph::new(task.problem(), &both, &self.entries[..k + 1]);
        let lemma = analyze(
            alloc,
            &graph,
            [].as_slice(),
            &mut self.guide,
            &mut self.tables,
            true,
            &conflict,
            &mut wanted,
        )?;
        self.entries[k] = entry;
        self.guide.add_lemma(lemma.clause.as_slice())?;
        self.own.push(lemma)?;
        Ok(())
    }

    // The literal at the place rests on the clause from now on.
    fn rest_on<E: Earlier, N: Net>(&mut self, task: &Task<'_, E>, net: &N, source: Source, k: usize)
        requires within { k < length self.old.entries.items }
        requires state { IsState task.now self.old (N.literals_of net.now) }
        ensures levels { self.new.levels.items ≡ self.old.levels.items }
        ensures state { IsState task.now self.new (N.literals_of net.now) }
    {
        let literal = literal_on(&self.entries, k);
        let place = place_in(&self.own, literal);
        let number = self.entries[k].number;
        self.entries[k] = Entry {
            literal,
            number,
            reason: Reason::Clause(source, place),
        };
    }

    /// Lemmas for the literals at the places, from the first on, where they have none.
    pub fn cite_all<E: Earlier, N: Net>(
        &mut self,
        alloc: Global,
        task: &Task<'_, E>,
        net: &N,
        wanted: &[usize],
    ) -> Result<(), AllocError>
        requires state { IsState task.now self.old (N.literals_of net.now) }
        ensures levels { self.new.levels.items ≡ self.old.levels.items }
        ensures state { OnOk result (IsState task.now self.new (N.literals_of net.now)) }
    {
        'wanted: for k in wanted {
            if *k < self.entries.len() {
                let source = Source::Lemma(task.count() + self.own.len());
                self.derive(alloc, task, net, *k)?;
                self.rest_on(task, net, source, *k);
            }
        }
        Ok(())
    }
}
