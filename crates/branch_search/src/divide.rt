//! The end of a slice: with the cube alone, whether a clause has no literal that is consistent with it, and
//! what to split on.
ghost use Rattle.std.specs.Prelude.{◌≡◌, ◌<◌, ◌≤◌, ◌+◌, ◌++◌, ◌∷◌, [], All, length, min, true, IfOk, OnOk};
ghost use Rattle.std.specs.Prelude.{IfSome};
ghost use Rattle.stn_core.specs.Literal.{IsOver, negation_of};
ghost use Rattle.stn_core.specs.Net.{IsConsistent};
ghost use Rattle.conflict_analysis.specs.declared.entry.Reason.TheVariants.{Cycle as ByCycle};
ghost use Rattle.branch_search.specs.code.Search.{IsState, HasNoClause};
ghost use Rattle.stn_core.specs.Limits.{adds_limit};
ghost use Rattle.branch_search.specs.code.Divisions.{IsLiveAt, IsLiveness, AreLive, IsDivision, Divides};
ghost use Rattle.stn_core.specs.Solution.{IsAtom};

use crate::clauses::false_clause;
use crate::state::State;
use crate::task::Task;
use conflict_analysis::{Conflict, Reason, Source, clause_of, is_over};
use refute_tree::Earlier;
use std::alloc::{AllocError, Global};
use stn_core::{Added, Literal, Literals, Net, Problem, Schedule, negate};

/// What the cube alone comes to.
#[derive(Drop)]
pub enum Division {
    Model(Schedule),
    Excluded(usize),
    Split(Literal),
}

/// Whether a clause has a literal that is consistent with the cube.
#[derive(Clone, Copy)]
pub enum Live {
    /// The one at this place.
    At(usize),
    /// None, and so the lemma with this number excludes the cube.
    Nowhere(usize),
}

// Whether the literal is within the limits and consistent with the net's.
fn is_consistent<N: Net>(net: &mut N, literal: Literal) -> Result<bool, AllocError>
    ensures points { N.points_of net.new ≡ N.points_of net.old }
    ensures literals { OnOk result (N.literals_of net.new ≡ N.literals_of net.old) }
    ensures consistent { IfOk result (λ b. b ≡ true → IsConsistent (N.points_of net.old)
        (N.literals_of net.old ++ literal ∷ [])) }
    ensures counts { OnOk result (min (N.adds_of net.old) adds_limit ≤ N.adds_of net.new) }
{
    if !is_over(literal, net.points()) {
        return Ok(false);
    }
    let mark = net.mark();
    match net.add(literal)? {
        Added::Yes => {
            net.retract(mark);
            Ok(true)
        }
        Added::Cycle(_) => Ok(false),
    }
}

// The literal at a place of a clause of the problem, if there is one.
fn literal_of(problem: &Problem, place: Option<(usize, usize)>) -> Option<Literal>
    ensures { IfSome result (IsAtom problem.now) }
{
    let (clause, place) = place?;
    let clauses = problem.clauses.as_slice();
    if clause < clauses.len() && place < clauses[clause].as_slice().len() {
        Some(clauses[clause].as_slice()[place])
    } else {
        None
    }
}

// The literal at the place, if it and its negation are each consistent with the net's.
fn divides_at<N: Net>(
    problem: &Problem,
    net: &mut N,
    place: Option<(usize, usize)>,
) -> Result<Option<Literal>, AllocError>
    ensures points { N.points_of net.new ≡ N.points_of net.old }
    ensures literals { OnOk result (N.literals_of net.new ≡ N.literals_of net.old) }
    ensures divides { IfOk result (λ found. IfSome found
        (Divides (N.points_of net.old) problem.now (N.literals_of net.old))) }
    ensures counts { OnOk result (min (N.adds_of net.old) adds_limit ≤ N.adds_of net.new) }
{
    let Some(literal) = literal_of(problem, place) else {
        return Ok(None);
    };
    if is_consistent(net, literal)? && is_consistent(net, negate(literal))? {
        Ok(Some(literal))
    } else {
        Ok(None)
    }
}

impl State {
    // The negation of a literal that closes a cycle with the net's.
    fn deny(&mut self, literal: Literal, cycle: Literals) -> Result<(), AllocError>
        ensures levels { self.new.levels.items ≡ self.old.levels.items }
        ensures own { self.new.own.items ≡ self.old.own.items }
        ensures entries { OnOk result (self.new.entries.items ≡ self.old.entries.items
            ++ record { literal = negation_of literal; number = 0; reason = ByCycle cycle } ∷ []) }
    {
        self.push(negate(literal), 0, Reason::Cycle(cycle))
    }

    // The first literal of the clause that is consistent with the net; those before it are denied on the
    // trail.
    fn live_place<E: Earlier, N: Net>(
        &mut self,
        task: &Task<'_, E>,
        net: &mut N,
        clause: &[Literal],
    ) -> Result<Option<usize>, AllocError>
        requires over { All (IsOver (N.points_of net.old)) clause.now }
        requires points { N.points_of net.old ≡ task.now.problem.points }
        requires state { IsState task.now self.old (N.literals_of net.old) }
        requires plain { HasNoClause self.old.entries.items }
        ensures points { N.points_of net.new ≡ N.points_of net.old }
        ensures literals { N.literals_of net.new ≡ N.literals_of net.old }
        ensures levels { self.new.levels.items ≡ self.old.levels.items }
        ensures own { self.new.own.items ≡ self.old.own.items }
        ensures plain { OnOk result (HasNoClause self.new.entries.items) }
        ensures state { IfOk result (λ _. IsState task.now self.new (N.literals_of net.new)) }
        ensures live { IfOk result (IsLiveAt (N.points_of net.old) (N.literals_of net.old)
            self.new.entries.items clause.now) }
        ensures counts { OnOk result (min (N.adds_of net.old) adds_limit ≤ N.adds_of net.new) }
    {
        let mark = net.mark();
        for q in 0..clause.len() {
            match net.add(clause[q])? {
                Added::Yes => {
                    net.retract(mark);
                    return Ok(Some(q));
                }
                Added::Cycle(cycle) => self.deny(clause[q], cycle)?,
            }
        }
        Ok(None)
    }

    // Whether a clause has no literal that is consistent with the cube: then a lemma excludes the cube.
    fn check_live<E: Earlier, N: Net>(
        &mut self,
        alloc: Global,
        task: &Task<'_, E>,
        net: &mut N,
        i: usize,
    ) -> Result<Live, AllocError>
        requires points { N.points_of net.old ≡ task.now.problem.points }
        requires state { IsState task.now self.old (N.literals_of net.old) }
        requires root { self.old.levels.items ≡ [] }
        requires plain { HasNoClause self.old.entries.items }
        requires within { i < length task.now.problem.clauses }
        ensures points { N.points_of net.new ≡ N.points_of net.old }
        ensures literals { N.literals_of net.new ≡ N.literals_of net.old }
        ensures levels { self.new.levels.items ≡ self.old.levels.items }
        ensures plain { OnOk result (HasNoClause self.new.entries.items) }
        ensures live { IfOk result (IsLiveness task.now self.new (N.literals_of net.new) i) }
        ensures counts { OnOk result (min (N.adds_of net.old) adds_limit ≤ N.adds_of net.new) }
    {
        let clause = clause_of(task.problem(), task.handed(), Source::Input(i));
        match self.live_place(task, net, clause)? {
            Some(place) => Ok(Live::At(place)),
            None => {
                let conflict = Conflict::Clause(Source::Input(i));
                let j = self.exclude(alloc, task, net, &conflict)?;
                Ok(Live::Nowhere(j))
            }
        }
    }

    // All clauses so.
    fn check_all<E: Earlier, N: Net>(
        &mut self,
        alloc: Global,
        task: &Task<'_, E>,
        net: &mut N,
    ) -> Result<Option<usize>, AllocError>
        requires points { N.points_of net.old ≡ task.now.problem.points }
        requires state { IsState task.now self.old (N.literals_of net.old) }
        requires root { self.old.levels.items ≡ [] }
        requires plain { HasNoClause self.old.entries.items }
        ensures points { N.points_of net.new ≡ N.points_of net.old }
        ensures literals { N.literals_of net.new ≡ N.literals_of net.old }
        ensures levels { self.new.levels.items ≡ self.old.levels.items }
        ensures plain { OnOk result (HasNoClause self.new.entries.items) }
        ensures live { IfOk result (AreLive task.now self.new (N.literals_of net.new)) }
        ensures counts { OnOk result (min (N.adds_of net.old) adds_limit ≤ N.adds_of net.new) }
    {
        let count = task.problem().clauses.as_slice().len();
        for i in 0..count {
            match self.check_live(alloc, task, net, i)? {
                Live::At(_) => {}
                Live::Nowhere(j) => return Ok(Some(j)),
            }
        }
        Ok(None)
    }

    /// The cube alone, of which the net has the literals. It is divided by the literal at the place of a clause of the
    /// problem, where that does, and else by one of the first clause that doesn't hold on the net's schedule.
    pub fn divide<E: Earlier, N: Net>(
        &mut self,
        alloc: Global,
        task: &Task<'_, E>,
        net: &mut N,
        place: Option<(usize, usize)>,
    ) -> Result<Division, AllocError>
        requires points { N.points_of net.old ≡ task.now.problem.points }
        requires state { IsState task.now self.old (N.literals_of net.old) }
        requires root { self.old.levels.items ≡ [] }
        requires plain { HasNoClause self.old.entries.items }
        requires cube { N.literals_of net.old ≡ task.now.cube }
        ensures points { N.points_of net.new ≡ N.points_of net.old }
        ensures division { IfOk result (IsDivision task.now self.new.own.items) }
        ensures counts { OnOk result (min (N.adds_of net.old) adds_limit ≤ N.adds_of net.new) }
    {
        let problem = task.problem();
        if let Some(j) = self.check_all(alloc, task, net)? {
            return Ok(Division::Excluded(j));
        }
        let values = net.schedule();
        let Some(i) = false_clause(problem.clauses.as_slice(), values, 0) else {
            let schedule = Schedule::new(Vec::from_slice(alloc, values)?);
            return Ok(Division::Model(schedule));
        };
        if let Some(literal) = divides_at(problem, net, place)? {
            return Ok(Division::Split(literal));
        }
        match self.check_live(alloc, task, net, i)? {
            Live::At(place) => {
                let literal = clause_of(problem, task.handed(), Source::Input(i))[place];
                Ok(Division::Split(literal))
            }
            Live::Nowhere(j) => Ok(Division::Excluded(j)),
        }
    }
}
