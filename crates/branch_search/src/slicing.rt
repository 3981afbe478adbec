//! A slice.
ghost use Rattle.std.specs.Prelude.{◌≡◌, ◌<◌, ◌≤◌, ◌^◌, [], All, length, min, IfOk, OnOk};
ghost use Rattle.stn_core.specs.Literal.{IsOver};
ghost use Rattle.conflict_analysis.specs.Proved.{IsClauseOver};
ghost use Rattle.branch_search.specs.code.Search.{IsState, HasNoClause};
ghost use Rattle.branch_search.specs.Slices.{question_of, AreProved, IsSlice, HasSpent, IsPart, HasSpentByPart};
ghost use Rattle.stn_core.specs.Limits.{adds_limit};
ghost use Rattle.branch_search.specs.code.Turns.{IsFound, IsFoundOrPaused};
ghost use Rattle.branch_search.specs.code.Deliveries.{IsSplitBehind, MayPause};
ghost use Rattle.branch_search.specs.code.Divisions.{IsDivision};

use crate::answer::{Part, Slice};
use crate::conflict::Reaction;
use crate::divide::Division;
use crate::hearing::Hearing;
use crate::search::{Found, Rest};
use crate::state::State;
use crate::task::Task;
use refute_tree::Earlier;
use search_distances::Distances;
use search_guide::{Guide, Policy};
use std::alloc::{AllocError, Global};
use std::sync::Arc;
use stn_core::{Literal, Mark, Net, Problem, Value};
use worker_calls::Calls;

impl State {
    // The cube, the clauses of one literal, and then the search.
    fn begin<E: Earlier, N: Net>(
        &mut self,
        alloc: Global,
        task: &Task<'_, E>,
        net: &mut N,
        rest: Rest,
    ) -> Result<Option<Found>, AllocError>
        requires points { N.points_of net.old ≡ task.now.problem.points }
        requires state { IsState task.now self.old (N.literals_of net.old) }
        requires root { self.old.levels.items ≡ [] }
        requires plain { HasNoClause self.old.entries.items }
        requires empty { N.literals_of net.old ≡ [] }
        requires over { All (IsOver task.now.problem.points) task.now.cube }
        ensures points { N.points_of net.new ≡ N.points_of net.old }
        ensures found { IfOk result (IsFoundOrPaused task.now self.new rest.pauses) }
        ensures counts { OnOk result (min (N.adds_of net.old) adds_limit ≤ N.adds_of net.new) }
    {
        if let Some(j) = self.enter(alloc, task, net)? {
            return Ok(Some(Found::Excluded(j)));
        }
        if let Some(conflict) = self.take_units(task, net)? {
            return match self.react(alloc, task, net, &conflict)? {
                Reaction::Excluded(j) => Ok(Some(Found::Excluded(j))),
                Reaction::Jumped | Reaction::Unsettled => Ok(Some(Found::Spent)),
            };
        }
        let found = self.search(alloc, task, net, rest)?;
        Ok(found)
    }

    // Where to divide the cube. Without a conflict activities say nothing, and a slice is a step of one descent to a
    // schedule.
    fn dividing(&self, cube: &[Literal]) -> Option<(usize, usize)> {
        if self.met_conflict {
            self.guide.dividing(cube)
        } else {
            None
        }
    }

    // The cube, and then what it alone comes to. It is divided at the place, if that does.
    fn finish<E: Earlier, N: Net>(
        &mut self,
        alloc: Global,
        task: &Task<'_, E>,
        net: &mut N,
        place: Option<(usize, usize)>,
    ) -> Result<Division, AllocError>
        requires points { N.points_of net.old ≡ task.now.problem.points }
        requires state { IsState task.now self.old (N.literals_of net.old) }
        requires root { self.old.levels.items ≡ [] }
        requires plain { HasNoClause self.old.entries.items }
        requires empty { N.literals_of net.old ≡ [] }
        requires over { All (IsOver task.now.problem.points) task.now.cube }
        ensures points { N.points_of net.new ≡ N.points_of net.old }
        ensures division { IfOk result (IsDivision task.now self.new.own.items) }
        ensures counts { OnOk result (min (N.adds_of net.old) adds_limit ≤ N.adds_of net.new) }
    {
        if let Some(j) = self.enter(alloc, task, net)? {
            return Ok(Division::Excluded(j));
        }
        let division = self.divide(alloc, task, net, place)?;
        Ok(division)
    }
}

// Adds that change nothing, until the count of adds has reached the target.
fn spend<N: Net>(net: &mut N, problem: &Problem, target: u64) -> Result<(), AllocError>
    requires points { N.points_of net.old ≡ problem.now.points }
    ensures points { N.points_of net.new ≡ N.points_of net.old }
    ensures spent { OnOk result (target ≤ N.adds_of net.new) }
{
    let literal = Literal { x: 0, y: 0, c: 0 };
    let mark = net.mark();
    'adds: while net.adds() < target {
        net.add(literal)?;
        net.retract(mark);
    }
    Ok(())
}

// Where the search found nothing within its budget: the net is emptied, and the cube entered alone.
fn divide_cube<E: Earlier, N: Net>(
    alloc: Global,
    state: &mut State,
    task: &Task<'_, E>,
    net: &mut N,
    target: u64,
) -> Result<Slice, AllocError>
    requires points { N.points_of net.old ≡ task.now.problem.points }
    requires lemmas { All (IsClauseOver task.now.problem.points) task.now.handed }
    requires proved { AreProved task.now state.old.own.items }
    requires over { All (IsOver task.now.problem.points) task.now.cube }
    ensures points { N.points_of net.new ≡ N.points_of net.old }
    ensures answer { IfOk result (IsSlice task.now) }
    ensures spent { OnOk result (target ≤ N.adds_of net.new) }
{
    state.hearing.answer();
    let place = state.dividing(task.cube());
    net.retract(Mark { length: 0 });
    spend(net, task.problem(), target)?;
    net.retract(Mark { length: 0 });
    state.clear();
    let division = state.finish(alloc, task, net, place)?;
    let slice = state.deliver(alloc, task, division)?;
    Ok(slice)
}

// How many decisions a slice may make that carries a plan through: so many that it is carried through.
const IN_PLAN: u64 = 1 << 40;

// How many decisions a slice may make. A decision that adds nothing to the net is cheap, and a script of many
// formulas wants as many as it has names, so that there are far more of them than adds.
fn decisions_of(budget: u64, has_plan: bool) -> u64 {
    if has_plan {
        return IN_PLAN;
    }
    budget.saturating_mul(100).saturating_add(100_000)
}

// The slice's answer, where its search ended so.
fn end<E: Earlier, N: Net>(
    alloc: Global,
    state: &mut State,
    task: &Task<'_, E>,
    net: &mut N,
    target: u64,
    found: Found,
) -> Result<Slice, AllocError>
    requires points { N.points_of net.old ≡ task.now.problem.points }
    requires found { IsFound task.now state.old found }
    requires lemmas { All (IsClauseOver task.now.problem.points) task.now.handed }
    requires over { All (IsOver task.now.problem.points) task.now.cube }
    ensures points { N.points_of net.new ≡ N.points_of net.old }
    ensures answer { IfOk result (IsSlice task.now) }
    ensures spent { IfOk result (IsSplitBehind target (N.adds_of net.new)) }
{
    match found {
        Found::Model(schedule) => {
            let division = Division::Model(schedule);
            let slice = state.deliver(alloc, task, division)?;
            Ok(slice)
        }
        Found::Excluded(j) => {
            let division = Division::Excluded(j);
            let slice = state.deliver(alloc, task, division)?;
            Ok(slice)
        }
        Found::Spent => {
            let slice = divide_cube(alloc, state, task, net, target)?;
            Ok(slice)
        }
    }
}

// A part of the slice, which pauses only where it may.
fn run<E: Earlier, N: Net>(
    alloc: Global,
    state: &mut State,
    task: &Task<'_, E>,
    budget: u64,
    pauses: bool,
    net: &mut N,
) -> Result<Part, AllocError>
    requires points { N.points_of net.old ≡ task.now.problem.points }
    requires empty { N.literals_of net.old ≡ [] }
    requires lemmas { All (IsClauseOver task.now.problem.points) task.now.handed }
    requires over { All (IsOver task.now.problem.points) task.now.cube }
    ensures points { N.points_of net.new ≡ N.points_of net.old }
    ensures answer { IfOk result (IsPart task.now) }
    ensures spent { IfOk result (HasSpentByPart (N.adds_of net.old) budget (N.adds_of net.new)) }
    ensures pauses { IfOk result (MayPause pauses) }
{
    let target = net.adds().saturating_add(budget);
    state.renew(alloc, task)?;
    let rest = Rest {
        decisions: decisions_of(budget, state.guide.has_plan()),
        target,
        pauses,
    };
    match state.begin(alloc, task, net, rest)? {
        Some(found) => {
            let slice = end(alloc, state, task, net, target, found)?;
            Ok(Part::Ended(slice))
        }
        None => {
            let batch = state.hand_over(alloc, task)?;
            Ok(Part::Paused(batch))
        }
    }
}

/// What one worker keeps from slice to slice of one problem: what it has seen of clauses, activities and
/// phases. Kept or not, and whatever a searcher was used for before, a slice answers by the same contract.
pub struct Searcher {
    state: Box<State>,
}

impl Drop for Searcher {
    fn drop(self) {
        let Searcher { state } = self;
        drop(state);
    }
}

impl Searcher {
    /// The one error is want of memory.
    pub fn new(alloc: Global, problem: &Problem) -> Result<Self, AllocError> {
        Searcher::with_policy(alloc, problem, Policy::default())
    }

    /// A searcher that works alone: nobody waits for a half of a cube that it divides. The one error is want of memory.
    pub fn alone(alloc: Global, problem: &Problem) -> Result<Self, AllocError> {
        let policy = Policy {
            shares: false,
            ..Policy::default()
        };
        Searcher::with_policy(alloc, problem, policy)
    }

    /// A searcher that leaves out what the policy says. The one error is want of memory.
    pub fn with_policy(
        alloc: Global,
        problem: &Problem,
        policy: Policy,
    ) -> Result<Self, AllocError> {
        Searcher::hearing(alloc, problem, policy, Hearing::nobody())
    }

    /// A searcher beside others: it ends its slice sooner where nothing is left to do, or where one of them waits for a
    /// half of its cube. The one error is want of memory.
    pub fn beside(alloc: Global, problem: &Problem, calls: Arc<Calls>) -> Result<Self, AllocError> {
        Searcher::hearing(alloc, problem, Policy::default(), Hearing::of(calls))
    }

    fn hearing(
        alloc: Global,
        problem: &Problem,
        policy: Policy,
        hearing: Hearing,
    ) -> Result<Self, AllocError> {
        let guide = Guide::with_policy(alloc, problem, policy)?;
        let distances = Distances::new(alloc, &guide, problem.points)?;
        let state = State::new(alloc, guide, distances, hearing);
        Ok(Searcher {
            state: Box::new(alloc, state)?,
        })
    }

    /// Literals that were never decided are decided as they hold on these values of the first time points: a hint, from a
    /// schedule of a problem that is much the same.
    pub fn follow(&mut self, values: &[Value]) {
        self.state.guide.follow(values);
    }

    /// How many conflicts the slices met, up to 2^64 - 1.
    pub fn conflicts(&self) -> u64 {
        self.state.conflicts
    }

    /// How many decisions they made, up to 2^64 - 1.
    pub fn decisions(&self) -> u64 {
        self.state.decisions
    }

    /// As `slice`.
    pub fn slice<E: Earlier, N: Net>(
        &mut self,
        alloc: Global,
        problem: &Problem,
        handed: &E,
        cube: &[Literal],
        budget: u64,
        net: &mut N,
    ) -> Result<Slice, AllocError>
        requires few { length (E.clauses handed.now) < 2 ^ 63 }
        requires points { N.points_of net.old ≡ problem.now.points }
        requires empty { N.literals_of net.old ≡ [] }
        requires lemmas { All (IsClauseOver problem.now.points) (E.clauses handed.now) }
        requires over { All (IsOver problem.now.points) cube.now }
        ensures points { N.points_of net.new ≡ N.points_of net.old }
        ensures literals { N.literals_of net.new ≡ [] }
        ensures answer { IfOk result (IsSlice (question_of problem.now (E.clauses handed.now) cube.now)) }
        ensures spent { IfOk result (HasSpent (N.adds_of net.old) budget (N.adds_of net.new)) }
    {
        let task = Task::new(problem, handed, cube);
        let result = run(alloc, &mut self.state, &task, budget, false, net);
        net.retract(Mark { length: 0 });
        match result? {
            Part::Ended(slice) => Ok(slice),
            Part::Paused(_) => unreachable!(),
        }
    }

    /// As `slice`, of a searcher beside others: after some hundred conflicts it may pause, so that the others know its
    /// lemmas and it theirs. The next slice of the same cube goes on from there.
    pub fn part<E: Earlier, N: Net>(
        &mut self,
        alloc: Global,
        problem: &Problem,
        handed: &E,
        cube: &[Literal],
        budget: u64,
        net: &mut N,
    ) -> Result<Part, AllocError>
        requires few { length (E.clauses handed.now) < 2 ^ 63 }
        requires points { N.points_of net.old ≡ problem.now.points }
        requires empty { N.literals_of net.old ≡ [] }
        requires lemmas { All (IsClauseOver problem.now.points) (E.clauses handed.now) }
        requires over { All (IsOver problem.now.points) cube.now }
        ensures points { N.points_of net.new ≡ N.points_of net.old }
        ensures literals { N.literals_of net.new ≡ [] }
        ensures answer { IfOk result (IsPart (question_of problem.now (E.clauses handed.now) cube.now)) }
        ensures spent { IfOk result (HasSpentByPart (N.adds_of net.old) budget (N.adds_of net.new)) }
    {
        let task = Task::new(problem, handed, cube);
        let result = run(alloc, &mut self.state, &task, budget, true, net);
        net.retract(Mark { length: 0 });
        result
    }
}

/// A slice of search for a schedule of a problem under a cube: up to so many adds to the net, which has the
/// problem's points and no literal, and has none afterwards. A `Split` comes only where the count of adds has
/// risen by the budget. The lemmas are each refuted over the problem, the handed lemmas and those before it,
/// whatever the search's choices are. The one error is want of memory.
pub fn slice<E: Earlier, N: Net>(
    alloc: Global,
    problem: &Problem,
    handed: &E,
    cube: &[Literal],
    budget: u64,
    net: &mut N,
) -> Result<Slice, AllocError>
    requires few { length (E.clauses handed.now) < 2 ^ 63 }
    requires points { N.points_of net.old ≡ problem.now.points }
    requires empty { N.literals_of net.old ≡ [] }
    requires lemmas { All (IsClauseOver problem.now.points) (E.clauses handed.now) }
    requires over { All (IsOver problem.now.points) cube.now }
    ensures points { N.points_of net.new ≡ N.points_of net.old }
    ensures literals { N.literals_of net.new ≡ [] }
    ensures answer { IfOk result (IsSlice (question_of problem.now (E.clauses handed.now) cube.now)) }
    ensures spent { IfOk result (HasSpent (N.adds_of net.old) budget (N.adds_of net.new)) }
{
    let mut searcher = Searcher::new(alloc, problem)?;
    searcher.slice(alloc, problem, handed, cube, budget, net)
}
