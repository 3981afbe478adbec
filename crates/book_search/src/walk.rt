//! Local search between two slices, and the test of what it finds.
ghost use Rattle.std.specs.Prelude.{◌↔◌, All, IfOk, IfSome, IsTrue};
ghost use Rattle.stn_core.specs.Schedule.{IsInRange};
ghost use Rattle.stn_core.specs.Solution.{IsSolution};

use crate::clauses::all_hold;
use local_search::LocalSearch;
use std::alloc::{AllocError, Global};
use stn_core::{Problem, Schedule, VALUE_LIMIT, Value};

/// For each literal of the problem so many are looked at before it is known whether it is worth going on,
const TRIAL: u64 = 40;

/// and where more clauses than these didn't hold at any time till then, it is given up: on circuits, plans and mutual exclusion there
/// are hundreds, on random problems two or three.
const FAR: usize = 8;

/// Then so many more for each,
const SECOND_TRIAL: u64 = 160;

/// up to which no more than these may be left, and after each look from then on.
const CLOSE: usize = 3;

/// And then so many more for each.
const FIRST: u64 = 400;

/// But no more than these: of a large problem it is known soon.
const MOST_AT_FIRST: u64 = 600_000;

/// And later so many for each add to the net that the slice before could make, which takes as long as a hundred of them.
const FOR_AN_ADD: u64 = 32;

/// So many in all, which takes some 70 ms: what isn't found by then is seldom found at all.
const MOST: u64 = 6_000_000;

/// Of more literals no tables are made.
const MOST_LITERALS: usize = 100_000;

/// One in so many clauses may have one literal.
const FEW_UNITS: usize = 10;

/// So many literals there are for each time point, or more.
const DENSE: usize = 8;

/// The least value that a schedule may have, less one.
const LEAST: Value = -(VALUE_LIMIT as Value);

/// When local search begins.
#[derive(Clone, Copy, PartialEq, Eq)]
enum Begin {
    /// It has begun, or doesn't.
    Never,
    /// Before the first slice, since nothing is known of the problem.
    First,
    /// Once a slice met a conflict.
    Later,
}

/// What local search has come to, from slice to slice.
#[derive(Drop)]
pub(crate) struct Walk {
    begin: Begin,
    /// where it is under way
    search: Option<LocalSearch>,
}

// How many literals the problem has, where local search may find a schedule: where each point is in many clauses, and hardly any has
// one literal alone. In shops, plans and circuits most points stand in chains, of which a change of one point breaks a link.
fn literals_of(problem: &Problem) -> Option<usize> {
    let clauses = problem.clauses.as_slice();
    let mut count = 0usize;
    let mut units = 0usize;
    for clause in clauses {
        let literals = clause.as_slice().len();
        count = count.saturating_add(literals);
        if literals == 1 {
            units = units.saturating_add(1);
        }
    }
    let is_dense = count / DENSE >= problem.points as usize;
    if !is_dense || units > clauses.len() / FEW_UNITS || count > MOST_LITERALS {
        return None;
    }
    Some(count)
}

// A search that seems worth going on with, or that is at its end, and how many literals it may look at yet.
fn begun(alloc: Global, problem: &Problem) -> Result<Option<(LocalSearch, u64)>, AllocError> {
    let Some(literals) = literals_of(problem) else {
        return Ok(None);
    };
    let effort = |each: u64| (literals as u64).saturating_mul(each).min(MOST_AT_FIRST);
    let mut search = LocalSearch::new(alloc, problem)?;
    search.search(effort(TRIAL))?;
    if search.fewest() > FAR {
        return Ok(None);
    }
    search.search(effort(SECOND_TRIAL))?;
    if search.fewest() > CLOSE {
        return Ok(None);
    }
    Ok(Some((search, effort(FIRST))))
}

impl Walk {
    /// Of one that looks for no schedule.
    pub fn never() -> Self {
        Walk {
            begin: Begin::Never,
            search: None,
        }
    }

    /// Of one that looks for a schedule, before the first slice or later.
    pub fn new(is_first: bool) -> Self {
        let begin = if is_first { Begin::First } else { Begin::Later };
        Walk {
            begin,
            search: None,
        }
    }

    /// Whether it comes before the first slice.
    pub fn is_first(&self) -> bool {
        self.begin == Begin::First
    }

    // The search that is under way, or one that begins, and how many literals it may look at beside those that go with the slice.
    fn take(
        &mut self,
        alloc: Global,
        problem: &Problem,
    ) -> Result<Option<(LocalSearch, u64)>, AllocError> {
        if let Some(search) = self.search.take() {
            return Ok(Some((search, 0)));
        }
        let begin = self.begin;
        self.begin = Begin::Never;
        match begin {
            Begin::Never => Ok(None),
            Begin::First | Begin::Later => begun(alloc, problem),
        }
    }

    /// A schedule of the problem, if local search finds one in a time that goes with that of a slice of this budget. The one
    /// error is want of memory.
    pub fn look(
        &mut self,
        alloc: Global,
        problem: &Problem,
        budget: u64,
    ) -> Result<Option<Schedule>, AllocError>
        ensures { IfOk result (λ found. IfSome found (IsSolution problem.now)) }
    {
        let Some((mut search, more)) = self.take(alloc, problem)? else {
            return Ok(None);
        };
        let effort = budget.saturating_mul(FOR_AN_ADD).saturating_add(more);
        let left = MOST.saturating_sub(search.looked_at());
        if search.search(effort.min(left))? {
            return Ok(tested(problem, search.values(alloc)?));
        }
        if search.fewest() <= CLOSE && search.looked_at() < MOST {
            self.search = Some(search);
        }
        Ok(None)
    }
}

// Whether a schedule may have the value.
fn is_in_range(value: &Value) -> bool
    ensures { IsTrue result ↔ IsInRange value.now }
{
    LEAST < *value && *value <= 0
}

// Whether it may have all of them.
fn are_in_range(values: &[Value]) -> bool
    ensures { IsTrue result ↔ All IsInRange values.now }
{
    values.iter().all(|value| is_in_range(value))
}

// The values as a schedule, where they are one of the problem.
fn tested(problem: &Problem, values: Vec<Value>) -> Option<Schedule>
    ensures { IfSome result (IsSolution problem.now) }
{
    if values.len() != problem.points as usize || !are_in_range(values.as_slice()) {
        return None;
    }
    if !all_hold(problem.clauses.as_slice(), values.as_slice()) {
        return None;
    }
    Some(Schedule::new(values))
}
