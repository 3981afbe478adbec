//! Operations of one machine: points of which clauses of two literals say, pair by pair, that one starts no sooner than
//! the other ends. Where unit clauses leave some of them less time, from the earliest start to the latest end, than their
//! durations take together, there is no schedule.
use crate::boxes::{Pair, origin_of, pair_of, units_of};
use std::alloc::{AllocError, Global};
use std::collections::HashMap;
use stn_core::{BOUND_LIMIT, Clause, Literal, Problem};

/// More pairs aren't looked at.
const MOST_PAIRS: usize = 50_000;

/// How often bounds are passed on along all unit clauses.
const ROUNDS: usize = 8;

/// More operations on one machine aren't looked at.
const MOST_OPERATIONS: usize = 40;

/// An operation with what is known of it at the root.
#[derive(Clone, Copy, PartialEq, Eq, PartialOrd, Ord)]
pub struct Operation {
    /// the earliest start above the origin
    pub head: i64,
    /// the latest end
    pub end: i64,
    pub duration: i64,
    pub point: u32,
}

/// Operations on one machine that take more time than there is, those that start later last.
#[derive(Drop)]
pub struct Overload {
    pub origin: u32,
    pub operations: Vec<Operation>,
}

/// How long the operations of a pair take, the one with the smaller number first.
#[derive(Clone, Copy)]
struct Gap {
    one: i64,
    other: i64,
}

/// The bounds of the points above the origin.
#[derive(Drop)]
struct Windows {
    lowers: Vec<i64>,
    uppers: Vec<i64>,
}

impl Windows {
    fn new(alloc: Global, points: u32, origin: u32) -> Result<Self, AllocError> {
        let mut windows = Windows {
            lowers: vec![in alloc; i64::MIN; points as usize]?,
            uppers: vec![in alloc; i64::MAX; points as usize]?,
        };
        if let Some(lower) = windows.lowers.get_mut(origin as usize) {
            *lower = 0;
        }
        if let Some(upper) = windows.uppers.get_mut(origin as usize) {
            *upper = 0;
        }
        Ok(windows)
    }

    fn lower(&self, point: u32) -> i64 {
        self.lowers.get(point as usize).copied().unwrap_or(i64::MIN)
    }

    fn upper(&self, point: u32) -> i64 {
        self.uppers.get(point as usize).copied().unwrap_or(i64::MAX)
    }

    /// What the unit passes on; whether that is new.
    fn pass(&mut self, unit: Literal) -> bool {
        let mut is_new = false;
        let upper = self.upper(unit.y);
        if upper < i64::MAX {
            let upper = upper.saturating_add(unit.c);
            if let Some(slot) = self.uppers.get_mut(unit.x as usize) {
                if upper < *slot {
                    *slot = upper;
                    is_new = true;
                }
            }
        }
        let lower = self.lower(unit.x);
        if lower > i64::MIN {
            let lower = lower.saturating_sub(unit.c);
            if let Some(slot) = self.lowers.get_mut(unit.y as usize) {
                if lower > *slot {
                    *slot = lower;
                    is_new = true;
                }
            }
        }
        is_new
    }

    /// Along all of them, forth and back, so that chains are passed at once whichever way they were written.
    fn pass_all(&mut self, units: &[Literal]) {
        for _round in 0..ROUNDS {
            let mut is_new = false;
            for unit in units {
                is_new = self.pass(*unit) || is_new;
            }
            for place in (0..units.len()).rev() {
                if let Some(unit) = units.get(place) {
                    is_new = self.pass(*unit) || is_new;
                }
            }
            if !is_new {
                return;
            }
        }
    }

    /// The operation at the point, where it has both bounds.
    fn operation(&self, point: u32, duration: i64) -> Option<Operation> {
        let head = self.lower(point);
        let upper = self.upper(point);
        let limit = BOUND_LIMIT as i64;
        if head < -limit || upper > limit || duration > limit {
            return None;
        }
        Some(Operation {
            head,
            end: upper.saturating_add(duration),
            duration,
            point,
        })
    }
}

/// Such operations of the problem, where this literal is assumed too: few of them if there is a choice.
pub fn find(
    alloc: Global,
    problem: &Problem,
    assumed: Option<Literal>,
) -> Result<Option<Overload>, AllocError> {
    let clauses = problem.clauses.as_slice();
    let mut gaps = HashMap::new(alloc);
    let pairs = pairs_of(alloc, clauses, &mut gaps)?;
    if pairs.is_empty() || pairs.len() > MOST_PAIRS {
        return Ok(None);
    }
    let mut units = units_of(alloc, clauses)?;
    if let Some(literal) = assumed {
        units.push(literal)?;
    }
    let origin = origin_of(alloc, problem.points, &units)?;
    let mut windows = Windows::new(alloc, problem.points, origin)?;
    windows.pass_all(&units);
    let mut seen = HashMap::new(alloc);
    let mut best = Vec::new(alloc);
    for place in 0..pairs.len() {
        let machine = machine_at(alloc, &pairs, place, &gaps, &mut seen)?;
        let operations = operations_of(alloc, &windows, &machine, &gaps)?;
        let found = overloaded(alloc, &operations)?;
        if !found.is_empty() && (best.is_empty() || found.len() < best.len()) {
            best = found;
        }
    }
    if best.is_empty() {
        return Ok(None);
    }
    Ok(Some(Overload {
        origin,
        operations: best,
    }))
}

/// The pairs of points one of which is to stand before the other, in their order, and how long they take.
fn pairs_of(
    alloc: Global,
    clauses: &[Clause],
    gaps: &mut HashMap<Pair, Gap>,
) -> Result<Vec<Pair>, AllocError> {
    let mut pairs = Vec::new(alloc);
    for clause in clauses {
        if let [one, other] = clause.as_slice() {
            if one.x == other.y && one.y == other.x && one.c < 0 && other.c < 0 {
                let pair = pair_of(one.x, one.y);
                pairs.push(pair)?;
                gaps.insert(pair, gap_of(pair, *one, *other))?;
            }
        }
    }
    pairs.sort_unstable();
    Ok(pairs)
}

/// How long the points of the pair take by the clause of these two literals.
fn gap_of(pair: Pair, one: Literal, other: Literal) -> Gap {
    let first = 0i64.saturating_sub(one.c);
    let second = 0i64.saturating_sub(other.c);
    if pair.one == one.x {
        Gap {
            one: first,
            other: second,
        }
    } else {
        Gap {
            one: second,
            other: first,
        }
    }
}

/// The points of a machine, where the pair at the place wasn't seen on another one: the two of it, and each further one
/// that is in a pair with the first and with all before.
fn machine_at(
    alloc: Global,
    pairs: &[Pair],
    place: usize,
    gaps: &HashMap<Pair, Gap>,
    seen: &mut HashMap<Pair, ()>,
) -> Result<Vec<u32>, AllocError> {
    let mut machine = Vec::new(alloc);
    let Some(first) = pairs.get(place) else {
        return Ok(machine);
    };
    if seen.get(first).is_some() {
        return Ok(machine);
    }
    machine.push(first.one)?;
    for pair in &pairs[place..] {
        if pair.one != first.one {
            break;
        }
        if machine.len() < MOST_OPERATIONS
            && machine
                .iter()
                .all(|point| gaps.get(&pair_of(*point, pair.other)).is_some())
        {
            machine.push(pair.other)?;
        }
    }
    for one in &machine {
        for other in &machine {
            if one < other {
                seen.insert(pair_of(*one, *other), ())?;
            }
        }
    }
    Ok(machine)
}

/// How long the operation takes at least, before each of the others.
fn duration_of(point: u32, machine: &[u32], gaps: &HashMap<Pair, Gap>) -> i64 {
    let mut duration = i64::MAX;
    for other in machine {
        if let Some(gap) = gaps.get(&pair_of(point, *other)) {
            let gap = if point < *other { gap.one } else { gap.other };
            duration = duration.min(gap);
        }
    }
    duration
}

/// The machine's operations that have both bounds, in the order of their heads.
fn operations_of(
    alloc: Global,
    windows: &Windows,
    machine: &[u32],
    gaps: &HashMap<Pair, Gap>,
) -> Result<Vec<Operation>, AllocError> {
    let mut operations = Vec::new(alloc);
    for point in machine {
        let duration = duration_of(*point, machine, gaps);
        if let Some(operation) = windows.operation(*point, duration) {
            operations.push(operation)?;
        }
    }
    operations.sort_unstable();
    Ok(operations)
}

/// How much time the operations between these bounds are short of, and how many they are; less than 1 where there is
/// enough.
fn shortage(operations: &[Operation], head: i64, end: i64) -> (i64, usize) {
    let mut sum = head;
    let mut count = 0usize;
    for operation in operations {
        if operation.head >= head && operation.end <= end {
            sum = sum.saturating_add(operation.duration);
            count = count.saturating_add(1);
        }
    }
    (sum.saturating_sub(end), count)
}

/// The fewest operations between two bounds that have too little time; none where there are none.
fn overloaded(alloc: Global, operations: &[Operation]) -> Result<Vec<Operation>, AllocError> {
    let mut fewest = usize::MAX;
    let mut bounds = (0, 0);
    for first in operations {
        for last in operations {
            let (short, count) = shortage(operations, first.head, last.end);
            if short > 0 && count < fewest {
                fewest = count;
                bounds = (first.head, last.end);
            }
        }
    }
    let mut found = Vec::new(alloc);
    if fewest < usize::MAX {
        for operation in operations {
            if operation.head >= bounds.0 && operation.end <= bounds.1 {
                found.push(*operation)?;
            }
        }
    }
    Ok(found)
}
