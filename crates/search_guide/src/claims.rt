//! Which claims a plan for operations on one machine learns (`load_set.rt`), and in which order. A claim says that of a
//! set of operations one ends later than a time.
use crate::loads::Operation;
use crate::numbers::narrow;
use std::alloc::{AllocError, Global};

/// There is a plan for at most so many operations, of at most so many claims.
pub const MOST_OPERATIONS: usize = 16;

const MOST_CLAIMS: usize = 25_000;

/// The claim of fewer operations follows without a plan.
const LEAST_SET: u32 = 3;

/// No claim of the set is wanted.
const UNWANTED: i64 = i64::MIN;

/// One of the operations ends later than the time.
#[derive(Clone, Copy, PartialEq, Eq, PartialOrd, Ord)]
pub struct Claim {
    pub time: i64,
    /// a bit for each operation
    pub set: u32,
    /// the same of the set without the operation that can start latest: one of these ends later than it starts
    pub without_set: u32,
    pub without_time: i64,
}

/// The claims that a plan learns, those at earlier times first: a claim rests on claims at earlier times.
pub struct Claims {
    list: Vec<Claim>,
    /// for each set the time of its claim, and the set whose claim is learned in its place
    times: Vec<i64>,
    instead: Vec<u32>,
}

impl Drop for Claims {
    fn drop(self) {
        let Claims {
            list,
            times,
            instead,
        } = self;
        drop(list);
        drop(times);
        drop(instead);
    }
}

impl Claims {
    pub fn none(alloc: Global) -> Self {
        Claims {
            list: Vec::new(alloc),
            times: Vec::new(alloc),
            instead: Vec::new(alloc),
        }
    }

    pub fn as_slice(&self) -> &[Claim] {
        &self.list
    }

    /// Which set's claim at which time stands for the set without the operation.
    pub fn below(&self, set: u32, place: usize) -> (u32, i64) {
        let smaller = learned(&self.instead, set & !only(place));
        let time = self.times.get(smaller as usize).copied();
        (smaller, time.unwrap_or(UNWANTED))
    }
}

/// The set whose claim is learned in place of this one's.
fn learned(instead: &[u32], set: u32) -> u32 {
    let mut learned = set;
    for _turn in 0..MOST_OPERATIONS {
        let next = instead.get(learned as usize).copied().unwrap_or(0);
        if next == learned {
            return learned;
        }
        learned = next;
    }
    0
}

/// Whether the set has the operation.
pub fn has(set: u32, place: usize) -> bool {
    place < MOST_OPERATIONS && set >> place & 1 == 1
}

/// The set of the one operation.
fn only(place: usize) -> u32 {
    if place < MOST_OPERATIONS {
        1 << place
    } else {
        0
    }
}

/// The latest start of an operation that is over by the time.
fn latest_start(operation: &Operation, time: i64) -> i64 {
    operation.end.min(time).saturating_sub(operation.duration)
}

/// Which claims are wanted of sets of some operations, and when.
#[derive(Drop)]
struct Wanted<'a> {
    operations: &'a [Operation],
    /// for each set the greatest time at which its claim is wanted, and the set whose claim is learned in its place
    times: Vec<i64>,
    instead: Vec<u32>,
}

impl<'a> Wanted<'a> {
    fn time(&self, set: u32) -> i64 {
        self.times.get(set as usize).copied().unwrap_or(UNWANTED)
    }

    fn want(&mut self, set: u32, time: i64) {
        if let Some(slot) = self.times.get_mut(set as usize) {
            *slot = time.max(*slot);
        }
    }

    /// Whether one operation's earliest end is later than that.
    fn is_plain(&self, set: u32, time: i64) -> bool {
        for (place, operation) in self.operations.iter().enumerate() {
            if has(set, place) && operation.head.saturating_add(operation.duration) > time {
                return true;
            }
        }
        false
    }

    /// A smaller set with too much work up to the time: of the operations that start late, without short ones.
    fn narrowed(&self, set: u32, time: i64) -> u32 {
        let mut late = 0u32;
        let mut sum = 0i64;
        let mut over = 0i64;
        for (place, operation) in self.operations.iter().enumerate().rev() {
            if over <= 0 && has(set, place) {
                late |= only(place);
                sum = sum.saturating_add(operation.duration);
                over = operation.head.saturating_add(sum).saturating_sub(time);
            }
        }
        self.without_short(late, over)
    }

    /// Without its shortest operations, whose work is less than that.
    fn without_short(&self, set: u32, over: i64) -> u32 {
        let mut long = set;
        let mut left = over;
        for _turn in 0..self.operations.len() {
            let mut shortest = left;
            let mut found = None;
            for (place, operation) in self.operations.iter().enumerate() {
                if has(long, place) && operation.duration < shortest {
                    shortest = operation.duration;
                    found = Some(place);
                }
            }
            let Some(place) = found else {
                return long;
            };
            long &= !only(place);
            left = left.saturating_sub(shortest);
        }
        long
    }

    /// What the claim of the set rests on is wanted.
    fn want_below(&mut self, set: u32) {
        let time = self.time(set);
        for place in 0..self.operations.len() {
            if let (true, Some(operation)) = (has(set, place), self.operations.get(place)) {
                let start = latest_start(operation, time);
                self.want(set & !only(place), start);
            }
        }
    }

    /// Looks at the set, after all that are greater; whether its claim is one to be learned.
    fn look_at(&mut self, set: u32) -> bool {
        let time = self.time(set);
        if time == UNWANTED || self.is_plain(set, time) {
            return false;
        }
        let smaller = self.narrowed(set, time);
        if let Some(slot) = self.instead.get_mut(set as usize) {
            *slot = smaller;
        }
        if smaller != set {
            self.want(smaller, time);
            return false;
        }
        self.want_below(set);
        true
    }

    /// Looks at all sets, the greatest first; how many claims there are.
    fn look(&mut self) -> usize {
        let mut count = 0usize;
        for set in (1..narrow(self.times.len())).rev() {
            if self.look_at(set) {
                count = count.saturating_add(1);
            }
        }
        count
    }

    /// The claim of a set.
    fn claim(&self, set: u32) -> Claim {
        let time = self.time(set);
        let mut latest = i64::MIN;
        let mut last = 0usize;
        for (place, operation) in self.operations.iter().enumerate() {
            let start = latest_start(operation, time);
            if has(set, place) && start > latest {
                latest = start;
                last = place;
            }
        }
        let without_set = learned(&self.instead, set & !only(last));
        Claim {
            set,
            time,
            without_set,
            without_time: self.time(without_set),
        }
    }
}

/// The claims that are to be learned; none where they are too many.
pub fn claims_of(alloc: Global, operations: &[Operation]) -> Result<Claims, AllocError> {
    let mut list = Vec::new(alloc);
    let count = operations.len().min(MOST_OPERATIONS);
    let sets = 1u32 << count;
    let mut wanted = Wanted {
        operations,
        times: vec![in alloc; UNWANTED; sets as usize]?,
        instead: vec![in alloc; 0u32; sets as usize]?,
    };
    let mut time = i64::MIN;
    for operation in operations {
        time = time.max(operation.end);
    }
    wanted.want(sets - 1, time);
    if wanted.look() > MOST_CLAIMS {
        return Ok(Claims::none(alloc));
    }
    for set in 1..sets {
        let is_wanted = wanted.time(set) > UNWANTED && set.count_ones() >= LEAST_SET;
        if is_wanted && wanted.instead.get(set as usize).copied() == Some(set) {
            list.push(wanted.claim(set))?;
        }
    }
    list.sort_unstable();
    let Wanted {
        operations: _,
        times,
        instead,
    } = wanted;
    Ok(Claims {
        list,
        times,
        instead,
    })
}
