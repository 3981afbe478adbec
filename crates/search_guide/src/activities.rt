//! Activities: which atom is decided next. Each atom of a conflict gains by an increment that grows by 1/0.92
//! with each conflict, so that the gains of the past count less and less (Moskewicz and others 2001, in the
//! form of Een and Sorensson 2003). Open atoms stand in a heap, the most active one first. At first an atom
//! has a little for each clause that it is in, the more the shorter the clause, so that atoms of tight
//! clauses come first; one conflict outweighs that. Branching only on clauses that are false on the schedule,
//! without activities, took over 40 times as long. Where there are many atoms, 0.95 stands for 0.92, which takes
//! 0.6 to 1 of its time on smaller problems, but over 4 times its time on job shops of 1,200 tasks; and where hardly
//! anything follows by distances 0.88 does, with which random problems take 1.5 times as long.
use crate::numbers::{LiteralNumber, MANY_ATOMS, atom_of, narrow};
use std::alloc::{AllocError, Global};

/// The increment is divided by this at each conflict.
const DECAY: f64 = 0.92;

/// And where there are many atoms.
const SLOW_DECAY: f64 = 0.95;

/// And where clauses alone lead to most conflicts.
const FAST_DECAY: f64 = 0.88;

/// Where an activity goes past this, all are scaled down.
const LARGE: f64 = 1e100;

const SCALE: f64 = 1e-100;

/// What a clause of one literal gives its atom at first, where a conflict gives 1.
const FIRST: f64 = 1e-6;

pub struct Activities {
    activities: Vec<f64>,
    increment: f64,
    /// atoms, each at least as active as the two below it (at 2k + 1 and 2k + 2)
    heap: Vec<u32>,
    /// for each atom where it stands in the heap, if it stands there
    places: Vec<u32>,
}

impl Drop for Activities {
    fn drop(self) {
        let Activities {
            activities,
            increment,
            heap,
            places,
        } = self;
        drop(activities);
        drop(increment);
        drop(heap);
        drop(places);
    }
}

impl Activities {
    pub fn new(alloc: Global) -> Self {
        Activities {
            activities: Vec::new(alloc),
            increment: 1.0,
            heap: Vec::new(alloc),
            places: Vec::new(alloc),
        }
    }

    /// One more atom, at the heap's end.
    pub fn push(&mut self) -> Result<(), AllocError> {
        let atom = self.activities.len();
        self.activities.push(0.0)?;
        self.places.push(0)?;
        self.enter(atom)
    }

    fn activity(&self, atom: u32) -> f64 {
        match self.activities.get(atom as usize) {
            Some(activity) => *activity,
            None => 0.0,
        }
    }

    /// The activity of the literal's atom.
    pub fn of(&self, number: LiteralNumber) -> f64 {
        self.activity(narrow(atom_of(number)))
    }

    /// What a literal of a clause of the problem gains before the search. The heap isn't put in order.
    pub fn count_clause(&mut self, number: LiteralNumber, length: usize) {
        if let Some(activity) = self.activities.get_mut(atom_of(number)) {
            let shares = if length < 1_000_000 {
                length as u32
            } else {
                1_000_000
            };
            *activity += FIRST / f64::from(shares);
        }
    }

    /// Puts the whole heap in order.
    pub fn order(&mut self) {
        for turn in 0..self.heap.len() {
            let place = self.heap.len().saturating_sub(turn).saturating_sub(1);
            self.sink(place);
        }
    }

    fn put(&mut self, place: usize, atom: u32) {
        if let Some(slot) = self.heap.get_mut(place) {
            *slot = atom;
        }
        if let Some(slot) = self.places.get_mut(atom as usize) {
            *slot = narrow(place);
        }
    }

    /// The atom at a place goes up to where it belongs.
    fn rise(&mut self, place: usize) {
        let Some(atom) = self.heap.get(place).copied() else {
            return;
        };
        let activity = self.activity(atom);
        let mut place = place;
        while place > 0 {
            let above = (place - 1) / 2;
            let Some(other) = self.heap.get(above).copied() else {
                return;
            };
            if self.activity(other) >= activity {
                break;
            }
            self.put(place, other);
            place = above;
        }
        self.put(place, atom);
    }

    /// The more active of the two atoms below a place, with its place.
    fn below(&self, place: usize) -> Option<(usize, u32)> {
        let left = place.saturating_mul(2).saturating_add(1);
        let right = left.saturating_add(1);
        let first = self.heap.get(left).copied()?;
        match self.heap.get(right).copied() {
            Some(second) if self.activity(second) > self.activity(first) => Some((right, second)),
            _ => Some((left, first)),
        }
    }

    /// The atom at a place goes down to where it belongs.
    fn sink(&mut self, place: usize) {
        let Some(atom) = self.heap.get(place).copied() else {
            return;
        };
        let activity = self.activity(atom);
        let mut place = place;
        for _level in 0..usize::BITS {
            let Some((next, other)) = self.below(place) else {
                break;
            };
            if self.activity(other) <= activity {
                break;
            }
            self.put(place, other);
            place = next;
        }
        self.put(place, atom);
    }

    fn place_of(&self, atom: usize) -> Option<usize> {
        let place = *self.places.get(atom)? as usize;
        if *self.heap.get(place)? as usize == atom {
            Some(place)
        } else {
            None
        }
    }

    /// The atom stands in the heap from now on.
    fn enter(&mut self, atom: usize) -> Result<(), AllocError> {
        if self.place_of(atom).is_some() {
            return Ok(());
        }
        let place = self.heap.len();
        self.heap.push(narrow(atom))?;
        self.rise(place);
        Ok(())
    }

    /// The most active atom in the heap.
    pub fn top(&self) -> Option<u32> {
        self.heap.first().copied()
    }

    /// Whether the literal's atom is more active than the other one.
    pub fn is_before(&self, number: LiteralNumber, other: u32) -> bool {
        self.activity(narrow(atom_of(number))) > self.activity(other)
    }

    /// Takes the most active atom out of the heap.
    pub fn pop(&mut self) {
        let Some(last) = self.heap.pop() else {
            return;
        };
        if !self.heap.is_empty() {
            self.put(0, last);
            self.sink(0);
        }
    }

    /// The literal's atom is open again.
    pub fn reopen(&mut self, number: LiteralNumber) {
        let _ = self.enter(atom_of(number));
    }

    pub fn bump(&mut self, number: LiteralNumber) {
        let atom = atom_of(number);
        let mut large = false;
        if let Some(activity) = self.activities.get_mut(atom) {
            *activity += self.increment;
            large = *activity > LARGE;
        }
        if large {
            self.scale();
        }
        if let Some(place) = self.place_of(atom) {
            self.rise(place);
        }
    }

    fn scale(&mut self) {
        for activity in self.activities.iter_mut() {
            *activity *= SCALE;
        }
        self.increment *= SCALE;
    }

    /// What took part in earlier conflicts counts less from now on.
    pub fn decay(&mut self, is_clausal: bool) {
        let has_many = self.activities.len() > MANY_ATOMS;
        let few = if is_clausal { FAST_DECAY } else { DECAY };
        self.increment /= if has_many { SLOW_DECAY } else { few };
    }
}
