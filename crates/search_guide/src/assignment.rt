//! Which literals stand on the trail: a byte for each literal, which most steps of propagation read and
//! nothing else, and for each atom the place on the trail and the level.
use crate::numbers::{LiteralNumber, atom_of, narrow, negated};
use std::alloc::{AllocError, Global};

#[derive(Clone, Copy, Debug, PartialEq, Eq)]
pub enum Truth {
    Open,
    True,
    False,
}

/// Where an atom was set last.
#[derive(Clone, Copy)]
struct Spot {
    place: u32,
    level: u32,
}

pub struct Assignment {
    /// for each literal
    truths: Vec<Truth>,
    /// for each atom
    spots: Vec<Spot>,
}

impl Drop for Assignment {
    fn drop(self) {
        let Assignment { truths, spots } = self;
        drop(truths);
        drop(spots);
    }
}

impl Assignment {
    pub fn new(alloc: Global) -> Self {
        Assignment {
            truths: Vec::new(alloc),
            spots: Vec::new(alloc),
        }
    }

    /// One more atom, which is open.
    pub fn push(&mut self) -> Result<(), AllocError> {
        self.truths.push(Truth::Open)?;
        self.truths.push(Truth::Open)?;
        self.spots.push(Spot { place: 0, level: 0 })?;
        Ok(())
    }

    pub fn truth(&self, number: LiteralNumber) -> Truth {
        match self.truths.get(number as usize) {
            Some(truth) => *truth,
            None => Truth::Open,
        }
    }

    fn put(&mut self, number: LiteralNumber, truth: Truth) {
        if let Some(slot) = self.truths.get_mut(number as usize) {
            *slot = truth;
        }
    }

    pub fn set(&mut self, number: LiteralNumber, place: usize, level: usize) {
        self.put(number, Truth::True);
        self.put(negated(number), Truth::False);
        if let Some(spot) = self.spots.get_mut(atom_of(number)) {
            *spot = Spot {
                place: narrow(place),
                level: narrow(level),
            };
        }
    }

    /// The atom is open again. Its level stays to be read until it is set anew.
    pub fn unset(&mut self, number: LiteralNumber) {
        self.put(number, Truth::Open);
        self.put(negated(number), Truth::Open);
    }

    /// Where the literal, or its negation, was set last.
    pub fn place(&self, number: LiteralNumber) -> usize {
        match self.spots.get(atom_of(number)) {
            Some(spot) => spot.place as usize,
            None => 0,
        }
    }

    /// The level at which the literal, or its negation, was set last.
    pub fn level(&self, number: LiteralNumber) -> usize {
        match self.spots.get(atom_of(number)) {
            Some(spot) => spot.level as usize,
            None => 0,
        }
    }

    /// When the literal stops being denied, as a number: the later, the greater.
    fn lateness(&self, number: LiteralNumber) -> usize {
        match self.truth(number) {
            Truth::False => self.place(number),
            Truth::Open | Truth::True => usize::MAX,
        }
    }

    /// The places of the two literals that aren't denied, or stop being so first when the trail is cut.
    pub fn last_two(&self, literals: &[LiteralNumber]) -> (u32, u32) {
        let mut first = (0, 0);
        let mut second = (0, 1);
        for (place, literal) in literals.iter().enumerate() {
            let late = self.lateness(*literal);
            if place == 0 || late > first.0 {
                second = first;
                first = (late, place);
            } else if place == 1 || late > second.0 {
                second = (late, place);
            }
        }
        (narrow(first.1), narrow(second.1))
    }
}
