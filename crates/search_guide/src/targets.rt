//! Target phases: the sides that the atoms had on the longest trail without a conflict (Biere, Fleury 2020, in the
//! form of CaDiCaL), towards which a search decides again and again, where saved phases alone follow each jump back.
//! A schedule is found sooner so: satisfiable random problems take two fifths of the conflicts, open shops a half.
//! Pure atoms don't have them: on circuits and mutual exclusion, where most atoms are, these took 1.3 to 1.9 times
//! the conflicts. A search that wasn't ended soon does without them: with targets to its end ft10 with a deadline
//! of 929 took 1.6 times the conflicts.
use crate::assignment::{Assignment, Truth};
use crate::numbers::{LiteralNumber, atom_of, narrow};
use std::alloc::{AllocError, Global};

pub struct Targets {
    /// for each atom whether it held on the longest trail without a conflict on which it stood
    sides: Vec<Option<bool>>,
    /// how long the longest of these trails was
    longest: usize,
    /// how long the trail was when all had followed from it without a conflict last, 0 after a conflict
    sound: usize,
}

impl Drop for Targets {
    fn drop(self) {
        let Targets {
            sides,
            longest: _,
            sound: _,
        } = self;
        drop(sides);
    }
}

impl Targets {
    /// No trail was looked at, and there is no atom.
    pub fn new(alloc: Global) -> Self {
        Targets {
            sides: Vec::new(alloc),
            longest: 0,
            sound: 0,
        }
    }

    /// One more atom.
    pub fn push(&mut self) -> Result<(), AllocError> {
        self.sides.push(None)?;
        Ok(())
    }

    /// All that follows from the trail stands on it, which is so long, and there is no conflict.
    pub fn note(&mut self, length: usize) {
        self.sound = length;
    }

    /// There is a conflict, and the trail hasn't been cut yet. If it was longer without one than any before, its
    /// sides are the targets.
    pub fn take(&mut self, assignment: &Assignment) {
        let sound = self.sound;
        self.sound = 0;
        if sound <= self.longest {
            return;
        }
        self.longest = sound;
        for atom in 0..self.sides.len() {
            let number = narrow(atom).wrapping_mul(2);
            let truth = assignment.truth(number);
            if truth == Truth::Open || sound <= assignment.place(number) {
                continue;
            }
            if let Some(slot) = self.sides.get_mut(atom) {
                *slot = Some(truth == Truth::True);
            }
        }
    }

    /// No trail is looked at any more, and no atom has a target.
    pub fn end(&mut self) {
        self.longest = usize::MAX;
        self.sides.truncate(0);
    }

    /// Whether the literal's atom is to be decided true, if it stood on such a trail.
    pub fn side(&self, number: LiteralNumber) -> Option<bool> {
        match self.sides.get(atom_of(number)) {
            Some(side) => *side,
            None => None,
        }
    }
}
