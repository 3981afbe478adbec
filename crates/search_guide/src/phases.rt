//! Phases: which side of an atom is decided. An atom keeps the side that it had on the trail last
//! (Pipatsrisawat, Darwiche 2007), so that after a jump back or a restart the search comes back to where it
//! was. Before that, an atom that isn't pure keeps the side that it had on the longest trail without a conflict
//! (`targets.rt`). An atom that was never on the trail takes the side that holds on the net's schedule, which adds
//! nothing to the net that moves a point. Other rules (always false, always by the schedule) were measured
//! and differ by less than 7% in time, either way.
//!
//! An atom is pure when one of its points other than the first is in no other atom, as the point of a Bool
//! name is. It constrains nothing but clauses. So it stays out of the net until there is a model, and is
//! false at first: a name that is true costs as little, but clauses of formulas mostly want names to be
//! false.
use crate::assignment::Assignment;
use crate::numbers::{LiteralNumber, atom_of, is_atom};
use crate::targets::Targets;
use std::alloc::{AllocError, Global};
use stn_core::{Literal, Value};

pub struct Phases {
    saved: Vec<Option<bool>>,
    pure: Vec<bool>,
    targets: Targets,
}

impl Drop for Phases {
    fn drop(self) {
        let Phases {
            saved,
            pure,
            targets,
        } = self;
        drop(saved);
        drop(pure);
        drop(targets);
    }
}

/// Whether the bound holds on the values. A difference beyond the range of values counts as the greatest or
/// least value.
pub fn holds_on(literal: Literal, values: &[Value]) -> bool {
    let (Some(x), Some(y)) = (
        values.get(literal.x as usize),
        values.get(literal.y as usize),
    ) else {
        return false;
    };
    x.saturating_sub(*y) <= Value::from(literal.c)
}

fn count(degrees: &mut [u32], point: u32) {
    if let Some(degree) = degrees.get_mut(point as usize) {
        *degree = degree.saturating_add(1);
    }
}

fn is_private(degrees: &[u32], point: u32) -> bool {
    point != 0 && degrees.get(point as usize).copied() == Some(1)
}

impl Phases {
    /// No atom has been on the trail. Where pure ones aren't told apart, none is pure.
    pub fn start(
        alloc: Global,
        points: u32,
        atoms: &[Literal],
        tells_pure: bool,
    ) -> Result<Self, AllocError> {
        let mut degrees = vec![in alloc; 0u32; points as usize]?;
        for atom in atoms {
            count(&mut degrees, atom.x);
            count(&mut degrees, atom.y);
        }
        let mut pure = Vec::with_capacity(alloc, atoms.len())?;
        for atom in atoms {
            let is_pure = is_private(&degrees, atom.x) || is_private(&degrees, atom.y);
            pure.push(tells_pure && is_pure)?;
        }
        let saved = vec![in alloc; None; atoms.len()]?;
        let mut targets = Targets::new(alloc);
        for _atom in atoms {
            targets.push()?;
        }
        Ok(Phases {
            saved,
            pure,
            targets,
        })
    }

    /// Each of these atoms that was never on the trail has from now on the side that holds on the values, if they
    /// have its points: it comes from an earlier schedule.
    pub fn follow(&mut self, atoms: &[Literal], values: &[Value]) {
        for (slot, atom) in self.saved.iter_mut().zip(atoms.iter()) {
            let is_within = (atom.x as usize) < values.len() && (atom.y as usize) < values.len();
            if slot.is_none() && is_within {
                *slot = Some(holds_on(*atom, values));
            }
        }
    }

    /// One more atom, which is not pure.
    pub fn push(&mut self) -> Result<(), AllocError> {
        self.saved.push(None)?;
        self.pure.push(false)?;
        self.targets.push()
    }

    pub fn is_pure(&self, number: LiteralNumber) -> bool {
        self.pure.get(atom_of(number)).copied() == Some(true)
    }

    /// The literal's side is kept.
    pub fn save(&mut self, number: LiteralNumber) {
        if let Some(slot) = self.saved.get_mut(atom_of(number)) {
            *slot = Some(is_atom(number));
        }
    }

    fn saved(&self, number: LiteralNumber) -> Option<bool> {
        match self.saved.get(atom_of(number)) {
            Some(saved) => *saved,
            None => None,
        }
    }

    /// Whether a pure literal is true by its phase.
    pub fn pure_side(&self, number: LiteralNumber) -> bool {
        (self.saved(number) == Some(true)) == is_atom(number)
    }

    /// All that follows from the trail stands on it, which is so long, and there is no conflict.
    pub fn note_sound(&mut self, length: usize) {
        self.targets.note(length);
    }

    /// There is a conflict, and the trail hasn't been cut yet.
    pub fn take_targets(&mut self, assignment: &Assignment) {
        self.targets.take(assignment);
    }

    /// From now on phases are the saved ones alone.
    pub fn end_targets(&mut self) {
        self.targets.end();
    }

    /// Whether the atom is to be decided true.
    pub fn side(&self, number: LiteralNumber, atom: Literal, values: &[Value]) -> bool {
        if self.is_pure(number) {
            return self.saved(number) == Some(true);
        }
        match self.targets.side(number).or(self.saved(number)) {
            Some(side) => side,
            None => holds_on(atom, values),
        }
    }
}
