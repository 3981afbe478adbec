//! What the atoms that were eliminated are to be.
use std::alloc::{AllocError, Global};
use stn_core::{Literal, Value, negate};

/// An atom that was eliminated: one of its literals, with the point that is in no other atom. The clauses up to `clauses` that
/// the atom before hasn't are those in which the literal stood, without it.
#[derive(Clone, Copy)]
struct Eliminated {
    literal: Literal,
    point: u32,
    clauses: usize,
}

/// The atoms that were eliminated, in that order, each with clauses that say what it is to be.
pub struct Witnesses {
    atoms: Vec<Eliminated>,
    /// where each clause ends
    ends: Vec<usize>,
    literals: Vec<Literal>,
}

impl Drop for Witnesses {
    fn drop(self) {
        let Witnesses {
            atoms,
            ends,
            literals,
        } = self;
        drop(atoms);
        drop(ends);
        drop(literals);
    }
}

fn value_of(values: &[Value], point: u32) -> Value {
    values.get(point as usize).copied().unwrap_or(0)
}

fn holds(values: &[Value], literal: Literal) -> bool {
    let x = value_of(values, literal.x);
    let y = value_of(values, literal.y);
    x.saturating_sub(y) <= Value::from(literal.c)
}

/// The point gets a value on which the literal holds.
fn make_hold(values: &mut [Value], literal: Literal, point: u32) {
    let c = Value::from(literal.c);
    let value = if point == literal.x {
        value_of(values, literal.y).saturating_add(c)
    } else {
        value_of(values, literal.x).saturating_sub(c)
    };
    if let Some(place) = values.get_mut(point as usize) {
        *place = value;
    }
}

impl Witnesses {
    pub(crate) fn new(alloc: Global) -> Self {
        Witnesses {
            atoms: Vec::new(alloc),
            ends: Vec::new(alloc),
            literals: Vec::new(alloc),
        }
    }

    /// Whether nothing was eliminated.
    pub(crate) fn is_empty(&self) -> bool {
        self.atoms.is_empty()
    }

    /// One literal more of a clause.
    pub(crate) fn push(&mut self, literal: Literal) -> Result<(), AllocError> {
        self.literals.push(literal)?;
        Ok(())
    }

    /// These are all of it.
    pub(crate) fn end_clause(&mut self) -> Result<(), AllocError> {
        self.ends.push(self.literals.len())?;
        Ok(())
    }

    /// These are all clauses in which the literal stood. The point is in no other atom.
    pub(crate) fn end_atom(&mut self, literal: Literal, point: u32) -> Result<(), AllocError> {
        self.atoms.push(Eliminated {
            literal,
            point,
            clauses: self.ends.len(),
        })?;
        Ok(())
    }

    /// Whether the clause has a literal that holds.
    fn clause_holds(&self, clause: usize, values: &[Value]) -> bool {
        let start = match clause.checked_sub(1) {
            Some(before) => self.ends.get(before).copied().unwrap_or(0),
            None => 0,
        };
        let end = self.ends.get(clause).copied().unwrap_or(0);
        let literals = self.literals.get(start..end).unwrap_or(&[]);
        literals.iter().any(|literal| holds(values, *literal))
    }

    /// The atom with this number: its literal holds where one of its clauses has no other that does.
    fn settle(&self, atom: usize, values: &mut [Value]) {
        let Some(eliminated) = self.atoms.get(atom).copied() else {
            return;
        };
        let start = match atom.checked_sub(1) {
            Some(before) => match self.atoms.get(before) {
                Some(before) => before.clauses,
                None => 0,
            },
            None => 0,
        };
        for clause in start..eliminated.clauses {
            if !self.clause_holds(clause, values) {
                make_hold(values, eliminated.literal, eliminated.point);
                return;
            }
        }
        make_hold(values, negate(eliminated.literal), eliminated.point);
    }

    /// Changes values of the problem's points on which the clauses hold that were left, so that all do. The greatest is 0 then.
    pub fn repair(&self, values: &mut [Value]) {
        for atom in (0..self.atoms.len()).rev() {
            self.settle(atom, values);
        }
        let mut greatest = value_of(values, 0);
        for value in values.iter() {
            greatest = greatest.max(*value);
        }
        for value in values.iter_mut() {
            *value = value.saturating_sub(greatest);
        }
    }
}
