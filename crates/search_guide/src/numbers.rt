//! Numbers of literals. A literal is hashed once, when it is met first; from then on the search speaks of its
//! number, so that all other tables are flat. An atom is the one literal of a literal and its negation whose
//! first point has the smaller number; atom v has the number 2v and its negation 2v + 1.
use std::alloc::{AllocError, Global};
use std::collections::HashMap;
use stn_core::{Literal, negate};

/// The number of a literal. A literal and its negation have the numbers 2v and 2v + 1, in either order.
pub type LiteralNumber = u32;

/// One more than the greatest number of an atom.
const ATOMS_LIMIT: usize = 1 << 31;

/// From so many atoms on a search takes decisions by the thousand from conflict to conflict.
pub const MANY_ATOMS: usize = 10_000;

/// And with more than so many atoms it mostly ends in a few descents, or not at all.
pub const VAST: usize = 25_000;

/// The literal's negation.
pub fn negated(number: LiteralNumber) -> LiteralNumber {
    number ^ 1
}

/// The place of the literal's atom in tables by atoms.
pub fn atom_of(number: LiteralNumber) -> usize {
    (number / 2) as usize
}

/// Whether it is its atom, and not the negation.
pub fn is_atom(number: LiteralNumber) -> bool {
    number % 2 == 0
}

/// The count in 32 bits; a larger one is the greatest number of 32 bits.
pub fn narrow(count: usize) -> u32 {
    if count < u32::MAX as usize {
        count as u32
    } else {
        u32::MAX
    }
}

pub struct Numbers {
    numbers: HashMap<Literal, LiteralNumber>,
    atoms: Vec<Literal>,
}

impl Drop for Numbers {
    fn drop(self) {
        let Numbers { numbers, atoms } = self;
        drop(numbers);
        drop(atoms);
    }
}

impl Numbers {
    pub fn new(alloc: Global) -> Self {
        Numbers {
            numbers: HashMap::new(alloc),
            atoms: Vec::new(alloc),
        }
    }

    /// How many atoms there are.
    pub fn len(&self) -> usize {
        self.atoms.len()
    }

    pub fn atoms(&self) -> &[Literal] {
        &self.atoms
    }

    pub fn literal(&self, number: LiteralNumber) -> Option<Literal> {
        let atom = self.atoms.get(atom_of(number)).copied()?;
        if is_atom(number) {
            Some(atom)
        } else {
            Some(negate(atom))
        }
    }

    /// The number of a literal that was met before.
    pub fn number(&self, literal: Literal) -> Option<LiteralNumber> {
        let (atom, sign) = atom_and_sign(literal);
        match self.numbers.get(&atom) {
            Some(number) => Some(*number ^ sign),
            None => None,
        }
    }

    /// The literal's number. A literal that is new gets the next one, with its negation.
    pub fn insert(&mut self, literal: Literal) -> Result<LiteralNumber, AllocError> {
        let (atom, sign) = atom_and_sign(literal);
        if let Some(number) = self.numbers.get(&atom) {
            return Ok(*number ^ sign);
        }
        let count = self.atoms.len();
        if count >= ATOMS_LIMIT {
            return Err(AllocError);
        }
        let number = 2 * count as u32;
        self.atoms.push(atom)?;
        if let Err(failed) = self.numbers.insert(atom, number) {
            self.atoms.pop();
            return Err(AllocError::from(failed));
        }
        Ok(number ^ sign)
    }
}

/// The literal's atom, and what the literal's number has beyond that of the atom.
fn atom_and_sign(literal: Literal) -> (Literal, u32) {
    if literal.x < literal.y || literal.x == literal.y && literal.c >= 0 {
        (literal, 0)
    } else {
        (negate(literal), 1)
    }
}
