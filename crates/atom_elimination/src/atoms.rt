//! Numbers of literals.
use crate::uses::{Uses, atom_and_sign};
use std::alloc::{AllocError, Global};
use std::collections::HashMap;
use stn_core::{Literal, negate};

/// The number of a literal: an atom has an even one, and its negation the next.
pub(crate) type LiteralNumber = u32;

/// One more than the greatest number of an atom.
const ATOMS_LIMIT: usize = 1 << 31;

pub(crate) fn negated(number: LiteralNumber) -> LiteralNumber {
    number ^ 1
}

/// The count in 32 bits; a larger one is the greatest number of 32 bits.
pub(crate) fn narrow(count: usize) -> u32 {
    if count < u32::MAX as usize {
        count as u32
    } else {
        u32::MAX
    }
}

pub(crate) struct Atoms {
    uses: Uses,
    /// the number of the atom to which a point belongs alone
    by_point: Vec<Option<LiteralNumber>>,
    /// those of all others
    numbers: HashMap<Literal, LiteralNumber>,
    atoms: Vec<Literal>,
}

impl Drop for Atoms {
    fn drop(self) {
        let Atoms {
            uses,
            by_point,
            numbers,
            atoms,
        } = self;
        drop(uses);
        drop(by_point);
        drop(numbers);
        drop(atoms);
    }
}

impl Atoms {
    pub fn new(alloc: Global, uses: Uses, points: u32) -> Result<Self, AllocError> {
        Ok(Atoms {
            uses,
            by_point: vec![in alloc; None; points as usize]?,
            numbers: HashMap::new(alloc),
            atoms: Vec::new(alloc),
        })
    }

    pub fn len(&self) -> usize {
        self.atoms.len()
    }

    /// The point that is in this atom alone, if there is one.
    pub fn own_point(&self, atom: usize) -> Option<u32> {
        let literal = self.atoms.get(atom).copied()?;
        self.uses.own_point(literal)
    }

    pub fn literal(&self, number: LiteralNumber) -> Option<Literal> {
        let atom = self.atoms.get((number / 2) as usize).copied()?;
        if number % 2 == 0 {
            Some(atom)
        } else {
            Some(negate(atom))
        }
    }

    fn known(&self, atom: Literal, own: Option<u32>) -> Option<LiteralNumber> {
        match own {
            Some(point) => self.by_point.get(point as usize).copied()?,
            None => self.numbers.get(&atom).copied(),
        }
    }

    fn add(&mut self, atom: Literal, own: Option<u32>) -> Result<LiteralNumber, AllocError> {
        let count = self.atoms.len();
        if count >= ATOMS_LIMIT {
            return Err(AllocError);
        }
        let number = 2 * count as u32;
        match own {
            Some(point) => {
                if let Some(place) = self.by_point.get_mut(point as usize) {
                    *place = Some(number);
                }
            }
            None => {
                self.numbers.insert(atom, number)?;
            }
        }
        self.atoms.push(atom)?;
        Ok(number)
    }

    /// The literal's number. A literal that is new gets the next one, with its negation.
    pub fn insert(&mut self, literal: Literal) -> Result<LiteralNumber, AllocError> {
        let (atom, is_negation) = atom_and_sign(literal);
        let own = self.uses.own_point(atom);
        let number = match self.known(atom, own) {
            Some(number) => number,
            None => self.add(atom, own)?,
        };
        Ok(if is_negation { negated(number) } else { number })
    }
}
