//! In how many atoms a time point is.
use std::alloc::{AllocError, Global};
use stn_core::{Clause, Literal, Problem, negate};

/// One in so many literals at most may be without a point of its own, where atoms are to be eliminated. Where it is every second
/// one, as among alternatives of conjunctions, the atoms that name these are worth more than what their elimination spares.
const OTHERS: usize = 4;

/// In which atoms a time point is.
#[derive(Clone, Copy)]
enum Use {
    None,
    One(Literal),
    Many,
}

/// For each time point in which atoms it is.
pub(crate) struct Uses {
    uses: Vec<Use>,
}

impl Drop for Uses {
    fn drop(self) {
        let Uses { uses } = self;
        drop(uses);
    }
}

/// The literal's atom, which is the one of it and its negation whose first point has the smaller number, and whether it is
/// the negation.
pub(crate) fn atom_and_sign(literal: Literal) -> (Literal, bool) {
    if literal.x <= literal.y {
        (literal, false)
    } else {
        (negate(literal), true)
    }
}

fn with_atom(before: Use, atom: Literal) -> Use {
    match before {
        Use::None => Use::One(atom),
        Use::One(other) => { if other == atom { before } else { Use::Many } }
        Use::Many => before,
    }
}

fn note(uses: &mut [Use], literal: Literal) {
    let (atom, _) = atom_and_sign(literal);
    for point in [atom.x, atom.y] {
        if let Some(before) = uses.get_mut(point as usize) {
            *before = if atom.x == atom.y {
                Use::Many
            } else {
                with_atom(*before, atom)
            };
        }
    }
}

fn keep(uses: &mut [Use], point: u32) {
    if let Some(place) = uses.get_mut(point as usize) {
        *place = Use::Many;
    }
}

impl Uses {
    /// Point 0, which stands for zero, and these others are taken to be in many atoms.
    pub fn of(alloc: Global, problem: &Problem, kept: &[u32]) -> Result<Self, AllocError> {
        let mut uses = vec![in alloc; Use::None; problem.points as usize]?;
        keep(&mut uses, 0);
        for point in kept {
            keep(&mut uses, *point);
        }
        for clause in problem.clauses.as_slice() {
            for literal in clause.as_slice() {
                note(&mut uses, *literal);
            }
        }
        Ok(Uses { uses })
    }

    fn is_own(&self, point: u32) -> bool {
        match self.uses.get(point as usize) {
            Some(Use::One(_)) => true,
            Some(Use::None) | Some(Use::Many) | None => false,
        }
    }

    /// The point that is in this literal's atom alone, if there is one.
    pub fn own_point(&self, literal: Literal) -> Option<u32> {
        if self.is_own(literal.x) {
            Some(literal.x)
        } else if self.is_own(literal.y) {
            Some(literal.y)
        } else {
            None
        }
    }

    /// Whether most literals of the clauses have a point of their own.
    pub fn are_mostly_own(&self, clauses: &[Clause]) -> bool {
        let mut count = 0usize;
        let mut own = 0usize;
        for clause in clauses {
            for literal in clause.as_slice() {
                count = count.saturating_add(1);
                if self.own_point(*literal).is_some() {
                    own = own.saturating_add(1);
                }
            }
        }
        count.saturating_sub(own) <= count / OTHERS
    }
}
