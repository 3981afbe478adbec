//! Atoms that are eliminated, one after the other.
use crate::atoms::{Atoms, LiteralNumber, narrow, negated};
use crate::resolvents::Resolvents;
use crate::table::Table;
use crate::uses::Uses;
use crate::witnesses::Witnesses;
use std::alloc::{AllocError, Global};
use std::mem;
use stn_core::{Clause, Problem};

/// An atom stays that gives more pairs of clauses to resolve.
const MOST_PAIRS: usize = 400;

/// So often all atoms are gone over.
const ROUNDS: usize = 6;

/// So much work may be done,
const LEAST_WORK: usize = 100_000;

/// and so much for each literal of the problem.
const WORK: usize = 100;

/// An atom, and how many pairs of clauses there are to resolve on it.
#[derive(Clone, Copy, PartialEq, Eq, PartialOrd, Ord)]
struct Candidate {
    pairs: usize,
    atom: u32,
}

/// The clauses as they are, and what was eliminated up to now.
pub(crate) struct Elimination {
    pub atoms: Atoms,
    pub table: Table,
    pub witnesses: Witnesses,
    /// clauses by which others may be subsumed
    pub waiting: Vec<u32>,
    /// the literals of one clause
    pub literals: Vec<LiteralNumber>,
    /// how much work is left: a pair of clauses that is compared is as much as a literal of a resolvent
    pub work: usize,
    resolvents: Resolvents,
    /// the clauses with an atom, and those with its negation
    positive: Vec<u32>,
    negative: Vec<u32>,
}

impl Drop for Elimination {
    fn drop(self) {
        let Elimination {
            atoms,
            table,
            witnesses,
            waiting,
            literals,
            work: _,
            resolvents,
            positive,
            negative,
        } = self;
        drop(atoms);
        drop(table);
        drop(witnesses);
        drop(waiting);
        drop(literals);
        drop(resolvents);
        drop(positive);
        drop(negative);
    }
}

/// The numbers in order, each once; whether there is none beside its negation.
fn put_in_order(numbers: &mut Vec<LiteralNumber>) -> Result<bool, AllocError> {
    numbers.sort()?;
    let mut count = 0usize;
    let mut last = None;
    for place in 0..numbers.len() {
        let Some(number) = numbers.get(place).copied() else {
            return Ok(false);
        };
        if last == Some(negated(number)) {
            return Ok(false);
        }
        if last != Some(number) {
            if let Some(free) = numbers.get_mut(count) {
                *free = number;
            }
            count = count.saturating_add(1);
            last = Some(number);
        }
    }
    numbers.truncate(count);
    Ok(true)
}

impl Elimination {
    /// The problem's clauses, of which nothing is eliminated yet.
    pub fn new(alloc: Global, uses: Uses, problem: &Problem) -> Result<Self, AllocError> {
        let mut elimination = Elimination {
            atoms: Atoms::new(alloc, uses, problem.points)?,
            table: Table::new(alloc),
            witnesses: Witnesses::new(alloc),
            waiting: Vec::new(alloc),
            literals: Vec::new(alloc),
            work: LEAST_WORK,
            resolvents: Resolvents::new(alloc),
            positive: Vec::new(alloc),
            negative: Vec::new(alloc),
        };
        for clause in problem.clauses.as_slice() {
            elimination.read(alloc, clause)?;
        }
        Ok(elimination)
    }

    fn read(&mut self, alloc: Global, clause: &Clause) -> Result<(), AllocError> {
        self.literals.truncate(0);
        for literal in clause.as_slice() {
            let number = self.atoms.insert(*literal)?;
            self.literals.push(number)?;
        }
        let work = self.literals.len().saturating_mul(WORK);
        self.work = self.work.saturating_add(work);
        self.table.make_room(alloc, self.atoms.len())?;
        let is_alive = put_in_order(&mut self.literals)?;
        let row = self.table.push(&self.literals, is_alive, None)?;
        self.waiting.push(row)?;
        Ok(())
    }

    pub fn spend(&mut self, work: usize) {
        self.work = self.work.saturating_sub(work);
    }

    /// What was eliminated, which leaves this.
    pub fn take_witnesses(&mut self, alloc: Global) -> Witnesses {
        mem::replace(&mut self.witnesses, Witnesses::new(alloc))
    }

    /// The clause without the literal, among the witnesses.
    fn note_clause(&mut self, row: u32, number: LiteralNumber) -> Result<(), AllocError> {
        for other in self.table.literals(row) {
            if *other != number {
                if let Some(literal) = self.atoms.literal(*other) {
                    self.witnesses.push(literal)?;
                }
            }
        }
        self.witnesses.end_clause()
    }

    /// The clauses with this literal say what its atom is to be.
    fn note_witness(&mut self, number: LiteralNumber, point: u32) -> Result<(), AllocError> {
        let is_atom = number % 2 == 0;
        let count = if is_atom {
            self.positive.len()
        } else {
            self.negative.len()
        };
        for place in 0..count {
            let row = if is_atom {
                self.positive.get(place).copied()
            } else {
                self.negative.get(place).copied()
            };
            if let Some(row) = row {
                self.note_clause(row, number)?;
            }
        }
        match self.atoms.literal(number) {
            Some(literal) => self.witnesses.end_atom(literal, point),
            None => Ok(()),
        }
    }

    fn remove_all(&mut self) {
        for row in &self.positive {
            self.table.remove(*row);
        }
        for row in &self.negative {
            self.table.remove(*row);
        }
    }

    /// Resolves on the atom, where that gives no more clauses; whether it did.
    fn resolve_on(&mut self, pivot: LiteralNumber, point: u32) -> Result<bool, AllocError> {
        let is_small = self
            .resolvents
            .resolve_all(&self.table, &self.positive, &self.negative, pivot)?;
        self.work = self.work.saturating_sub(self.resolvents.work());
        if !is_small {
            return Ok(false);
        }
        // the fewer clauses of both sides are enough
        if self.positive.len() <= self.negative.len() {
            self.note_witness(pivot, point)?;
        } else {
            self.note_witness(negated(pivot), point)?;
        }
        self.remove_all();
        self.resolvents.enter(&mut self.table, &mut self.waiting)?;
        self.subsume_waiting()?;
        Ok(true)
    }

    /// Eliminates the atom, where it pays; whether it did.
    fn eliminate(&mut self, atom: u32) -> Result<bool, AllocError> {
        let Some(point) = self.atoms.own_point(atom as usize) else {
            return Ok(false);
        };
        let pivot = atom.saturating_mul(2);
        self.table.rows_with(pivot, &mut self.positive)?;
        self.table.rows_with(negated(pivot), &mut self.negative)?;
        if self.positive.is_empty() && self.negative.is_empty() {
            return Ok(false);
        }
        if self.positive.len().saturating_mul(self.negative.len()) > MOST_PAIRS {
            return Ok(false);
        }
        self.resolve_on(pivot, point)
    }

    /// The atoms with a point of their own, those with the fewest pairs first.
    fn candidates(&self, alloc: Global) -> Result<Vec<Candidate>, AllocError> {
        let mut candidates = Vec::new(alloc);
        for place in 0..self.atoms.len() {
            if self.atoms.own_point(place).is_some() {
                let atom = narrow(place);
                let pivot = atom.saturating_mul(2);
                let count = self.table.count(pivot);
                let pairs = count.saturating_mul(self.table.count(negated(pivot)));
                candidates.push(Candidate { pairs, atom })?;
            }
        }
        candidates.sort()?;
        Ok(candidates)
    }

    /// Goes over all atoms once; whether one was eliminated and work is left.
    fn go_over(&mut self, alloc: Global) -> Result<bool, AllocError> {
        let candidates = self.candidates(alloc)?;
        let mut is_changed = false;
        for candidate in &candidates {
            if self.work == 0 {
                return Ok(false);
            }
            if self.eliminate(candidate.atom)? {
                is_changed = true;
            }
        }
        Ok(is_changed)
    }

    /// Eliminates what pays.
    pub fn run(&mut self, alloc: Global) -> Result<(), AllocError> {
        self.subsume_waiting()?;
        for _round in 0..ROUNDS {
            if !self.go_over(alloc)? {
                return Ok(());
            }
        }
        Ok(())
    }
}
