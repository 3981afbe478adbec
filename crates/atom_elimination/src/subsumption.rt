//! Clauses that others make needless, and literals of them.
use crate::atoms::negated;
use crate::elimination::Elimination;
use crate::merging::{Relation, resolve};
use crate::table::Resolution;
use std::alloc::AllocError;

impl Elimination {
    /// The other clause without the negation of the pivot, which is a literal of the first.
    fn strengthen(&mut self, first: u32, second: u32, pivot: u32) -> Result<(), AllocError> {
        self.literals.truncate(0);
        let holds = resolve(
            self.table.literals(first),
            self.table.literals(second),
            pivot,
            &mut self.literals,
        )?;
        if holds {
            let made = Resolution {
                first,
                second,
                pivot,
            };
            self.table.remove(second);
            let row = self.table.push(&self.literals, true, Some(made))?;
            self.waiting.push(row)?;
        }
        Ok(())
    }

    /// What the clause makes of one in which its rarest atom stands.
    fn compare(&mut self, row: u32, other: u32) -> Result<(), AllocError> {
        self.spend(1);
        if row == other || !self.table.is_alive(row) || !self.table.is_alive(other) {
            return Ok(());
        }
        match self.table.relation(row, other) {
            Relation::Apart => Ok(()),
            Relation::Subsumes => {
                self.table.remove(other);
                Ok(())
            }
            Relation::Strengthens(pivot) => self.strengthen(row, other, pivot),
        }
    }

    fn compare_all(&mut self, row: u32, number: u32) -> Result<(), AllocError> {
        for k in 0..self.table.occurrences(number).len() {
            if let Some(other) = self.table.occurrences(number).get(k).copied() {
                self.compare(row, other)?;
            }
        }
        Ok(())
    }

    /// What the clause makes needless is removed, and clauses lose literals by it.
    fn subsume_by(&mut self, row: u32) -> Result<(), AllocError> {
        if !self.table.is_alive(row) {
            return Ok(());
        }
        if let Some(number) = self.table.rarest(row) {
            self.compare_all(row, number)?;
            self.compare_all(row, negated(number))?;
        }
        Ok(())
    }

    /// The same by each clause that waits for it, as long as work is left.
    pub fn subsume_waiting(&mut self) -> Result<(), AllocError> {
        'rows: for _turn in 0..self.work {
            match self.waiting.pop() {
                Some(row) if self.work > 0 => self.subsume_by(row)?,
                Some(_) => self.waiting.truncate(0),
                None => return Ok(()),
            }
        }
        self.waiting.truncate(0);
        Ok(())
    }
}
