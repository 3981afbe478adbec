//! Clauses that say together that of some atoms an odd number is true, or an even one.
use crate::atoms::negated;
use crate::table::Table;

/// So many literals the clauses have that are looked at, or more,
const LEAST: usize = 3;

/// and no more than these.
const MOST: usize = 8;

impl Table {
    fn have_same_atoms(&self, first: u32, second: u32) -> bool {
        let first = self.literals(first);
        let second = self.literals(second);
        if first.len() != second.len() {
            return false;
        }
        for (place, number) in first.iter().enumerate() {
            if second.get(place).copied().unwrap_or(0) / 2 != *number / 2 {
                return false;
            }
        }
        true
    }

    /// How many clauses with the literal have the same atoms as this one.
    fn count_same(&self, row: u32, number: u32) -> usize {
        let mut count = 0usize;
        for other in self.occurrences(number) {
            if self.is_alive(*other) && self.have_same_atoms(row, *other) {
                count = count.saturating_add(1);
            }
        }
        count
    }

    /// Whether the clause is one of as many over the same atoms as forbid every other choice of their truths.
    fn is_of_parity(&self, row: u32) -> bool {
        let count = self.literals(row).len();
        if count < LEAST || count > MOST {
            return false;
        }
        let Some(number) = self.rarest(row) else {
            return false;
        };
        let same = self
            .count_same(row, number)
            .saturating_add(self.count_same(row, negated(number)));
        same >= 1usize << (count - 1)
    }

    /// Whether there are such, as half of the clauses or more.
    pub fn is_mostly_parity(&self) -> bool {
        let mut clauses = 0usize;
        let mut of_parity = 0usize;
        for row in 0..self.len() {
            if self.is_alive(row) {
                clauses = clauses.saturating_add(1);
                if self.is_of_parity(row) {
                    of_parity = of_parity.saturating_add(1);
                }
            }
        }
        of_parity > 0 && of_parity >= clauses.saturating_sub(of_parity)
    }
}
