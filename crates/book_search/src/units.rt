//! The literals of unit clauses.
ghost use Rattle.std.specs.Prelude.{◌≡◌, ◌∷◌, [], IfOk, OnOk, IfSome};
ghost use Rattle.book_search.specs.code.Base.{IsBase, BaseIsOver, with_unit, number_of};

use indexmap::IndexSet;
use std::alloc::{AllocError, Global};
use std::marker::Model;
use stn_core::{Clause, Literal};

/// The different literals of the clauses with one literal, in order, each with the number of the first such
/// clause.
pub struct Units {
    literals: IndexSet<Literal>,
    numbers: Vec<usize>,
}

impl Drop for Units {
    fn drop(self) {
        let Units { literals, numbers } = self;
        drop(literals);
        drop(numbers);
    }
}

impl Model for Units {
    ghost use Rattle.std.specs.Prelude.{◌≡◌, length};
    ghost use Rattle.book_search.specs.code.Base.{Base};

    ghost Value = { Base };

    ghost view = { λ u. record { literals = u.literals.keys; numbers = u.numbers.items } };

    ghost invariant = { λ u. length u.numbers.items ≡ length u.literals.keys };
}

// The literal of a clause that has one alone.
fn unit_of(clause: &Clause) -> Option<Literal>
    ensures { IfSome result (λ l. clause.now ≡ l ∷ []) }
{
    match clause.as_slice() {
        [literal] => Some(*literal),
        _ => None,
    }
}

// The same, where one is noted for the literal's first point: its second.
fn noted_unit_of(clause: &Clause, noted: &[u32]) -> Option<Literal>
    ensures { IfSome result (λ l. clause.now ≡ l ∷ []) }
{
    let literal = unit_of(clause)?;
    if noted.get(literal.x as usize).copied() == Some(literal.y) {
        Some(literal)
    } else {
        None
    }
}

impl Units {
    pub fn of(alloc: Global, clauses: &[Clause]) -> Result<Self, AllocError>
        ensures base { IfOk result (IsBase clauses.now) }
        ensures over { IfOk result (BaseIsOver clauses.now) }
    {
        let mut units = Units {
            literals: IndexSet::new(alloc),
            numbers: Vec::new(alloc),
        };
        for (number, clause) in clauses.iter().enumerate() {
            if let Some(literal) = unit_of(clause) {
                units.add(literal, number)?;
            }
        }
        Ok(units)
    }

    /// Of these literals those that lead from a point to the one that is noted for it.
    pub fn along(alloc: Global, clauses: &[Clause], noted: &[u32]) -> Result<Self, AllocError>
        ensures base { IfOk result (IsBase clauses.now) }
        ensures over { IfOk result (BaseIsOver clauses.now) }
    {
        let mut units = Units {
            literals: IndexSet::new(alloc),
            numbers: Vec::new(alloc),
        };
        for (number, clause) in clauses.iter().enumerate() {
            if let Some(literal) = noted_unit_of(clause, noted) {
                units.add(literal, number)?;
            }
        }
        Ok(units)
    }

    // The literal goes last, with its number, unless an equal one is there.
    fn add(&mut self, literal: Literal, number: usize) -> Result<(), AllocError>
        ensures { OnOk result (self.new ≡ with_unit self.old literal number) }
    {
        self.numbers.reserve(1)?;
        let (_place, added) = self.literals.insert_full(literal)?;
        if added {
            self.numbers.push_reserved(number);
        }
        Ok(())
    }

    pub fn as_slice(&self) -> &[Literal]
        ensures { result.now ≡ self.now.literals }
    {
        self.literals.as_slice()
    }

    /// The number of the literal's clause, if it is one of these literals.
    pub fn number(&self, literal: Literal) -> Option<usize>
        ensures { result ≡ number_of self.now literal }
    {
        let place = self.literals.get_index_of(&literal)?;
        Some(self.numbers[place])
    }
}
