//! Linear terms.
ghost use Rattle.std.specs.Prelude.{◌≡◌, ◌<◌, ◌≤◌, ◌∷◌, [], true, map, IfOk, IfSome, IsTrue};
ghost use Rattle.idl_linear.specs.Limits.{points_limit, coefficient_limit, constant_limit};
ghost use Rattle.idl_linear.specs.Linear.{number_alone, point_alone, negative_summand, is_within};
ghost use Rattle.idl_linear.specs.code.Held.{held_summands};
ghost use Rattle.idl_linear.specs.code.Trees.{signed, AllWithin};
ghost use Rattle.idl_linear.specs.code.Branching.{IsBranches};
ghost use Rattle.idl_linear.specs.Forms.{IsLinear};

use crate::cursor::Cursor;
use crate::held::{Branches, Held};
use crate::limits::COEFFICIENT_LIMIT;
use crate::summand::Summand;
use std::alloc::{AllocError, Global};
use std::marker::Model;

/// A linear term: time points with coefficients, and a constant. Coefficients are within 2^20 and the constant within 2^62.
pub struct Linear {
    /// By ascending time points, none with the coefficient 0.
    summands: Held,
    constant: i64,
}

impl Drop for Linear {
    fn drop(self) {
        let Linear {
            summands,
            constant: _,
        } = self;
        drop(summands);
    }
}

impl Model for Linear {
    ghost use Rattle.idl_linear.specs.Linear.{LinearValue};
    ghost use Rattle.idl_linear.specs.Forms.{IsLinear};
    ghost use Rattle.idl_linear.specs.code.Held.{held_summands};
    ghost use Rattle.idl_linear.specs.code.Trees.{signed};
    ghost use Rattle.idl_linear.specs.code.Branching.{IsBranches};

    ghost Value = { LinearValue };

    ghost view = { λ l. record { summands = held_summands l.summands; constant = l.constant } };

    ghost invariant = { λ l. IsLinear
        (record { summands = held_summands l.summands; constant = l.constant }) };
}

impl Linear {
    /// A whole number. It takes no memory.
    pub fn number(alloc: Global, number: i64) -> Self
        requires { is_within constant_limit number ≡ true }
        ensures { result ≡ number_alone number }
    {
        Linear {
            summands: Held::Many(Vec::new(alloc)),
            constant: number,
        }
    }

    /// The value of a name's time point. It takes no memory.
    pub fn point(point: u32) -> Self
        requires some { 0 < point }
        requires few { point < points_limit }
        ensures { result ≡ point_alone point }
    {
        Linear {
            summands: Held::One(Summand {
                point,
                coefficient: 1,
            }),
            constant: 0,
        }
    }

    /// An equal term. Where it has many summands the two share them.
    pub fn copy(&self) -> Result<Self, AllocError>
        ensures { IfOk result (λ l. l ≡ self.now) }
    {
        let summands = self.summands.copy()?;
        Ok(Linear {
            summands,
            constant: self.constant,
        })
    }

    pub(crate) fn from_parts(summands: Held, constant: i64) -> Self
        requires { IsLinear (record { summands = held_summands summands; constant = constant }) }
        ensures { result ≡ record { summands = held_summands summands; constant = constant } }
    {
        Linear { summands, constant }
    }

    /// A walk over the names' time points with their coefficients, by ascending time points: above 0, the zero point, and below 65,537.
    /// No coefficient is 0.
    pub fn cursor(&self) -> Cursor<'_>
        ensures items { result ≡ self.entry.now.summands }
        ensures linear { IsLinear self.now }
    {
        self.summands.cursor(false)
    }

    /// A walk over the same time points with the negatives of their coefficients.
    pub(crate) fn negative_cursor(&self) -> Cursor<'_>
        ensures items { result ≡ map negative_summand self.entry.now.summands }
        ensures linear { IsLinear self.now }
    {
        self.summands.cursor(true)
    }

    /// A tree of its summands, or of their negatives.
    pub(crate) fn branches(&self, alloc: Global, is_negated: bool) -> Result<Branches, AllocError>
        ensures { IfOk result (λ b. IsBranches (signed is_negated self.now.summands) b) }
    {
        let branches = self.summands.branches(alloc, is_negated)?;
        Ok(branches)
    }

    /// Its summand, where it is held as the only one.
    pub(crate) fn only_summand(&self) -> Option<Summand>
        ensures only { IfSome result (λ s. self.now.summands ≡ s ∷ []) }
        ensures linear { IsLinear self.now }
    {
        match &self.summands {
            Held::One(summand) => Some(*summand),
            _ => None,
        }
    }

    /// Whether it is held as a number without summands.
    pub(crate) fn is_number(&self) -> bool
        ensures none { IsTrue result → self.now.summands ≡ [] }
        ensures linear { IsLinear self.now }
    {
        match &self.summands {
            Held::Many(summands) => summands.is_empty(),
            _ => false,
        }
    }

    /// How many summands there are, as far as is known.
    pub(crate) fn count(&self) -> usize {
        self.summands.count()
    }

    /// No coefficient is beyond this in its absolute value. It takes no time in proportion to the summands.
    pub fn greatest(&self) -> u64
        ensures within { AllWithin result self.now.summands }
        ensures limit { result ≤ coefficient_limit }
        ensures linear { IsLinear self.now }
    {
        self.summands.greatest().min(COEFFICIENT_LIMIT)
    }

    /// What is added to the summands. It is within 2^62.
    pub fn constant(&self) -> i64
        ensures number { result ≡ self.now.constant }
        ensures linear { IsLinear self.now }
    {
        self.constant
    }
}
