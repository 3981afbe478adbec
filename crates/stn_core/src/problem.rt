ghost use Rattle.std.specs.Prelude.{◌≡◌, ◌≤◌, All, IfOk};
ghost use Rattle.stn_core.specs.Limits.{points_limit};
ghost use Rattle.stn_core.specs.Literal.{IsOver};

use crate::literal::Literal;
use smallvec::SmallVec;
use std::alloc::{AllocError, Global};
use std::marker::Model;

/// Literals of which one is to hold. Without literals it never holds. Up to two lie in the clause itself, and more in memory
/// of their own.
pub struct Clause {
    literals: SmallVec<Literal, 2>,
}

impl Drop for Clause {
    fn drop(self) {
        let Clause { literals } = self;
        drop(literals);
    }
}

impl Model for Clause {
    ghost use Rattle.std.specs.Prelude.{List};
    ghost use Rattle.stn_core.specs.declared.literal.Literal.{Literal as Bound};

    ghost Value = { List Bound };

    ghost view = { λ c. c.literals.items };
}

impl Clause {
    pub fn new(literals: Vec<Literal>) -> Self
        ensures { result ≡ literals.items }
    {
        Clause {
            literals: SmallVec::from_vec(literals),
        }
    }

    /// A clause of these literals.
    pub fn from_slice(alloc: Global, literals: &[Literal]) -> Result<Self, AllocError>
        ensures { IfOk result (λ clause. clause ≡ literals.now) }
    {
        Ok(Clause {
            literals: SmallVec::from_slice(alloc, literals)?,
        })
    }

    pub fn as_slice(&self) -> &[Literal]
        ensures { result.now ≡ self.now }
    {
        self.literals.as_slice()
    }

    /// An equal clause in memory of its own.
    pub fn copy(&self) -> Result<Self, AllocError>
        ensures { IfOk result (λ clause. clause ≡ self.now) }
    {
        Clause::from_slice(*self.literals.allocator(), self.as_slice())
    }
}

/// A list of clauses.
pub struct Clauses {
    clauses: Vec<Clause>,
}

impl Drop for Clauses {
    fn drop(self) {
        let Clauses { clauses } = self;
        drop(clauses);
    }
}

impl Model for Clauses {
    ghost use Rattle.std.specs.Prelude.{List};
    ghost use Rattle.stn_core.specs.declared.literal.Literal.{Literal as Bound};

    ghost Value = { List (List Bound) };

    ghost view = { λ c. c.clauses.items };
}

impl Clauses {
    pub fn new(clauses: Vec<Clause>) -> Self
        ensures { result ≡ clauses.items }
    {
        Clauses { clauses }
    }

    pub fn as_slice(&self) -> &[Clause]
        ensures { result.now ≡ self.now }
    {
        self.clauses.as_slice()
    }

    /// The clauses in a `Vec`, without taking memory.
    pub fn into_vec(self) -> Vec<Clause>
        ensures { result.items ≡ self }
    {
        let Clauses { clauses } = self;
        clauses
    }

    /// Equal clauses in memory of their own.
    pub fn copy(&self) -> Result<Self, AllocError>
        ensures { IfOk result (λ clauses. clauses ≡ self.now) }
    {
        let mut copies = Vec::new(*self.clauses.allocator());
        for clause in self.as_slice() {
            copies.push(clause.copy()?)?;
        }
        Ok(Clauses::new(copies))
    }
}

/// A Disjunctive Temporal Problem: so many time points, numbered from 0, and clauses over them that are to hold
/// together.
pub struct Problem {
    pub points: u32,
    pub clauses: Clauses,
    pub ghost some: { 1 ≤ points },
    pub ghost few: { points ≤ points_limit },
    pub ghost over: { All (λ clause. All (IsOver points) clause) clauses },
}

impl Drop for Problem {
    fn drop(self) {
        let Problem { points: _, clauses } = self;
        drop(clauses);
    }
}

impl Problem {
    /// Its clauses, without taking memory.
    pub fn into_clauses(self) -> Clauses
        ensures { result ≡ self.clauses }
    {
        let Problem { points: _, clauses } = self;
        clauses
    }

    /// An equal problem in memory of its own.
    pub fn copy(&self) -> Result<Self, AllocError>
        ensures { IfOk result (λ problem. problem ≡ self.now) }
    {
        Ok(Problem {
            points: self.points,
            clauses: self.clauses.copy()?,
        })
    }
}
