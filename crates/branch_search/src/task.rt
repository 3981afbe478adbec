//! What a slice is asked.
ghost use Rattle.std.specs.Prelude.{◌≡◌, ◌<◌, ◌^◌, length, Some, slice_get};
ghost use Rattle.branch_search.specs.Slices.{question_of};

use refute_tree::Earlier;
use std::marker::Model;
use stn_core::{Literal, Problem};

/// The problem, the lemmas that a slice is handed, and the cube. There are so few of these lemmas that the slice can
/// count its own ones behind them.
#[derive(Drop)]
pub struct Task<'a, E: Earlier> {
    problem: &'a Problem,
    handed: &'a E,
    cube: &'a [Literal],
}

impl<'a, E: Earlier> Model for Task<'a, E> {
    ghost use Rattle.std.specs.Prelude.{◌<◌, ◌^◌, length};
    ghost use Rattle.branch_search.specs.Slices.{Question, question_of};

    ghost Value = { Question };

    ghost view = { λ t. question_of t.problem.now (E.clauses t.handed.now) t.cube.now };

    ghost invariant = { λ t. length (E.clauses t.handed.now) < 2 ^ 63 };
}

impl<'a, E: Earlier> Task<'a, E> {
    pub fn new(problem: &'a Problem, handed: &'a E, cube: &'a [Literal]) -> Self
        requires few { length (E.clauses handed.now) < 2 ^ 63 }
        ensures { result ≡ question_of problem.now (E.clauses handed.now) cube.now }
    {
        Task {
            problem,
            handed,
            cube,
        }
    }

    pub fn problem(&self) -> &'a Problem
        ensures { result.now ≡ self.now.problem }
    {
        self.problem
    }

    pub fn handed(&self) -> &'a E
        ensures { E.clauses result.now ≡ self.now.handed }
    {
        self.handed
    }

    pub fn cube(&self) -> &'a [Literal]
        ensures { result.now ≡ self.now.cube }
    {
        self.cube
    }

    /// How many lemmas are handed.
    pub fn count(&self) -> usize
        ensures count { result ≡ length self.now.handed }
        ensures few { result < 2 ^ 63 }
    {
        self.handed.count()
    }

    /// The clause of the handed lemma with this number.
    pub fn clause(&self, j: usize) -> &[Literal]
        requires { j < length self.now.handed }
        ensures { slice_get self.now.handed j ≡ Some result.now }
    {
        self.handed.clause(j)
    }
}
