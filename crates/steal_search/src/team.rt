//! What the workers of a problem share.
ghost use Rattle.std.specs.Prelude.{◌≡◌};

use std::alloc::Global;
use std::marker::Model;
use std::sync::Arc;
use stn_core::Problem;
use worker_calls::Calls;
use worker_gates::Gate;

/// How several workers share a problem.
#[derive(Clone, Copy)]
pub(crate) enum Manner {
    /// Each takes a cube of it.
    Cubes,
    /// Each searches the whole beside the others, from a place of its own.
    Whole,
}

/// What all workers of a problem have beside its desk and its pool: how great the budget of a worker's first slice is, the
/// calls by which one ends the slices of the others, and the gate that each passes behind a slice.
///
/// Contracts see the problem alone.
#[derive(Drop)]
pub struct Team<'a, G: Gate> {
    alloc: Global,
    problem: &'a Problem,
    budget: u64,
    calls: &'a Arc<Calls>,
    gate: &'a G,
}

impl<'a, G: Gate> Model for Team<'a, G> {
    ghost use Rattle.stn_core.specs.declared.problem.Problem.{Problem};

    ghost Value = { Problem };

    ghost view = { λ t. t.problem.now };
}

impl<'a, G: Gate> Team<'a, G> {
    /// The calls are shared by no other workers.
    pub fn new(
        alloc: Global,
        problem: &'a Problem,
        budget: u64,
        calls: &'a Arc<Calls>,
        gate: &'a G,
    ) -> Self
        ensures { result ≡ problem.now }
    {
        Team {
            alloc,
            problem,
            budget,
            calls,
            gate,
        }
    }

    pub(crate) fn alloc(&self) -> Global {
        self.alloc
    }

    pub(crate) fn problem(&self) -> &'a Problem
        ensures { result.now ≡ self.now }
    {
        self.problem
    }

    /// That of a worker's first slice.
    pub(crate) fn budget(&self) -> u64 {
        self.budget
    }

    pub(crate) fn calls(&self) -> &'a Arc<Calls> {
        self.calls
    }

    pub(crate) fn gate(&self) -> &'a G {
        self.gate
    }
}
