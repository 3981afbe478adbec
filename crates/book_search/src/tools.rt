//! What one worker searches with.
ghost use Rattle.std.specs.Prelude.{◌≡◌, All, false, IfOk, IfSome};
ghost use Rattle.std.specs.Arc.{arc_value};
ghost use Rattle.refute_tree.specs.Batches.{LemmaIsOver};
ghost use Rattle.stn_core.specs.Literal.{IsOver};
ghost use Rattle.stn_core.specs.Solution.{IsSolution};
ghost use Rattle.book_core.specs.Shared.{lemmas_of};
ghost use Rattle.book_core.specs.Books.{IsJustified};
ghost use Rattle.book_core.specs.Ends.{said_by};

use crate::finding::{Finding, finding_of, finding_of_part, found_alone, found_instead};
use crate::scattering::scattered;
use crate::walk::Walk;
use branch_search::Searcher;
use inc_paths::Network;
use refute_tree::Lemma;
use std::alloc::{AllocError, Global};
use std::marker::Model;
use std::sync::Arc;
use stn_core::{Literal, Problem, Schedule, Value};
use worker_calls::Calls;

/// A worker's searcher, its net and its local search, which are kept from slice to slice. Contracts see the net's points.
pub struct Tools {
    searcher: Searcher,
    net: Network,
    walk: Walk,
}

impl Drop for Tools {
    fn drop(self) {
        let Tools {
            searcher,
            net,
            walk,
        } = self;
        drop(searcher);
        drop(net);
        drop(walk);
    }
}

impl Model for Tools {
    ghost use Rattle.std.specs.Prelude.{◌≡◌, ℕ, []};

    ghost Value = { ℕ };

    ghost view = { λ t. t.net.points };

    ghost invariant = { λ t. t.net.literals ≡ [] };
}

impl Tools {
    /// The tools of one of several workers, who share the calls. The one error is want of memory.
    pub fn beside(alloc: Global, problem: &Problem, calls: Arc<Calls>) -> Result<Self, AllocError>
        ensures { IfOk result (λ tools. tools ≡ problem.now.points) }
    {
        Ok(Tools {
            searcher: Searcher::beside(alloc, problem, calls)?,
            net: Network::new(alloc, problem.points)?,
            walk: Walk::never(),
        })
    }

    /// The tools of one that works alone: nobody waits for a half of a cube that it divides. The one error is want of
    /// memory.
    pub fn alone(alloc: Global, problem: &Problem) -> Result<Self, AllocError>
        ensures { IfOk result (λ tools. tools ≡ problem.now.points) }
    {
        Ok(Tools {
            searcher: Searcher::alone(alloc, problem)?,
            net: Network::new(alloc, problem.points)?,
            walk: Walk::never(),
        })
    }

    /// Literals that were never decided are decided as they hold on these values of the first time points: a hint. These tools
    /// look for a schedule by local search, and where there are no values before the first slice.
    pub fn follow(&mut self, values: &[Value])
        ensures { self.new ≡ self.old }
    {
        self.searcher.follow(values);
        self.walk = Walk::new(values.is_empty());
    }

    /// Literals that were never decided are decided as they hold on values that are drawn from this seed: a hint, by which one
    /// of several workers looks elsewhere than the others. The one error is want of memory.
    pub fn scatter(&mut self, alloc: Global, points: u32, seed: u32) -> Result<(), AllocError>
        ensures { self.new ≡ self.old }
    {
        let values = scattered(alloc, points, seed)?;
        self.searcher.follow(values.as_slice());
        Ok(())
    }

    /// Whether a slice met a conflict yet.
    pub fn met_conflict(&self) -> bool {
        self.searcher.conflicts() > 0
    }

    // One slice of search under the cube, over these lemmas, as a delivery. It pauses only where it may.
    fn slice(
        &mut self,
        alloc: Global,
        problem: &Problem,
        lemmas: &[Arc<Lemma>],
        cube: &[Literal],
        budget: u64,
        pauses: bool,
    ) -> Result<Finding, AllocError>
        requires points { self.old ≡ problem.now.points }
        requires lemmas { All (LemmaIsOver problem.now.points) (lemmas_of lemmas.now) }
        requires cube { All (IsOver problem.now.points) cube.now }
        ensures points { self.new ≡ self.old }
        ensures justified { IfOk result (λ d.
            IsJustified problem.now (lemmas_of lemmas.now) cube.now d.batch d.outcome) }
        ensures said { pauses ≡ false → IfOk result (λ d. said_by d.outcome ≡ 1) }
    {
        if pauses {
            let found = self
                .searcher
                .part(alloc, problem, &lemmas, cube, budget, &mut self.net)?;
            let delivery = finding_of_part(found)?;
            return Ok(delivery);
        }
        let found = self
            .searcher
            .slice(alloc, problem, &lemmas, cube, budget, &mut self.net)?;
        let delivery = finding_of(found)?;
        Ok(delivery)
    }

    // A schedule, where local search comes before the first slice and finds one.
    fn look_first(
        &mut self,
        alloc: Global,
        problem: &Problem,
    ) -> Result<Option<Schedule>, AllocError>
        ensures points { self.new ≡ self.old }
        ensures found { IfOk result (λ found. IfSome found (IsSolution problem.now)) }
    {
        if self.walk.is_first() {
            self.walk.look(alloc, problem, 0)
        } else {
            Ok(None)
        }
    }

    // A schedule, where a slice of this budget ended undecided, there was a conflict, and local search finds one.
    fn look_later(
        &mut self,
        alloc: Global,
        problem: &Problem,
        finding: &Finding,
        budget: u64,
    ) -> Result<Option<Schedule>, AllocError>
        ensures points { self.new ≡ self.old }
        ensures found { IfOk result (λ found. IfSome found (IsSolution problem.now)) }
    {
        if finding.divides && self.met_conflict() {
            self.walk.look(alloc, problem, budget)
        } else {
            Ok(None)
        }
    }

    /// One slice of search under the cube, over these lemmas, as a delivery. Where it ends undecided, a schedule is looked for
    /// by local search once there was a conflict, and by who follows no values before a first slice over no lemmas. Only where
    /// it may pause does the delivery say nothing of the cube. The one error is want of memory.
    pub fn search(
        &mut self,
        alloc: Global,
        problem: &Problem,
        lemmas: &[Arc<Lemma>],
        cube: &[Literal],
        budget: u64,
        pauses: bool,
    ) -> Result<Finding, AllocError>
        requires points { self.old ≡ problem.now.points }
        requires lemmas { All (LemmaIsOver problem.now.points) (lemmas_of lemmas.now) }
        requires cube { All (IsOver problem.now.points) cube.now }
        ensures points { self.new ≡ self.old }
        ensures justified { IfOk result (λ d.
            IsJustified problem.now (lemmas_of lemmas.now) cube.now d.batch d.outcome) }
        ensures said { pauses ≡ false → IfOk result (λ d. said_by d.outcome ≡ 1) }
    {
        if lemmas.is_empty() {
            if let Some(schedule) = self.look_first(alloc, problem)? {
                return Ok(found_alone(alloc, schedule));
            }
        }
        let finding = self.slice(alloc, problem, lemmas, cube, budget, pauses)?;
        match self.look_later(alloc, problem, &finding, budget)? {
            Some(schedule) => Ok(found_instead(finding, schedule)),
            None => Ok(finding),
        }
    }
}
