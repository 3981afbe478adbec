//! From question to question.
ghost use Rattle.std.specs.Prelude.{◌≡◌, ◌↔◌, ◌<◌, ℕ, IfOk, IsTrue, MatchOption, neg_ℤ, ◌≤ℤ◌, ◌<ℤ◌};
ghost use Rattle.stn_core.specs.Solution.{IsSolution};
ghost use Rattle.stn_core.specs.declared.problem.Problem.{Problem};
ghost use Rattle.best_values.specs.Bests.{objective, IsFreeSet};
ghost use Rattle.best_values.specs.Widths.{Fits};
ghost use Rattle.better_schedules.specs.Near.{span};
ghost use Rattle.better_schedules.specs.code.Descents.{IsDescent, IsMiddle, IsTooLow, IsQuestion, LeadsOn};

use crate::incumbent::{Incumbent, improved, opened};
use crate::lower_bound::{Bound, floored, is_near, middle, near_of};
use crate::tight::low_hint;
use crate::unbounded::unbounded_set;
use best_values::question;
use std::alloc::{AllocError, Global};
use stn_core::{Problem, Schedule, Value};

/// The best schedule so far, and a bound below which nothing is asked for any more.
#[derive(Drop)]
pub struct Descent {
    pub lower: Bound,
    pub incumbent: Incumbent,
    // how far below the best value is asked next, at most: twice as far after each schedule, since one that is far from the
    // best is found soon, and half of the way once a bound was refuted
    step: Value,
    // a way that is left of no more than this is near
    near: Value,
}

/// The problem with one more clause, the last: the objective is below the bound.
pub struct Question {
    pub bound: Bound,
    pub problem: Problem,
}

impl Drop for Question {
    fn drop(self) {
        let Question { bound, problem } = self;
        drop(bound);
        drop(problem);
    }
}

impl Descent {
    /// With the first schedule, brought near 0 and made better, and a bound by the clauses of one literal.
    pub fn begin(
        alloc: Global,
        problem: &Problem,
        first: Schedule,
        x: u32,
        y: u32,
    ) -> Result<Self, AllocError>
        requires fits { Fits problem.now }
        requires x_in { x < problem.now.points }
        requires y_in { y < problem.now.points }
        requires solution { IsSolution problem.now first }
        ensures { IfOk result (IsDescent problem.now x y) }
    {
        let hint = low_hint(alloc, problem, x, y)?;
        let incumbent = opened(alloc, problem, first, x, y)?;
        let lower = floored(problem, hint);
        Ok(Descent {
            near: near_of(lower, &incumbent),
            lower,
            incumbent,
            step: 0,
        })
    }

    /// What is to be asked next, or None where the value is too low for any to be best.
    pub fn ask(
        &self,
        alloc: Global,
        problem: &Problem,
        x: u32,
        y: u32,
    ) -> Result<Option<Question>, AllocError>
        requires fits { Fits problem.now }
        requires x_in { x < problem.now.points }
        requires y_in { y < problem.now.points }
        requires descent { IsDescent problem.now x y self.now }
        ensures { IfOk result (λ next. MatchOption next (IsTooLow problem.now self.now) (IsQuestion problem.now x y self.now)) }
    {
        if !is_near(problem, self.incumbent.value) {
            return Ok(None);
        }
        let bound = middle(self.lower, &self.incumbent, self.step, self.near);
        let asked = question(alloc, problem, x, y, bound.value)?;
        Ok(Some(Question {
            bound,
            problem: asked,
        }))
    }

    /// The question for anything less than the best schedule's value.
    pub fn last(
        &self,
        alloc: Global,
        problem: &Problem,
        x: u32,
        y: u32,
    ) -> Result<Question, AllocError>
        requires fits { Fits problem.now }
        requires x_in { x < problem.now.points }
        requires y_in { y < problem.now.points }
        requires descent { IsDescent problem.now x y self.now }
        requires near { neg_ℤ (span problem.now) ≤ℤ self.now.incumbent.value }
        ensures { IfOk result (λ question. IsQuestion problem.now x y self.now question × (question.bound.value ≡ self.now.incumbent.value)) }
    {
        let bound = Bound {
            value: self.incumbent.value,
        };
        let asked = question(alloc, problem, x, y, bound.value)?;
        Ok(Question {
            bound,
            problem: asked,
        })
    }

    /// Whether it was asked for anything less than the best schedule's value.
    pub fn is_last(&self, question: &Question) -> bool
        ensures { IsTrue result ↔ (question.now.bound.value ≡ self.now.incumbent.value) }
    {
        question.bound.value == self.incumbent.value
    }

    /// After a question that wasn't the last, and that no schedule answers: nothing up to its bound is asked for any more.
    pub fn raised(self, bound: Bound) -> Self
        ensures { (problem : Problem) (x y : ℕ) → IsDescent problem x y self → neg_ℤ (span problem) ≤ℤ self.incumbent.value
            → IsMiddle self.lower.value self.incumbent.value bound.value → ¬ (bound.value ≡ self.incumbent.value)
            → LeadsOn problem x y self result }
    {
        Descent {
            lower: bound,
            incumbent: self.incumbent,
            step: Value::MAX,
            near: self.near,
        }
    }

    /// After a schedule whose value is less, which is made better first.
    pub fn improved(
        self,
        alloc: Global,
        problem: &Problem,
        schedule: Schedule,
        x: u32,
        y: u32,
    ) -> Result<Self, AllocError>
        requires x_in { x < problem.now.points }
        requires y_in { y < problem.now.points }
        requires descent { IsDescent problem.now x y self }
        requires near { neg_ℤ (span problem.now) ≤ℤ self.incumbent.value }
        requires solution { IsSolution problem.now schedule }
        requires less { objective x y schedule <ℤ self.incumbent.value }
        ensures { IfOk result (LeadsOn problem.now x y self) }
    {
        let incumbent = improved(alloc, problem, schedule, x, y)?;
        Ok(Descent {
            lower: self.lower,
            incumbent,
            step: self.step.saturating_mul(2).saturating_add(1),
            near: self.near,
        })
    }

    /// The points that can be lowered without end, where the value is too low for any to be best.
    pub fn free_set(
        &self,
        alloc: Global,
        problem: &Problem,
        x: u32,
        y: u32,
    ) -> Result<Vec<u32>, AllocError>
        requires x_in { x < problem.now.points }
        requires y_in { y < problem.now.points }
        requires descent { IsDescent problem.now x y self.now }
        requires low { IsTooLow problem.now self.now }
        ensures { IfOk result (λ set. IsFreeSet problem.now x y self.now.incumbent.schedule set.items) }
    {
        let set = unbounded_set(alloc, problem, self.incumbent.schedule.as_slice(), x, y)?;
        Ok(set)
    }
}
