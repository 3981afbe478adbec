//! What the best value of the problem that took another one's place comes to for that.
ghost use Rattle.std.specs.Prelude.{◌≡◌, ◌<◌, All, true, IfOk, IfSome};
ghost use Rattle.stn_core.specs.Solution.{IsSolution};
ghost use Rattle.refute_tree.specs.Trees.{IsRefutation};
ghost use Rattle.refute_tree.specs.Batches.{LemmaIsOver};
ghost use Rattle.best_values.specs.Bests.{objective};
ghost use Rattle.best_values.specs.Questions.{clauses_below};
ghost use Rattle.best_values.specs.Widths.{IsWithinLimit};
ghost use Rattle.best_bound.specs.Answers.{IsBestAnswer, IsLeast};
ghost use Rattle.reduced_problem.specs.Reduced.{IsReductionOf};

use crate::reduction::Reduction;
use crate::restating::restate_behind;
use atom_elimination::Origin;
use best_bound::Best;
use best_values::question;
use refute_tree::Refutation;
use std::alloc::{AllocError, Global};
use stn_core::{Problem, Schedule, Value};

// Whether the points' difference is the value.
fn attains(problem: &Problem, schedule: &Schedule, x: u32, y: u32, value: i64) -> bool
    requires solution { IsSolution problem.now schedule.now }
    requires x_in { x < problem.now.points }
    requires y_in { y < problem.now.points }
    ensures { result ≡ true → objective x y schedule.now ≡ value }
{
    let values = schedule.as_slice();
    values[x as usize] - values[y as usize] == Value::from(value)
}

impl Reduction {
    // The refutation of the question whether the objective can be less, as one of the problem itself.
    fn restated_below(
        self,
        alloc: Global,
        problem: &Problem,
        x: u32,
        y: u32,
        value: Value,
        refutation: Refutation,
    ) -> Result<Refutation, AllocError>
        requires reduction { IsReductionOf problem.now self }
        requires x_in { x < problem.now.points }
        requires y_in { y < problem.now.points }
        requires within { IsWithinLimit value }
        requires refuted { IsRefutation self.problem.points (clauses_below self.problem x y value) refutation }
        requires over { All (LemmaIsOver self.problem.points) refutation }
        ensures refuted { IfOk result (IsRefutation problem.now.points (clauses_below problem.now x y value)) }
        ensures over { IfOk result (All (LemmaIsOver problem.now.points)) }
    {
        refute_tree::joined_law();
        more_inputs::more_inputs_law();
        let asked = question(alloc, self.problem(), x, y, value)?;
        let (lemmas, mut origins) = self.into_lemmas();
        origins.push(Origin::Input(problem.clauses.as_slice().len()))?;
        let clauses = asked.clauses.as_slice();
        let all = restate_behind(alloc, lemmas, &origins, clauses, refutation)?;
        Ok(all)
    }

    // The least value of the problem, if its schedule can be changed to one of the problem itself that has the value still.
    fn least(
        self,
        alloc: Global,
        problem: &Problem,
        x: u32,
        y: u32,
        schedule: Schedule,
        value: i64,
        refutation: Refutation,
    ) -> Result<Option<Best>, AllocError>
        requires reduction { IsReductionOf problem.now self }
        requires x_in { x < problem.now.points }
        requires y_in { y < problem.now.points }
        requires least { IsLeast self.problem x y schedule value refutation }
        ensures { IfOk result (λ found. IfSome found (IsBestAnswer problem.now x y)) }
    {
        let Some(schedule) = self.repaired(alloc, problem, schedule)? else {
            return Ok(None);
        };
        if !attains(problem, &schedule, x, y, value) {
            return Ok(None);
        }
        let all = self.restated_below(alloc, problem, x, y, Value::from(value), refutation)?;
        Ok(Some(Best::Least(schedule, value, all)))
    }

    /// What the best value of the problem that took its place says of the problem itself, which is the same where there is one. Of points
    /// that can be lowered without end it says nothing, nor where the schedule can't be changed to one of the problem with that value: an
    /// atom of the objective's points is to stay. The one error is want of memory.
    pub fn best(
        self,
        alloc: Global,
        problem: &Problem,
        x: u32,
        y: u32,
        best: Best,
    ) -> Result<Option<Best>, AllocError>
        requires reduction { IsReductionOf problem.now self }
        requires x_in { x < problem.now.points }
        requires y_in { y < problem.now.points }
        requires best { IsBestAnswer self.problem x y best }
        ensures { IfOk result (λ found. IfSome found (IsBestAnswer problem.now x y)) }
    {
        match best {
            Best::Nothing(refutation) => {
                let all = self.restated(alloc, problem, refutation)?;
                Ok(Some(Best::Nothing(all)))
            }
            Best::Least(schedule, value, refutation) => {
                self.least(alloc, problem, x, y, schedule, value, refutation)
            }
            Best::Unbounded(_, _) => Ok(None),
        }
    }
}
