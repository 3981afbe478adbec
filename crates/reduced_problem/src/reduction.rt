//! A problem without some of another one's atoms, in whose place it is searched.
ghost use Rattle.std.specs.Prelude.{◌≡◌, List, IfOk, IfSome, IsSome};
ghost use Rattle.refute_tree.specs.declared.lemma.Lemma.{Lemma as Stated};
ghost use Rattle.stn_core.specs.Solution.{IsSolution};
ghost use Rattle.book_core.specs.Verdicts.{IsRight};
ghost use Rattle.book_core.specs.declared.verdict.Verdict.TheVariants.{Unsat};
ghost use Rattle.reduced_problem.specs.Reduced.{IsReductionOf};

use crate::clauses::clauses_from;
use crate::judged::{may_open, tested};
use crate::restating::restate_behind;
use atom_elimination::{Eliminated, Origin, Witnesses, eliminate};
use book_core::Verdict;
use refute_tree::{Batch, Lemma, Refutation};
use std::alloc::{AllocError, Global};
use std::marker::Model;
use stn_core::{Clauses, Problem, Schedule};

/// The problem that is left, the lemmas that state its new clauses, and what the atoms are to be that are gone.
pub struct Reduction {
    problem: Problem,
    lemmas: Vec<Lemma>,
    origins: Vec<Origin>,
    witnesses: Witnesses,
}

impl Drop for Reduction {
    fn drop(self) {
        let Reduction {
            problem,
            lemmas,
            origins,
            witnesses,
        } = self;
        drop(problem);
        drop(lemmas);
        drop(origins);
        drop(witnesses);
    }
}

impl Model for Reduction {
    ghost use Rattle.reduced_problem.specs.Reduced.{Reduced};

    ghost Value = { Reduced };

    ghost view = { λ r. record { problem = r.problem; lemmas = r.lemmas.items; origins = r.origins.items } };
}

// What is left of the problem by these lemmas and origins, if the lemmas are right and all clauses are there.
fn assemble(
    alloc: Global,
    problem: &Problem,
    eliminated: Eliminated,
) -> Result<Option<Reduction>, AllocError>
    ensures { IfOk result (λ found. IfSome found (IsReductionOf problem.now)) }
{
    let (lemmas, origins, witnesses) = eliminated.into_parts();
    let batch = Batch::new(0, lemmas);
    if !may_open(alloc, problem, &batch)? {
        return Ok(None);
    }
    let Some(clauses) = clauses_from(alloc, problem, batch.lemmas(), &origins)? else {
        return Ok(None);
    };
    Ok(Some(Reduction {
        problem: Problem {
            points: problem.points,
            clauses: Clauses::new(clauses),
        },
        lemmas: batch.into_lemmas(),
        origins,
        witnesses,
    }))
}

impl Reduction {
    /// A problem that takes the place of this one in a search, where `atom_elimination` has one. It takes time that goes with the
    /// literals of the problem. The atoms of these points stay. The one error is want of memory.
    pub fn of(alloc: Global, problem: &Problem, kept: &[u32]) -> Result<Option<Self>, AllocError>
        ensures { IfOk result (λ found. IfSome found (IsReductionOf problem.now)) }
    {
        match eliminate(alloc, problem, kept)? {
            Some(eliminated) => assemble(alloc, problem, eliminated),
            None => Ok(None),
        }
    }

    /// The problem that takes the other's place.
    pub fn problem(&self) -> &Problem
        ensures { result.now ≡ self.now.problem }
    {
        &self.problem
    }

    // The lemmas, and where its clauses come from.
    pub(crate) fn into_lemmas(self) -> (Vec<Lemma>, Vec<Origin>)
        ensures lemmas { result.0.items ≡ self.lemmas }
        ensures origins { result.1.items ≡ self.origins }
    {
        let Reduction {
            problem,
            lemmas,
            origins,
            witnesses,
        } = self;
        drop(problem);
        drop(witnesses);
        (lemmas, origins)
    }

    // The schedule, changed where the atoms that are gone want it, if it is one of the problem then.
    pub(crate) fn repaired(
        &self,
        alloc: Global,
        problem: &Problem,
        schedule: Schedule,
    ) -> Result<Option<Schedule>, AllocError>
        ensures { IfOk result (λ found. IfSome found (IsSolution problem.now)) }
    {
        let mut values = schedule.into_vec();
        self.witnesses.repair(&mut values);
        tested(alloc, problem, Schedule::new(values))
    }

    // The refutation as one of the problem, behind the lemmas.
    pub(crate) fn restated(
        self,
        alloc: Global,
        problem: &Problem,
        refutation: Refutation,
    ) -> Result<Refutation, AllocError>
        requires reduction { IsReductionOf problem.now self }
        requires right { IsRight self.problem (Unsat refutation) }
        ensures { IfOk result (λ all. IsRight problem.now (Unsat all)) }
    {
        refute_tree::joined_law();
        let Reduction {
            problem: reduced,
            lemmas,
            origins,
            witnesses,
        } = self;
        drop(witnesses);
        let clauses = reduced.clauses.as_slice();
        let all = restate_behind(alloc, lemmas, &origins, clauses, refutation)?;
        Ok(all)
    }

    /// What the verdict on the problem that took its place says of the problem itself. Of a refutation it always says that there is
    /// no schedule; of a schedule nothing, where that can't be changed to one of the problem. The one error is want of memory.
    pub fn verdict(
        self,
        alloc: Global,
        problem: &Problem,
        verdict: Verdict,
    ) -> Result<Option<Verdict>, AllocError>
        requires reduction { IsReductionOf problem.now self }
        requires right { IsRight self.problem verdict }
        ensures right { IfOk result (λ found. IfSome found (IsRight problem.now)) }
        ensures refuted { (lemmas : List Stated) → verdict ≡ Unsat lemmas → IfOk result (λ found. IsSome found) }
    {
        match verdict {
            Verdict::Sat(schedule) => match self.repaired(alloc, problem, schedule)? {
                Some(schedule) => Ok(Some(Verdict::Sat(schedule))),
                None => Ok(None),
            },
            Verdict::Unsat(refutation) => {
                let all = self.restated(alloc, problem, refutation)?;
                Ok(Some(Verdict::Unsat(all)))
            }
        }
    }
}
