//! What decides a question.
ghost use Rattle.std.specs.Prelude.{◌≡◌, IfOk, IfSome};
ghost use Rattle.smt_sexpr.specs.Tree.{Sexpr};
ghost use Rattle.smt_script.specs.States.{State as Meaning};
ghost use Rattle.smt_script.specs.declared.state.Question.TheVariants as asked;
ghost use Rattle.script_walk.specs.code.Standing.{Stands};
ghost use Rattle.book_core.specs.Books.{IsOpening};
ghost use Rattle.book_core.specs.Verdicts.{IsRight};
ghost use Rattle.dtp_session.specs.code.Forms.{version_wanted};
ghost use Rattle.dtp_session.specs.code.Decisions.{IsTaken, IsDecidedBy};

use crate::earlier::Earlier;
use crate::guess::{Guess, guessed};
use crate::minimum::minimize;
use crate::options::SearchOptions;
use crate::shown::{Shown, refuted, without_lemmas};
use crate::wanted::Wanted;
use book_core::Verdict;
use book_search::{decide_units, refute_along};
use cert_text::Entry;
use clause_form::restrict;
use kept_schedule::KeptSchedule;
use learned_lemmas::TakenOver;
use reduced_problem::Reduction;
use refute_tree::Batch;
use relaxed_lemmas::relaxed;
use smt_script::{Question, State};
use std::alloc::{AllocError, Global};
use std::sync::Wait;
use std::thread::Threads;
use steal_search::{Gate, search_one, search_shared};
use stn_core::{NamedValues, Problem, Value};

/// What a check-sat's problem comes to.
#[derive(Drop)]
struct Searched {
    verdict: Verdict,
    /// Whether it is an earlier question's refutation, taken over as it was written for this one.
    is_taken: bool,
}

/// What decides a question.
#[derive(Drop)]
pub struct Decision {
    pub shown: Shown,
    /// Where the entry has values of the time points: the schedule that they give.
    pub given: Option<NamedValues>,
}

/// Decides the problem by as many workers as are asked for; one is the caller itself.
fn search_from<R: Threads + Wait + Sync, G: Gate>(
    rt: &R,
    alloc: Global,
    problem: &Problem,
    opening: Batch,
    phases: &[Value],
    options: SearchOptions,
    gate: &G,
) -> Result<Verdict, AllocError>
    requires seen { opening.seen ≡ 0 }
    requires opens { IsOpening problem.now opening.lemmas }
    ensures { IfOk result (IsRight problem.now) }
{
    let slice = u64::from(options.slice);
    let workers = options.workers;
    if workers == 1 {
        let verdict = search_one(alloc, problem, opening, phases, slice)?;
        return Ok(verdict);
    }
    let verdict = search_shared(rt, alloc, problem, opening, phases, workers, slice, gate)?;
    Ok(verdict)
}

/// Decides the problem by another one that lacks some of its atoms, where there is one and it says something.
fn search_reduced<R: Threads + Wait + Sync, G: Gate>(
    rt: &R,
    alloc: Global,
    problem: &Problem,
    phases: &[Value],
    options: SearchOptions,
    gate: &G,
) -> Result<Option<Verdict>, AllocError>
    ensures { IfOk result (λ found. IfSome found (IsRight problem.now)) }
{
    let Some(reduction) = Reduction::of(alloc, problem, &[])? else {
        return Ok(None);
    };
    let nothing = Batch::new(0, Vec::new(alloc));
    let reduced = reduction.problem();
    let verdict = search_from(rt, alloc, reduced, nothing, phases, options, gate)?;
    reduction.verdict(alloc, problem, verdict)
}

/// Decides the problem by its clauses of one literal, where these do: along what was noted, or by all of them.
fn decide_early(
    alloc: Global,
    problem: &Problem,
    kept: &KeptSchedule,
) -> Result<Option<Verdict>, AllocError>
    ensures { IfOk result (λ found. IfSome found (IsRight problem.now)) }
{
    if let Some(verdict) = refute_along(alloc, problem, kept.noted())? {
        return Ok(Some(verdict));
    }
    decide_units(alloc, problem)
}

/// Decides the problem: where no schedule is kept by one that dispatching finds, and else by a search, which opens with these lemmas. It decides literals as
/// these hold on the values that are kept, or on those of dispatching; where there are no lemmas, a problem without some of its atoms may be searched in its place.
fn search_anew<R: Threads + Wait + Sync, G: Gate>(
    rt: &R,
    alloc: Global,
    problem: &Problem,
    opening: Batch,
    kept: &KeptSchedule,
    options: SearchOptions,
    gate: &G,
) -> Result<Verdict, AllocError>
    requires seen { opening.seen ≡ 0 }
    requires opens { IsOpening problem.now opening.lemmas }
    ensures { IfOk result (IsRight problem.now) }
{
    let Guess { schedule, phases } = guessed(alloc, problem, kept)?;
    if let Some(schedule) = schedule {
        return Ok(Verdict::Sat(schedule));
    }
    if opening.lemmas().is_empty() {
        if let Some(verdict) = search_reduced(rt, alloc, problem, &phases, options, gate)? {
            return Ok(verdict);
        }
    }
    search_from(rt, alloc, problem, opening, &phases, options, gate)
}

/// The verdict; where lemmas may be kept of the entry of a refutation, and unit clauses of its problem may be gone by the next question, a refutation of which
/// that question may keep more.
fn for_later(
    alloc: Global,
    state: &State,
    problem: &Problem,
    verdict: Verdict,
    earlier: &Earlier,
    wanted: Wanted,
) -> Result<Verdict, AllocError>
    requires { IsRight problem.now verdict }
    ensures { IfOk result (IsRight problem.now) }
{
    let may_go = state.levels() > 0 || state.assumptions().is_some();
    if !may_go || !earlier.keeps_for(wanted) {
        return Ok(verdict);
    }
    match verdict {
        Verdict::Sat(schedule) => Ok(Verdict::Sat(schedule)),
        Verdict::Unsat(refutation) => {
            let refutation = relaxed(alloc, problem, refutation)?;
            Ok(Verdict::Unsat(refutation))
        }
    }
}

/// Decides the problem: by clauses of one literal, by an earlier refutation, which stays as it was written for this question, and else by dispatching or a
/// search, which may open with what an earlier one learned.
fn search<R: Threads + Wait + Sync, G: Gate>(
    rt: &R,
    alloc: Global,
    state: &State,
    problem: &Problem,
    kept: &KeptSchedule,
    earlier: &Earlier,
    wanted: Wanted,
    options: SearchOptions,
    gate: &G,
) -> Result<Searched, AllocError>
    ensures { IfOk result (λ searched. IsRight problem.now searched.verdict) }
{
    let early = decide_early(alloc, problem, kept)?;
    let found = match early {
        Some(verdict) => verdict,
        None => match earlier.taken(alloc, problem)? {
            TakenOver::Refutes(refutation) => {
                return Ok(Searched {
                    verdict: Verdict::Unsat(refutation),
                    is_taken: true,
                });
            }
            TakenOver::Opens(opening) => {
                search_anew(rt, alloc, problem, opening, kept, options, gate)?
            }
        },
    };
    let verdict = for_later(alloc, state, problem, found, earlier, wanted)?;
    Ok(Searched {
        verdict,
        is_taken: false,
    })
}

/// Decides a check-sat: a schedule that satisfies the assertions, or a refutation of their problem.
fn satisfy<R: Threads + Wait + Sync, G: Gate>(
    rt: &R,
    alloc: Global,
    state: &State,
    problem: Problem,
    kept: &KeptSchedule,
    earlier: &mut Earlier,
    wanted: Wanted,
    options: SearchOptions,
    gate: &G,
) -> Result<Decision, AllocError>
    requires { (s : Meaning) × (x : Sexpr) × Stands state.now s × IsTaken asked.CheckSat x s problem }
    ensures { IfOk result (λ decision. (s : Meaning) (x : Sexpr) → Stands state.now s → IsTaken asked.CheckSat x s problem
        → IsDecidedBy (version_wanted wanted) earlier.old asked.CheckSat x s.context decision earlier.new) }
{
    idl_term::context_law();
    clause_form::clause_form_law();
    refute_tree::refutation_law();
    refute_tree::lengths_law();
    stn_core::negation_kept();
    best_values::unbounded_law();
    unsat_cores::core_law();
    let searched = search(
        rt, alloc, state, &problem, kept, earlier, wanted, options, gate,
    )?;
    let Searched { verdict, is_taken } = searched;
    match verdict {
        Verdict::Sat(schedule) => {
            let values = restrict(alloc, schedule.as_slice(), state.names().sorts())?;
            let shown = without_lemmas(alloc, wanted, Entry::Sat(values), earlier)?;
            Ok(Decision { shown, given: None })
        }
        Verdict::Unsat(refutation) => {
            let shown = refuted(alloc, wanted, problem, refutation, is_taken, earlier)?;
            Ok(Decision { shown, given: None })
        }
    }
}

/// Decides a question over the problem of the assertions. Where no entry is wanted, a refutation stays as the search left it,
/// and is put in its form when it is written.
/// What is kept of an earlier question is a hint for a check-sat: for some points another one, along which unit clauses may refute it, values, and
/// lemmas.
/// The time of the search may grow with the number of ways to choose a literal of each clause.
pub fn decide<R: Threads + Wait + Sync, G: Gate>(
    rt: &R,
    alloc: Global,
    state: &State,
    question: Question,
    problem: Problem,
    kept: &KeptSchedule,
    earlier: &mut Earlier,
    wanted: Wanted,
    options: SearchOptions,
    gate: &G,
) -> Result<Decision, AllocError>
    requires { (s : Meaning) × (x : Sexpr) × Stands state.now s × IsTaken question x s problem }
    ensures { IfOk result (λ decision. (s : Meaning) (x : Sexpr) → Stands state.now s → IsTaken question x s problem
        → IsDecidedBy (version_wanted wanted) earlier.old question x s.context decision earlier.new) }
{
    match question {
        Question::CheckSat => satisfy(
            rt, alloc, state, problem, kept, earlier, wanted, options, gate,
        ),
        Question::Minimize(objective) => minimize(
            rt, alloc, state, objective, problem, kept, earlier, wanted, options, gate,
        ),
    }
}
