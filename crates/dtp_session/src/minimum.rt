//! What decides a minimize.
ghost use Rattle.std.specs.Prelude.{◌<◌, All, IfOk, IfSome};
ghost use Rattle.refute_tree.specs.Batches.{LemmaIsOver};
ghost use Rattle.smt_sexpr.specs.Tree.{Sexpr};
ghost use Rattle.best_values.specs.Widths.{Fits, IsWithinLimit};
ghost use Rattle.book_core.specs.Books.{IsOpening};
ghost use Rattle.best_bound.specs.Answers.{IsBestAnswer};
ghost use Rattle.smt_script.specs.States.{State as Meaning};
ghost use Rattle.smt_script.specs.declared.state.Question.TheVariants as asked;
ghost use Rattle.script_walk.specs.code.Standing.{Stands};
ghost use Rattle.dtp_session.specs.code.Forms.{version_wanted};
ghost use Rattle.dtp_session.specs.code.Decisions.{IsTaken, IsDecidedBy, RefutesLess, IsLeastShown};

use crate::decision::Decision;
use crate::earlier::Earlier;
use crate::guess::phases_for;
use crate::options::SearchOptions;
use crate::shown::{Shown, kept, refuted, with_lemmas, without_lemmas};
use crate::wanted::Wanted;
use best_bound::{Best, best_one_with, best_shared_with};
use best_values::{fits, question};
use cert_text::Entry;
use clause_form::restrict;
use kept_schedule::KeptSchedule;
use learned_lemmas::TakenOver;
use reduced_problem::Reduction;
use refute_tree::{Batch, Refutation};
use smt_script::{Objective, State};
use std::alloc::{AllocError, Global};
use std::sync::Wait;
use std::thread::Threads;
use steal_search::Gate;
use stn_core::{NamedValues, Problem, Value};

/// The least value by as many workers as are asked for; one is the caller itself. The search has these lemmas of the problem from the start.
fn search_from<R: Threads + Wait + Sync, G: Gate>(
    rt: &R,
    alloc: Global,
    problem: &Problem,
    objective: Objective,
    opening: Batch,
    phases: &[Value],
    options: SearchOptions,
    gate: &G,
) -> Result<Best, AllocError>
    requires opens { IsOpening problem.now opening.lemmas }
    requires fits { Fits problem.now }
    requires x_in { objective.x < problem.now.points }
    requires y_in { objective.y < problem.now.points }
    ensures { IfOk result (IsBestAnswer problem.now objective.x objective.y) }
{
    let (x, y) = (objective.x, objective.y);
    let slice = u64::from(options.slice);
    let workers = options.workers;
    if workers == 1 {
        best_one_with(alloc, problem, opening, phases, x, y, slice)
    } else {
        best_shared_with(
            rt, alloc, problem, opening, phases, x, y, workers, slice, gate,
        )
    }
}

/// The least value by another problem that lacks some of the atoms and has the objective's points, where there is one and it says something.
fn search_reduced<R: Threads + Wait + Sync, G: Gate>(
    rt: &R,
    alloc: Global,
    problem: &Problem,
    objective: Objective,
    phases: &[Value],
    options: SearchOptions,
    gate: &G,
) -> Result<Option<Best>, AllocError>
    requires x_in { objective.x < problem.now.points }
    requires y_in { objective.y < problem.now.points }
    ensures { IfOk result (λ found. IfSome found (IsBestAnswer problem.now objective.x objective.y)) }
{
    let points = [objective.x, objective.y];
    let Some(reduction) = Reduction::of(alloc, problem, points.as_slice())? else {
        return Ok(None);
    };
    let reduced = reduction.problem();
    if !fits(reduced) {
        return Ok(None);
    }
    let nothing = Batch::new(0, Vec::new(alloc));
    let best = search_from(
        rt, alloc, reduced, objective, nothing, phases, options, gate,
    )?;
    reduction.best(alloc, problem, objective.x, objective.y, best)
}

/// The least value: by an earlier refutation, where that stands, and else by a search, which may open with what an earlier one learned, and decides literals
/// as these hold on the values that are kept, or on those of dispatching. Where nothing is learned, a problem without some of the atoms may be searched in its place.
fn search<R: Threads + Wait + Sync, G: Gate>(
    rt: &R,
    alloc: Global,
    problem: &Problem,
    objective: Objective,
    kept: &KeptSchedule,
    earlier: &Earlier,
    options: SearchOptions,
    gate: &G,
) -> Result<Best, AllocError>
    requires fits { Fits problem.now }
    requires x_in { objective.x < problem.now.points }
    requires y_in { objective.y < problem.now.points }
    ensures { IfOk result (IsBestAnswer problem.now objective.x objective.y) }
{
    match earlier.taken(alloc, problem)? {
        TakenOver::Refutes(refutation) => Ok(Best::Nothing(refutation)),
        TakenOver::Opens(opening) => {
            let phases = phases_for(alloc, problem, kept)?;
            if opening.lemmas().is_empty() {
                let found = search_reduced(rt, alloc, problem, objective, &phases, options, gate)?;
                if let Some(best) = found {
                    return Ok(best);
                }
            }
            search_from(
                rt, alloc, problem, objective, opening, &phases, options, gate,
            )
        }
    }
}

/// The entry of a least value: of the points' difference, to which the objective's number comes.
fn least(
    alloc: Global,
    wanted: Wanted,
    problem: &Problem,
    objective: Objective,
    schedule: NamedValues,
    difference: i64,
    refutation: Refutation,
    earlier: &mut Earlier,
) -> Result<Shown, AllocError>
    requires x_in { objective.x < problem.now.points }
    requires y_in { objective.y < problem.now.points }
    requires within { IsWithinLimit difference }
    requires refutes { RefutesLess problem.now objective difference refutation }
    requires over { All (LemmaIsOver problem.now.points) refutation }
    ensures { IfOk result (λ shown. IsLeastShown (version_wanted wanted) earlier.old problem.now objective schedule difference refutation shown earlier.new) }
{
    let asked = question(
        alloc,
        problem,
        objective.x,
        objective.y,
        Value::from(difference),
    )?;
    earlier.learn(alloc, &asked, refutation.as_slice(), false)?;
    let lemmas = kept(alloc, wanted, &asked, refutation)?;
    let minimum = Value::from(difference) + Value::from(objective.k);
    let entry = Entry::Best(minimum, schedule, lemmas);
    let shown = with_lemmas(alloc, wanted, asked, entry, earlier)?;
    Ok(shown)
}

/// Decides a minimize: the least value with a schedule that has it and a refutation of any less; or values of the points and
/// a set that can be lowered without end; or a refutation of the problem.
pub fn minimize<R: Threads + Wait + Sync, G: Gate>(
    rt: &R,
    alloc: Global,
    state: &State,
    objective: Objective,
    problem: Problem,
    kept: &KeptSchedule,
    earlier: &mut Earlier,
    wanted: Wanted,
    options: SearchOptions,
    gate: &G,
) -> Result<Decision, AllocError>
    requires { (s : Meaning) × (x : Sexpr) × Stands state.now s × IsTaken (asked.Minimize objective) x s problem }
    ensures { IfOk result (λ decision. (s : Meaning) (x : Sexpr) → Stands state.now s
        → IsTaken (asked.Minimize objective) x s problem
        → IsDecidedBy (version_wanted wanted) earlier.old (asked.Minimize objective) x s.context decision earlier.new) }
{
    idl_term::context_law();
    clause_form::clause_form_law();
    refute_tree::refutation_law();
    refute_tree::lengths_law();
    stn_core::negation_kept();
    best_values::unbounded_law();
    unsat_cores::core_law();
    let best = search(rt, alloc, &problem, objective, kept, earlier, options, gate)?;
    match best {
        Best::Nothing(refutation) => {
            let shown = refuted(alloc, wanted, problem, refutation, false, earlier)?;
            Ok(Decision { shown, given: None })
        }
        Best::Least(values, difference, refutation) => {
            let schedule = restrict(alloc, values.as_slice(), state.names().sorts())?;
            let shown = least(
                alloc, wanted, &problem, objective, schedule, difference, refutation, earlier,
            )?;
            Ok(Decision { shown, given: None })
        }
        Best::Unbounded(values, set) => {
            let schedule = restrict(alloc, values.as_slice(), state.names().sorts())?;
            let shown = without_lemmas(alloc, wanted, Entry::Unbounded(values, set), earlier)?;
            Ok(Decision {
                shown,
                given: Some(schedule),
            })
        }
    }
}
