//! Questions to a search that is kept from one to the next.
ghost use Rattle.std.specs.Prelude.{◌≡◌, ◌<◌, ◌≤ℤ◌, neg_ℤ, [], ◌∷◌, IfOk, IfSome};
ghost use Rattle.stn_core.specs.Literal.{IsOver};
ghost use Rattle.best_values.specs.Questions.{below};
ghost use Rattle.best_values.specs.Widths.{Fits, IsWithinLimit};
ghost use Rattle.better_schedules.specs.code.Descents.{IsDescent, IsQuestion};
ghost use Rattle.book_core.specs.Books.{IsOpening};
ghost use Rattle.kept_search.specs.Kept.{IsSearchOf};
ghost use Rattle.best_bound.specs.code.Askings.{IsTurn, IsBegun};

use crate::hearing::{Heard, hear, least};
use best_values::below;
use better_schedules::{Descent, Question};
use book_core::Verdict;
use book_search::decide_units;
use kept_search::{KeptSearch, Reply};
use refute_tree::Batch;
use std::alloc::{AllocError, Global};
use stn_core::{Literal, Problem, Value};

/// How many slices a question gets whose bound lies below the best schedule's value. Then it is asked for anything better at
/// all: to refute far below that value can be as hard as at the least one.
const SLICES: u64 = 1;

/// What a question comes to.
#[derive(Drop)]
pub enum Asked {
    Heard(Heard),
    /// Within its slices nothing was found of this question, which asks for anything better at all.
    Open(Descent, Question),
}

/// What a question comes to, with the search, where one was needed yet and more may be asked of it.
#[derive(Drop)]
pub struct Turn {
    pub asked: Asked,
    pub search: Option<KeptSearch>,
}

/// What is known of the problem, with the search, where one was needed.
#[derive(Drop)]
pub struct Begun {
    /// None where the slices were too few.
    pub verdict: Option<Verdict>,
    pub search: Option<KeptSearch>,
}

/// Whether the problem has a schedule, by its clauses of one literal, or by up to so many slices of a search, which has these lemmas from the start.
pub(crate) fn begin(
    alloc: Global,
    problem: &Problem,
    opening: Batch,
    phases: &[Value],
    budget: u64,
    slices: u64,
) -> Result<Begun, AllocError>
    requires { IsOpening problem.now opening.lemmas }
    ensures { IfOk result (IsBegun problem.now) }
{
    let units = decide_units(alloc, problem)?;
    if units.is_some() {
        return Ok(Begun {
            verdict: units,
            search: None,
        });
    }
    let mut search = KeptSearch::new(alloc, problem, opening, phases, budget)?;
    match search.under(alloc, problem, &[], slices)? {
        Reply::Holds(schedule) => Ok(Begun {
            verdict: Some(Verdict::Sat(schedule)),
            search: Some(search),
        }),
        Reply::Denied(j) => {
            let refutation = search.refutation(alloc, problem, j)?;
            Ok(Begun {
                verdict: Some(Verdict::Unsat(refutation)),
                search: None,
            })
        }
        Reply::Open => Ok(Begun {
            verdict: None,
            search: Some(search),
        }),
    }
}

// The search, made where there is none yet.
fn ready(
    alloc: Global,
    problem: &Problem,
    search: Option<KeptSearch>,
    budget: u64,
) -> Result<KeptSearch, AllocError>
    requires { IfSome search (IsSearchOf problem.now) }
    ensures { IfOk result (IsSearchOf problem.now) }
{
    match search {
        Some(search) => Ok(search),
        None => {
            let nothing = Batch::new(0, Vec::new(alloc));
            let search = KeptSearch::new(alloc, problem, nothing, &[], budget)?;
            Ok(search)
        }
    }
}

// The literal that the question's last clause has.
fn literal_of(question: &Question, x: u32, y: u32) -> Literal
    requires { IsWithinLimit question.now.bound.value }
    ensures { result ≡ below x y question.now.bound.value }
{
    below(x, y, question.bound.value)
}

// Asks the search, which assumes that the objective is below the question's bound, for up to so many slices.
fn ask_kept(
    alloc: Global,
    problem: &Problem,
    mut search: KeptSearch,
    descent: Descent,
    question: Question,
    x: u32,
    y: u32,
    slices: u64,
) -> Result<Turn, AllocError>
    requires fits { Fits problem.now }
    requires x_in { x < problem.now.points }
    requires y_in { y < problem.now.points }
    requires search { IsSearchOf problem.now search }
    requires descent { IsDescent problem.now x y descent }
    requires question { IsQuestion problem.now x y descent question }
    ensures { IfOk result (IsTurn problem.now x y descent) }
{
    let literal = literal_of(&question, x, y);
    match search.under(alloc, problem, [literal].as_slice(), slices)? {
        Reply::Holds(schedule) => {
            let next = descent.improved(alloc, problem, schedule, x, y)?;
            Ok(Turn {
                asked: Asked::Heard(Heard::GoesOn(next)),
                search: Some(search),
            })
        }
        Reply::Denied(j) => {
            if descent.is_last(&question) {
                let refutation = search.refutation_with(
                    alloc,
                    problem,
                    &question.problem,
                    literal,
                    j,
                )?;
                let best = least(descent.incumbent, refutation);
                return Ok(Turn {
                    asked: Asked::Heard(Heard::Ended(best)),
                    search: None,
                });
            }
            let next = descent.raised(question.bound);
            Ok(Turn {
                asked: Asked::Heard(Heard::GoesOn(next)),
                search: Some(search),
            })
        }
        Reply::Open => Ok(Turn {
            asked: Asked::Open(descent, question),
            search: Some(search),
        }),
    }
}

/// Asks a question: of the clauses of one literal first, then of the search. Where its bound lies below the best schedule's
/// value, and a few slices find nothing, it is asked for anything better at all, for up to so many slices.
pub(crate) fn ask(
    alloc: Global,
    problem: &Problem,
    search: Option<KeptSearch>,
    descent: Descent,
    question: Question,
    x: u32,
    y: u32,
    budget: u64,
    slices: u64,
) -> Result<Turn, AllocError>
    requires fits { Fits problem.now }
    requires x_in { x < problem.now.points }
    requires y_in { y < problem.now.points }
    requires search { IfSome search (IsSearchOf problem.now) }
    requires descent { IsDescent problem.now x y descent }
    requires question { IsQuestion problem.now x y descent question }
    ensures { IfOk result (IsTurn problem.now x y descent) }
{
    if let Some(verdict) = decide_units(alloc, &question.problem)? {
        let heard = hear(alloc, problem, descent, &question, verdict, x, y)?;
        return Ok(Turn {
            asked: Asked::Heard(heard),
            search,
        });
    }
    let kept = ready(alloc, problem, search, budget)?;
    if descent.is_last(&question) {
        let turn = ask_kept(alloc, problem, kept, descent, question, x, y, slices)?;
        return Ok(turn);
    }
    let turn = ask_kept(alloc, problem, kept, descent, question, x, y, SLICES)?;
    let Turn { asked, search } = turn;
    match asked {
        Asked::Heard(heard) => Ok(Turn {
            asked: Asked::Heard(heard),
            search,
        }),
        Asked::Open(descent, question) => {
            let last = descent.last(alloc, problem, x, y)?;
            let kept = ready(alloc, problem, search, budget)?;
            let turn = ask_kept(alloc, problem, kept, descent, last, x, y, slices)?;
            Ok(turn)
        }
    }
}
