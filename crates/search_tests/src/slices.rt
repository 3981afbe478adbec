ghost use Rattle.std.specs.Prelude.{◌≡◌, ◌<◌, ◌≤◌, All, IfOk, true};
ghost use Rattle.stn_core.specs.Limits.{points_limit};
ghost use Rattle.stn_core.specs.Literal.{IsOver};

use branch_search::{Part, Searcher, Slice, slice};
use inc_paths::Network;
use refute_tree::Lemma;
use std::alloc::{AllocError, Global};
use std::sync::Arc;
use std::test::Fail;
use stn_core::{Clause, Clauses, Literal, Net, Problem};
use worker_calls::Calls;

fn is_small(l: Literal, points: u32) -> bool
    ensures { result ≡ true → IsOver points l }
{
    l.x < points && l.y < points && -9 <= l.c && l.c <= 9
}

/// The literals of a clause that are over so many points.
fn clause_of(alloc: Global, points: u32, literals: &[Literal]) -> Result<Clause, AllocError>
    ensures { IfOk result (All (IsOver points)) }
{
    let mut kept = Vec::new(alloc);
    for l in literals {
        if is_small(*l, points) {
            kept.push(*l)?;
        }
    }
    Ok(Clause::new(kept))
}

fn with_clause(problem: Problem, literals: &[Literal]) -> Result<Problem, AllocError> {
    let points = problem.points;
    let mut clauses = problem.into_clauses().into_vec();
    clauses.push(clause_of(*clauses.allocator(), points, literals)?)?;
    Ok(Problem {
        points,
        clauses: Clauses::new(clauses),
    })
}

fn literal(x: u32, y: u32, c: i64) -> Literal {
    Literal { x, y, c }
}

/// One of two orders of two points.
fn with_order(problem: Problem, x: u32, y: u32) -> Result<Problem, AllocError> {
    with_clause(problem, [literal(x, y, -1), literal(y, x, -1)].as_slice())
}

fn empty(alloc: Global, points: u32) -> Problem
    requires some { 1 ≤ points }
    requires few { points ≤ points_limit }
{
    Problem {
        points,
        clauses: Clauses::new(Vec::new(alloc)),
    }
}

/// Twenty free pairs, and then three points of which each pair is in an order, all within two places.
fn pairs_and_orders(alloc: Global) -> Result<Problem, AllocError> {
    let mut problem = empty(alloc, 44);
    for i in 0..20u32 {
        problem = with_order(problem, 4 + 2 * i, 5 + 2 * i)?;
    }
    for p in 1..4u32 {
        problem = with_clause(problem, [literal(0, p, 0)].as_slice())?;
        problem = with_clause(problem, [literal(p, 0, 1)].as_slice())?;
    }
    problem = with_order(problem, 1, 2)?;
    problem = with_order(problem, 1, 3)?;
    with_order(problem, 2, 3)
}

/// Four pairs of points, each in one of two orders.
fn free_pairs(alloc: Global) -> Result<Problem, AllocError> {
    let mut problem = empty(alloc, 9);
    for i in 0..4u32 {
        problem = with_order(problem, 1 + 2 * i, 2 + 2 * i)?;
    }
    Ok(problem)
}

/// Four operations of two each on one machine, and the end of them all.
fn machine(alloc: Global) -> Result<Problem, AllocError> {
    let mut problem = empty(alloc, 6);
    for p in 2..6u32 {
        problem = with_clause(problem, [literal(0, p, 0)].as_slice())?;
        problem = with_clause(problem, [literal(p, 1, -2)].as_slice())?;
        for q in 2..p {
            problem = with_clause(problem, [literal(p, q, -2), literal(q, p, -2)].as_slice())?;
        }
    }
    Ok(problem)
}

// The literal that the pigeon is in the hole, of six, and that it isn't.
fn is_in(pigeon: u32, hole: u32) -> Literal {
    literal(
        pigeon
            .saturating_mul(6)
            .saturating_add(hole)
            .saturating_add(1),
        0,
        0,
    )
}

fn is_out(pigeon: u32, hole: u32) -> Literal {
    literal(
        0,
        pigeon
            .saturating_mul(6)
            .saturating_add(hole)
            .saturating_add(1),
        -1,
    )
}

/// Seven pigeons in six holes, with a point for each pair of one and one: clauses alone lead to a conflict.
fn pigeons(alloc: Global) -> Result<Problem, AllocError> {
    let mut problem = empty(alloc, 43);
    for p in 0..7u32 {
        let somewhere = [
            is_in(p, 0),
            is_in(p, 1),
            is_in(p, 2),
            is_in(p, 3),
            is_in(p, 4),
            is_in(p, 5),
        ];
        problem = with_clause(problem, somewhere.as_slice())?;
        for q in 0..p {
            for hole in 0..6u32 {
                problem = with_clause(problem, [is_out(p, hole), is_out(q, hole)].as_slice())?;
            }
        }
    }
    Ok(problem)
}

/// Which answer of a slice it is.
#[derive(Clone, Copy, Debug, PartialEq, Eq)]
enum Answer {
    Model,
    Refuted,
    Split,
}

fn answer_of(slice: &Slice) -> Answer {
    match slice {
        Slice::Model(_, _) => Answer::Model,
        Slice::Refuted(_, _) => Answer::Refuted,
        Slice::Split(_, _) => Answer::Split,
    }
}

/// A slice on the problem, without a cube: which answer, how many adds, and how many lemmas.
fn run(alloc: Global, problem: &Problem, budget: u64) -> Result<(Answer, u64, usize), AllocError> {
    let mut net = Network::new(alloc, problem.points)?;
    let handed: &[Lemma] = &[];
    let answer = slice(alloc, problem, &handed, &[], budget, &mut net)?;
    let lemmas = match &answer {
        Slice::Model(_, batch) => batch.lemmas().len(),
        Slice::Refuted(batch, _) => batch.lemmas().len(),
        Slice::Split(_, batch) => batch.lemmas().len(),
    };
    Ok((answer_of(&answer), net.adds(), lemmas))
}

/// A slice of one add under the cube: which answer.
fn run_under(alloc: Global, problem: &Problem, literals: &[Literal]) -> Result<Answer, AllocError> {
    let mut net = Network::new(alloc, problem.points)?;
    let handed: &[Lemma] = &[];
    let cube = clause_of(alloc, problem.points, literals)?;
    let answer = slice(alloc, problem, &handed, cube.as_slice(), 1, &mut net)?;
    Ok(answer_of(&answer))
}

/// Two slices of one searcher, the second over the lemmas of the first: which answer the second gives, and
/// how many conflicts both met.
fn run_twice(alloc: Global, problem: &Problem) -> Result<(Answer, u64), AllocError> {
    let mut net = Network::new(alloc, problem.points)?;
    let mut searcher = Searcher::new(alloc, problem)?;
    let none: &[Lemma] = &[];
    searcher.slice(alloc, problem, &none, &[], 1, &mut net)?;
    let answer = searcher.slice(alloc, problem, &none, &[], 1_000_000, &mut net)?;
    Ok((answer_of(&answer), searcher.conflicts()))
}

/// The first part of a slice beside others, whose budget is never spent: how many lemmas it pauses with, or which answer
/// comes.
fn run_part(alloc: Global, problem: &Problem) -> Result<Result<usize, Answer>, AllocError> {
    let mut net = Network::new(alloc, problem.points)?;
    let calls = Arc::new(alloc, Calls::new())?;
    let mut searcher = Searcher::beside(alloc, problem, calls)?;
    let none: &[Lemma] = &[];
    match searcher.part(alloc, problem, &none, &[], 1 << 40, &mut net)? {
        Part::Paused(batch) => Ok(Ok(batch.lemmas().len())),
        Part::Ended(slice) => Ok(Err(answer_of(&slice))),
    }
}

/// Two slices of one searcher, each under one literal: which answers.
fn run_both(
    alloc: Global,
    problem: &Problem,
    one: Literal,
    other: Literal,
) -> Result<(Answer, Answer), AllocError> {
    let mut net = Network::new(alloc, problem.points)?;
    let mut searcher = Searcher::new(alloc, problem)?;
    let none: &[Lemma] = &[];
    let first = clause_of(alloc, problem.points, [one].as_slice())?;
    let second = clause_of(alloc, problem.points, [other].as_slice())?;
    let found = searcher.slice(alloc, problem, &none, first.as_slice(), 100, &mut net)?;
    let then = searcher.slice(alloc, problem, &none, second.as_slice(), 100, &mut net)?;
    Ok((answer_of(&found), answer_of(&then)))
}

#[test]
fn three_orders_in_two_places(rt: HostRuntime) -> Result<(), Fail> {
    let alloc = rt.alloc();
    let problem = pairs_and_orders(alloc)?;
    let (whole, adds, lemmas) = run(alloc, &problem, 1_000_000)?;
    let (small, small_adds, _) = run(alloc, &problem, 1)?;
    let (again, conflicts) = run_twice(alloc, &problem)?;
    assert_eq!(rt;
        (whole, small, again),
        (Answer::Refuted, Answer::Split, Answer::Refuted)
    );
    assert!(rt; 0 < conflicts);
    assert!(rt; adds < 1000);
    assert!(rt; lemmas < 100);
    assert!(rt; small_adds < 1000);
    Ok(())
}

/// As long as a pair is free, one add is too few. Where none is, there is nothing to split on.
#[test]
fn free_pairs_and_decided_ones(rt: HostRuntime) -> Result<(), Fail> {
    let alloc = rt.alloc();
    let problem = free_pairs(alloc)?;
    let (one, two) = (literal(1, 2, -1), literal(4, 3, -1));
    let (three, four) = (literal(5, 6, -3), literal(8, 7, -1));
    let free = run_under(alloc, &problem, [].as_slice())?;
    let some = run_under(alloc, &problem, [one, two].as_slice())?;
    let decided = run_under(alloc, &problem, [one, two, three, four].as_slice())?;
    let equal = run_under(
        alloc,
        &problem,
        [one, literal(3, 4, 0), literal(4, 3, 0)].as_slice(),
    )?;
    assert_eq!(rt;
        (free, some, decided, equal),
        (Answer::Split, Answer::Split, Answer::Model, Answer::Refuted)
    );
    Ok(())
}

/// Where the cube leaves a machine less time than its operations take, a slice carries a plan through.
#[test]
fn more_work_than_time(rt: HostRuntime) -> Result<(), Fail> {
    let alloc = rt.alloc();
    let problem = machine(alloc)?;
    let answers = run_both(alloc, &problem, literal(1, 0, 7), literal(1, 0, 8))?;
    assert_eq!(rt; answers, (Answer::Refuted, Answer::Model));
    Ok(())
}

/// Beside others a slice that met some hundred conflicts pauses with its lemmas, and one that is decided by then is answered.
#[test]
fn a_pause_beside_others(rt: HostRuntime) -> Result<(), Fail> {
    let alloc = rt.alloc();
    let hard = run_part(alloc, &pigeons(alloc)?)?;
    let easy = run_part(alloc, &pairs_and_orders(alloc)?)?;
    assert!(rt; matches!(hard, Ok(lemmas) if lemmas > 0));
    assert_eq!(rt; easy, Err(Answer::Refuted));
    Ok(())
}
