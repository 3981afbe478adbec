//! The turns of one worker.
ghost use Rattle.std.specs.Prelude.{◌≡◌, ◌<◌, IfOk, OnOk, None};
ghost use Rattle.cover_tree.specs.Covers.{cube_at};
ghost use Rattle.book_core.specs.Books.{IsHeldBy, IsOpening};
ghost use Rattle.book_core.specs.Shared.{lemmas_of};
ghost use Rattle.book_core.specs.Runs.{state_of};
ghost use Rattle.book_core.specs.Ends.{left_in};
ghost use Rattle.book_core.specs.Verdicts.{IsRight};
ghost use Rattle.book_search.specs.Learned.{BeginsWith};
ghost use Rattle.book_search.specs.code.Deliveries.{IsDelivered, IsEnded, IsWaiting, Advances};

use crate::base::decide_units;
use crate::pacing::Pacing;
use crate::solved::{Solved, conclude};
use crate::tools::Tools;
use book_core::{Answer, Book, Delivery, Verdict};
use refute_tree::Batch;
use std::alloc::{AllocError, Global};
use stn_core::{Literal, Problem, Value};

/// One slice of search under the cube, and the delivery of what it found: whether the cube is divided now.
fn work(
    alloc: Global,
    tools: &mut Tools,
    book: &mut Book,
    id: usize,
    cube: &[Literal],
    budget: u64,
) -> Result<bool, AllocError>
    requires held { IsHeldBy (state_of book.old) id 0 }
    requires unfound { (state_of book.old).found ≡ None }
    requires cube { cube.now ≡ cube_at (state_of book.old).cover id }
    requires points { tools.old ≡ book.old.problem.points }
    ensures points { tools.new ≡ tools.old }
    ensures delivered { OnOk result (IsDelivered book.old id book.new) }
    ensures less { OnOk result (left_in book.new < left_in book.old) }
{
    book.sound();
    book_core::ends_law();
    let found = tools.search(alloc, book.problem(), book.lemmas(), cube, budget, false)?;
    let divides = found.divides;
    let delivery = Delivery::new(found.batch, found.outcome)?;
    book.enter(0, id, delivery)?;
    Ok(divides)
}

/// One turn: a cube is taken and worked on. The answer says whether it was divided, and is `None` where
/// nothing is left to do.
fn turn(
    alloc: Global,
    problem: &Problem,
    tools: &mut Tools,
    book: &mut Book,
    budget: u64,
) -> Result<Option<bool>, AllocError>
    requires waiting { IsWaiting problem.now book.old }
    requires points { tools.old ≡ problem.now.points }
    ensures waiting { OnOk result (IsWaiting problem.now book.new) }
    ensures opening { OnOk result (book.new.opening ≡ book.old.opening) }
    ensures points { tools.new ≡ tools.old }
    ensures advances { IfOk result (Advances book.old book.new) }
{
    book.sound();
    book_core::ends_law();
    match book.take(0)? {
        Answer::Cube(id, cube) => {
            let divided = work(alloc, tools, book, id, cube.as_slice(), budget)?;
            Ok(Some(divided))
        }
        Answer::Idle => unreachable!(),
        Answer::Done => Ok(None),
    }
}

// The book with what was left to do, by these tools.
fn end_by(
    alloc: Global,
    problem: &Problem,
    tools: Tools,
    book: Book,
    budget: u64,
) -> Result<Book, AllocError>
    requires waiting { IsWaiting problem.now book }
    requires points { tools ≡ problem.now.points }
    ensures { IfOk result (IsEnded problem.now book.opening) }
{
    let mut book = book;
    let mut tools = tools;
    let mut pacing = Pacing::alone(budget);
    'turns: while let Some(divided) = turn(
        alloc,
        problem,
        &mut tools,
        &mut book,
        pacing.budget(),
    )? {
        if divided {
            pacing.grow(tools.met_conflict());
        }
    }
    Ok(book)
}

// What such a book comes to.
fn conclude_ended(alloc: Global, problem: &Problem, book: Book) -> Result<Solved, AllocError>
    requires { IsEnded problem.now book.opening book }
    ensures right { IfOk result (λ solved. IsRight problem.now solved.verdict) }
    ensures lemmas { IfOk result (λ solved. IsOpening problem.now (lemmas_of solved.lemmas.items)) }
    ensures first { IfOk result (λ solved. BeginsWith book.opening solved.verdict (lemmas_of solved.lemmas.items)) }
{
    match conclude(alloc, book)? {
        Ok(solved) => Ok(solved),
        Err(_) => unreachable!(),
    }
}

/// What is left to do of a book of the problem in which no leaf is held. It takes every leaf that is free, so
/// that the answer rests on nothing that was done before.
pub fn finish(
    alloc: Global,
    problem: &Problem,
    book: Book,
    budget: u64,
) -> Result<Solved, AllocError>
    requires { IsWaiting problem.now book }
    ensures right { IfOk result (λ solved. IsRight problem.now solved.verdict) }
    ensures lemmas { IfOk result (λ solved. IsOpening problem.now (lemmas_of solved.lemmas.items)) }
    ensures first { IfOk result (λ solved. BeginsWith book.opening solved.verdict (lemmas_of solved.lemmas.items)) }
{
    let tools = Tools::alone(alloc, problem)?;
    let ended = end_by(alloc, problem, tools, book, budget)?;
    let solved = conclude_ended(alloc, problem, ended)?;
    Ok(solved)
}

// The book of the problem, which opens with these lemmas, with all that there is to do.
fn end_one(
    alloc: Global,
    problem: &Problem,
    opening: Batch,
    phases: &[Value],
    budget: u64,
) -> Result<Book, AllocError>
    requires seen { opening.seen ≡ 0 }
    requires opening { IsOpening problem.now opening.lemmas }
    ensures { IfOk result (IsEnded problem.now opening.lemmas) }
{
    let book = Book::new_with(alloc, problem.copy()?, opening)?;
    let mut tools = Tools::alone(alloc, problem)?;
    tools.follow(phases);
    let ended = end_by(alloc, problem, tools, book, budget)?;
    Ok(ended)
}

/// Decides the problem by slices of search, one after the other: a cube that isn't decided within the slice's
/// budget of adds is divided, and the next slice has a greater budget, by `Pacing::alone`. It returns on
/// every problem, since each split decides one more atom of its cube (`book_core::ends_law`). The one error
/// is want of memory.
pub fn solve_one(alloc: Global, problem: &Problem, budget: u64) -> Result<Verdict, AllocError>
    ensures { IfOk result (IsRight problem.now) }
{
    match decide_units(alloc, problem)? {
        Some(verdict) => Ok(verdict),
        None => {
            let nothing = Batch::new(0, Vec::new(alloc));
            let verdict = search_one(alloc, problem, nothing, &[], budget)?;
            Ok(verdict)
        }
    }
}

/// As `solve_one`, by slices alone, and by a book that opens with these lemmas: what the clauses of one literal decide by
/// themselves isn't looked at first, since `decide_units` is for who makes the lemmas, before it does.
///
/// Values of the first time points, as those of an earlier schedule, say how literals are decided that never were: a hint,
/// and there may be none.
pub fn search_one(
    alloc: Global,
    problem: &Problem,
    opening: Batch,
    phases: &[Value],
    budget: u64,
) -> Result<Verdict, AllocError>
    requires seen { opening.seen ≡ 0 }
    requires opening { IsOpening problem.now opening.lemmas }
    ensures { IfOk result (IsRight problem.now) }
{
    let ended = end_one(alloc, problem, opening, phases, budget)?;
    match ended.into_verdict()? {
        Ok(verdict) => Ok(verdict),
        Err(_) => unreachable!(),
    }
}

/// As `search_one`, with what was learned beside the verdict.
pub fn solve_one_with(
    alloc: Global,
    problem: &Problem,
    opening: Batch,
    phases: &[Value],
    budget: u64,
) -> Result<Solved, AllocError>
    requires seen { opening.seen ≡ 0 }
    requires opening { IsOpening problem.now opening.lemmas }
    ensures right { IfOk result (λ solved. IsRight problem.now solved.verdict) }
    ensures lemmas { IfOk result (λ solved. IsOpening problem.now (lemmas_of solved.lemmas.items)) }
    ensures first { IfOk result (λ solved. BeginsWith opening.lemmas solved.verdict (lemmas_of solved.lemmas.items)) }
{
    let ended = end_one(alloc, problem, opening, phases, budget)?;
    let solved = conclude_ended(alloc, problem, ended)?;
    Ok(solved)
}
