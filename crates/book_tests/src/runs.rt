//! Short runs of a book of x < y and y < x: what each seat is answered, and what the book comes to.
ghost use Rattle.std.specs.Prelude.{◌≡◌, ℕ};
ghost use Rattle.cover_tree.specs.Covers.{cube_at};
ghost use Rattle.book_core.specs.Runs.{state_of};

use crate::table::{X_BEFORE_Y, Y_BEFORE_X, two_orders};
use book_core::{Answer, Book, Outcome, Verdict};
use book_judge::{deliver_justified, release_held, take_cube};
use refute_tree::{Batch, Lemma, Steps};
use std::alloc::{AllocError, Global};
use std::test::Fail;
use stn_core::{Clause, Literal, negate};

/// What a seat was answered: of a cube its number, the count of its literals and the first one.
#[derive(Clone, Copy, Debug, PartialEq, Eq)]
enum Reply {
    Cube(usize, usize, Option<Literal>),
    Idle,
    Done,
}

fn reply_of(answer: &Answer) -> Reply {
    match answer {
        Answer::Cube(id, cube) => {
            let literals = cube.as_slice();
            Reply::Cube(*id, literals.len(), literals.first().copied())
        }
        Answer::Idle => Reply::Idle,
        Answer::Done => Reply::Done,
    }
}

fn ask(book: &mut Book, seat: u32) -> Result<Reply, AllocError>
    ensures kept { (k : ℕ) → cube_at (state_of book.new).cover k ≡ cube_at (state_of book.old).cover k }
{
    let answer = take_cube(book, seat)?;
    Ok(reply_of(&answer))
}

/// The two clauses have no schedule.
fn refuting(alloc: Global) -> Result<Batch, AllocError> {
    let mut steps = Steps::new(alloc);
    steps.push_input(0)?;
    steps.push_input(1)?;
    steps.push_cycle(&[X_BEFORE_Y, Y_BEFORE_X])?;
    let clause = Clause::new(Vec::new(alloc));
    Ok(Batch::new(0, vec![in alloc; Lemma { clause, steps }]?))
}

fn is_refuted(book: &Book) -> Result<bool, AllocError> {
    match book.conclude()? {
        Some(Verdict::Unsat(_)) => Ok(true),
        _ => Ok(false),
    }
}

/// What the seats are answered while seat 0 refutes the whole, and whether it could.
fn refuted(alloc: Global, book: &mut Book) -> Result<([Reply; 3], bool), AllocError> {
    let first = take_cube(book, 0)?;
    let idle = ask(book, 1)?;
    let is_justified = deliver_justified(
        alloc,
        book,
        0,
        &first,
        refuting(alloc)?,
        Outcome::Shut(0),
    )?;
    let done = ask(book, 1)?;
    Ok(([reply_of(&first), idle, done], is_justified))
}

/// How many events the book has, and whether it and its replay conclude that there is no schedule.
fn conclusions(alloc: Global, book: &Book) -> Result<(usize, bool, bool), AllocError> {
    book.sound();
    let again = Book::replay(
        alloc,
        book.problem().copy()?,
        book.opening()?,
        book.journal(),
    )?;
    Ok((book.journal().len(), is_refuted(book)?, is_refuted(&again)?))
}

#[test]
fn one_seat_refutes_and_the_other_waits(rt: HostRuntime) -> Result<(), Fail> {
    let alloc = rt.alloc();
    let mut book = Book::new(alloc, two_orders(alloc)?)?;
    let (replies, is_justified) = refuted(alloc, &mut book)?;
    let expected = [Reply::Cube(0, 0, None), Reply::Idle, Reply::Done];
    assert_eq!(rt; (replies, is_justified), (expected, true));
    assert_eq!(rt; conclusions(alloc, &book)?, (4, true, true));
    Ok(())
}

/// The holders of the two halves of a cube that was divided, and of the second where seat 0 took it and gave
/// it back.
fn halves(alloc: Global, book: &mut Book) -> Result<[Option<u32>; 4], AllocError> {
    let whole = take_cube(book, 0)?;
    let batch = Batch::new(0, Vec::new(alloc));
    let _ = deliver_justified(alloc, book, 0, &whole, batch, Outcome::Split(X_BEFORE_Y))?;
    let (first, second) = (book.holder(1), book.holder(2));
    let _ = ask(book, 0)?;
    let taken = book.holder(2);
    release_held(book, 0, 2);
    Ok([first, second, taken, book.holder(2)])
}

#[test]
fn halves_are_free_and_free_again(rt: HostRuntime) -> Result<(), Fail> {
    let alloc = rt.alloc();
    let mut book = Book::new(alloc, two_orders(alloc)?)?;
    assert_eq!(rt; halves(alloc, &mut book)?, [None, None, Some(0), None]);
    let replies = [ask(&mut book, 1)?, ask(&mut book, 1)?];
    let second = Reply::Cube(2, 1, Some(negate(X_BEFORE_Y)));
    let first = Reply::Cube(1, 1, Some(X_BEFORE_Y));
    assert_eq!(rt; replies, [second, first]);
    Ok(())
}

/// What the seats are answered where seat 0 tells its lemma and leaves the whole open, and seat 1 shuts it by that lemma; how
/// many lemmas there are then, and whether both could.
fn left_open(alloc: Global, book: &mut Book) -> Result<([Reply; 2], usize, bool), AllocError> {
    let whole = take_cube(book, 0)?;
    let is_told = deliver_justified(alloc, book, 0, &whole, refuting(alloc)?, Outcome::Open)?;
    let again = take_cube(book, 1)?;
    let nothing = Batch::new(1, Vec::new(alloc));
    let is_shut = deliver_justified(alloc, book, 1, &again, nothing, Outcome::Shut(0))?;
    let replies = [reply_of(&whole), reply_of(&again)];
    Ok((replies, book.lemma_count(), is_told && is_shut))
}

#[test]
fn an_open_cube_is_shut_by_what_was_told(rt: HostRuntime) -> Result<(), Fail> {
    let alloc = rt.alloc();
    let mut book = Book::new(alloc, two_orders(alloc)?)?;
    let whole = Reply::Cube(0, 0, None);
    assert_eq!(rt; left_open(alloc, &mut book)?, ([whole, whole], 1, true));
    assert_eq!(rt; conclusions(alloc, &book)?, (4, true, true));
    Ok(())
}
