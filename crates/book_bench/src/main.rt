//! Deals out the cubes of a book until so many of them were divided, each with a lemma. The number comes on
//! standard input. To be timed from outside (bench/book), so that the cost of a call is seen not to rise with
//! the book.
#![tactic(auto)]

ghost use Rattle.stn_core.specs.Literal.{IsOver};

use book_core::{Answer, Book, Outcome};
use book_judge::{deliver_justified, take_cube};
use refute_tree::{Batch, Lemma, Steps};
use std::alloc::{AllocError, Global};
use std::io;
use std::io::Read;
use stn_core::{Clause, Clauses, Literal, Problem};

/// A cube with so many literals stays with its seat. More than 100,000 have fewer.
const DEPTH: u32 = 17;

/// The atom by which cubes with so many literals are divided.
fn atom(level: u32) -> Literal
    ensures { IsOver 3 result }
{
    Literal {
        x: 1,
        y: 2,
        c: i64::from(level),
    }
}

/// A clause for each atom.
fn problem(alloc: Global) -> Result<Problem, AllocError> {
    let mut clauses = Vec::new(alloc);
    'levels: for level in 0..DEPTH {
        let clause = Clause::new([atom(level)].to_vec(alloc)?);
        clauses.push(clause)?;
    }
    let clauses = Clauses::new(clauses);
    Ok(Problem { points: 3, clauses })
}

/// The lemma that states a clause again.
fn batch(alloc: Global, level: u32) -> Result<Batch, AllocError> {
    let mut steps = Steps::new(alloc);
    steps.push_input(level as usize)?;
    steps.push_pair(atom(level))?;
    let clause = Clause::new([atom(level)].to_vec(alloc)?);
    Ok(Batch::new(0, vec![in alloc; Lemma { clause, steps }]?))
}

/// Takes a cube and divides it, and gives its number and the count of its literals.
fn turn(alloc: Global, book: &mut Book) -> Result<(usize, usize), AllocError> {
    let taken = take_cube(book, 0)?;
    let (id, size) = match &taken {
        Answer::Cube(id, cube) => (*id, cube.as_slice().len()),
        _ => return Ok((0, 0)),
    };
    let level = u32::try_from(size).unwrap_or(DEPTH);
    if level < DEPTH {
        let outcome = Outcome::Split(atom(level));
        let _ = deliver_justified(alloc, book, 0, &taken, batch(alloc, level)?, outcome)?;
    }
    Ok((id, size))
}

/// Turns until the book has so many lemmas, and what the last one took.
fn deal(alloc: Global, book: &mut Book, count: usize) -> Result<(usize, usize), AllocError> {
    let mut last = (0, 0);
    for _turn in 0..count.saturating_mul(2) {
        if book.lemma_count() >= count {
            break;
        }
        last = turn(alloc, book)?;
    }
    Ok(last)
}

fn number_of(text: &[u8]) -> usize {
    let mut number = 0usize;
    for byte in text {
        if byte.is_ascii_digit() {
            let digit = usize::from(*byte - b'0');
            number = number.saturating_mul(10).saturating_add(digit);
        }
    }
    number
}

fn main(rt: HostRuntime) -> io::Result<()> {
    let alloc = rt.alloc();
    let mut text = Vec::new(alloc);
    rt.reader().read_to_end(&mut text)?;
    let mut book = Book::new(alloc, problem(alloc)?)?;
    let (id, literals) = deal(alloc, &mut book, number_of(&text))?;
    let lemmas = book.lemma_count();
    let events = book.journal().len();
    println!(rt; "lemmas={lemmas} last={id} literals={literals} events={events}")?;
    Ok(())
}
