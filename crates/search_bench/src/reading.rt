//! Clauses as a text: the count of time points, the count of clauses, and for each clause the count of its literals, and x,
//! y and c of each. Whatever is no digit and no `-` stands between numbers.
ghost use Rattle.std.specs.Prelude.{◌≡◌, ◌≤◌, IsTrue, All, IfOk, IfSome};
ghost use Rattle.stn_core.specs.Limits.{points_limit};
ghost use Rattle.stn_core.specs.Literal.{IsOver};

use std::alloc::{AllocError, Global};
use stn_core::{BOUND_LIMIT, Clause, Clauses, Literal, POINTS_LIMIT, Problem};

/// A text, and how much of it was read.
#[derive(Drop)]
struct Numbers<'a> {
    bytes: &'a [u8],
    place: usize,
}

impl Numbers<'_> {
    /// The next number. One beyond 64 bits wraps round.
    fn next(&mut self) -> Option<i64> {
        let mut value = None;
        let mut is_negative = false;
        for k in self.place..self.bytes.len() {
            let byte = self.bytes.get(k).copied()?;
            self.place = k + 1;
            if byte.is_ascii_digit() {
                let digit = i64::from(byte - b'0');
                value = Some(value.unwrap_or(0i64).wrapping_mul(10).wrapping_add(digit));
            } else if value.is_some() {
                break;
            } else {
                is_negative = byte == b'-';
            }
        }
        if is_negative {
            value.map(|number: i64| number.wrapping_neg())
        } else {
            value
        }
    }

    fn next_count(&mut self) -> Option<u32> {
        u32::try_from(self.next()?).ok()
    }
}

fn is_over(points: u32, literal: Literal) -> bool
    ensures { IsTrue result → IsOver points literal }
{
    let limit = BOUND_LIMIT as i64;
    let is_within = -limit - 1 <= literal.c && literal.c <= limit;
    literal.x < points && literal.y < points && is_within
}

fn read_literal(numbers: &mut Numbers<'_>, points: u32) -> Option<Literal>
    ensures { IfSome result (IsOver points) }
{
    let x = numbers.next_count()?;
    let y = numbers.next_count()?;
    let c = numbers.next()?;
    let literal = Literal { x, y, c };
    if is_over(points, literal) {
        return Some(literal);
    }
    None
}

fn read_clause(
    alloc: Global,
    numbers: &mut Numbers<'_>,
    points: u32,
) -> Result<Option<Clause>, AllocError>
    ensures { IfOk result (λ found. IfSome found (All (IsOver points))) }
{
    let Some(count) = numbers.next_count() else {
        return Ok(None);
    };
    let mut literals = Vec::new(alloc);
    'literals: for _turn in 0..count {
        let Some(literal) = read_literal(numbers, points) else {
            return Ok(None);
        };
        literals.push(literal)?;
    }
    Ok(Some(Clause::new(literals)))
}

fn read_clauses(
    alloc: Global,
    numbers: &mut Numbers<'_>,
    points: u32,
) -> Result<Option<Clauses>, AllocError>
    ensures { IfOk result (λ found. IfSome found (All (λ clause. All (IsOver points) clause))) }
{
    let Some(count) = numbers.next_count() else {
        return Ok(None);
    };
    let mut clauses = Vec::new(alloc);
    'clauses: for _turn in 0..count {
        let Some(clause) = read_clause(alloc, numbers, points)? else {
            return Ok(None);
        };
        clauses.push(clause)?;
    }
    Ok(Some(Clauses::new(clauses)))
}

/// The problem, or nothing where a number is missing or a limit of problems isn't kept.
pub fn read_problem(alloc: Global, bytes: &[u8]) -> Result<Option<Problem>, AllocError> {
    let mut numbers = Numbers { bytes, place: 0 };
    let Some(points) = numbers.next_count() else {
        return Ok(None);
    };
    if points < 1 || points > POINTS_LIMIT {
        return Ok(None);
    }
    let Some(clauses) = read_clauses(alloc, &mut numbers, points)? else {
        return Ok(None);
    };
    Ok(Some(Problem { points, clauses }))
}
