//! Sums and differences of linear terms.
ghost use Rattle.std.specs.Prelude.{◌≡◌, ◌+◌, ◌<◌, ◌^◌, ◌++◌, map, true, length, IfOk, IfErr};
ghost use Rattle.idl_linear.specs.Linear.{sum_of, negative_of, is_limited};
ghost use Rattle.idl_linear.specs.code.Steps.{Refuses};

use crate::error::LinearError;
use crate::few::sum_of_few;
use crate::linear::Linear;
use crate::linear_sum::LinearSum;
use std::alloc::Global;

/// A term by its place, and how many summands it has, as far as is known.
#[derive(Clone, Copy)]
struct Choice {
    place: usize,
    count: usize,
}

/// The term with the most summands; the first where there are none.
fn largest(terms: &[&Linear]) -> Choice
    ensures { 0 < length terms.now → result.place < length terms.now }
{
    let mut place = 0;
    let mut count = 0;
    for (i, term) in terms.iter().enumerate() {
        if term.count() > count {
            place = i;
            count = term.count();
        }
    }
    Choice { place, count }
}

/// The sum of the first terms less the others. The limits hold of the whole sum, and not of its parts. Where a term has by far the
/// most summands the sum shares them with it, so that the time and the memory are those of the other terms.
pub fn sum_less(alloc: Global, terms: &[&Linear], taken: &[&Linear]) -> Result<Linear, LinearError>
    requires few { length terms.now + length taken.now < 2 ^ 64 }
    ensures ok { IfOk result (λ l. l ≡ sum_of (map (λ l. l.now) terms.now ++ map negative_of (map (λ l. l.now) taken.now))) }
    ensures limited { IfOk result (λ _. is_limited (sum_of (map (λ l. l.now) terms.now ++ map negative_of (map (λ l. l.now) taken.now))) ≡ true) }
    ensures refused { IfErr result (λ why. Refuses why (is_limited (sum_of (map (λ l. l.now) terms.now ++ map negative_of (map (λ l. l.now) taken.now))))) }
{
    if let Some(sum) = sum_of_few(alloc, terms, taken) {
        return Ok(sum);
    }
    let first = largest(terms);
    let second = largest(taken);
    if first.count >= second.count && !terms.is_empty() {
        sum_on_term(alloc, terms, first.place, taken)
    } else if !taken.is_empty() {
        sum_on_taken(alloc, terms, taken, second.place)
    } else {
        sum_of_all(alloc, terms)
    }
}

/// The sum of terms.
fn sum_of_all(alloc: Global, terms: &[&Linear]) -> Result<Linear, LinearError>
    ensures ok { IfOk result (λ l. l ≡ sum_of (map (λ l. l.now) terms.now)) }
    ensures limited { IfOk result (λ _. is_limited (sum_of (map (λ l. l.now) terms.now)) ≡ true) }
    ensures refused { IfErr result (λ why. Refuses why (is_limited (sum_of (map (λ l. l.now) terms.now)))) }
{
    let mut sum = LinearSum::new(alloc);
    sum.add_all(terms)?;
    sum.finish()
}

/// The sum, whose other terms go into the first ones' one at this place.
fn sum_on_term(
    alloc: Global,
    terms: &[&Linear],
    place: usize,
    taken: &[&Linear],
) -> Result<Linear, LinearError>
    requires few { length terms.now + length taken.now < 2 ^ 64 }
    requires place { place < length terms.now }
    ensures ok { IfOk result (λ l. l ≡ sum_of (map (λ l. l.now) terms.now ++ map negative_of (map (λ l. l.now) taken.now))) }
    ensures limited { IfOk result (λ _. is_limited (sum_of (map (λ l. l.now) terms.now ++ map negative_of (map (λ l. l.now) taken.now))) ≡ true) }
    ensures refused { IfErr result (λ why. Refuses why (is_limited (sum_of (map (λ l. l.now) terms.now ++ map negative_of (map (λ l. l.now) taken.now))))) }
{
    let mut sum = LinearSum::new(alloc);
    sum.add_all(&terms[..place])?;
    sum.add_all(&terms[place + 1..])?;
    sum.subtract_all(taken)?;
    sum.finish_on(alloc, terms[place], false)
}

/// The sum, whose other terms go into that taken term at this place.
fn sum_on_taken(
    alloc: Global,
    terms: &[&Linear],
    taken: &[&Linear],
    place: usize,
) -> Result<Linear, LinearError>
    requires few { length terms.now + length taken.now < 2 ^ 64 }
    requires place { place < length taken.now }
    ensures ok { IfOk result (λ l. l ≡ sum_of (map (λ l. l.now) terms.now ++ map negative_of (map (λ l. l.now) taken.now))) }
    ensures limited { IfOk result (λ _. is_limited (sum_of (map (λ l. l.now) terms.now ++ map negative_of (map (λ l. l.now) taken.now))) ≡ true) }
    ensures refused { IfErr result (λ why. Refuses why (is_limited (sum_of (map (λ l. l.now) terms.now ++ map negative_of (map (λ l. l.now) taken.now))))) }
{
    let mut sum = LinearSum::new(alloc);
    sum.add_all(terms)?;
    sum.subtract_all(&taken[..place])?;
    sum.subtract_all(&taken[place + 1..])?;
    sum.finish_on(alloc, taken[place], true)
}
