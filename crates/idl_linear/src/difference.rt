//! Two linear terms that are compared.
ghost use Rattle.std.specs.Prelude.{◌≡◌, ◌<◌, ◌+◌, ◌^◌, ◌++◌, length, map, option_map, ℤ, neg_ℤ, IfOk, IfErr, IfSome, Ok, Err, Some};
ghost use Rattle.idl_linear.specs.Limits.{points_limit};
ghost use Rattle.idl_linear.specs.Differences.{difference_by, difference_in, difference_of, ends_of};
ghost use Rattle.idl_linear.specs.Linear.{negative_of, sum_of};
ghost use Rattle.idl_linear.specs.Forms.{IsLinear};
ghost use Rattle.idl_linear.specs.code.Steps.{ends_with, less};

use crate::error::DifferenceRefusal;
use crate::limits::NUMBER_LIMIT;
use crate::linear::Linear;
use crate::linear_sum::LinearSum;
use crate::merge::Merge;
use crate::summand::Summand;
use crate::within::within;
use std::alloc::{AllocError, Global};

/// The difference `x - y` of two time points, with the number `n` that it is compared with.
#[derive(Clone, Copy, Debug, PartialEq, Eq)]
pub struct Difference {
    pub x: u32,
    pub y: u32,
    pub n: i64,
}

/// `a` compared with `b`: their difference, where it is one of two time points and a number within 2^60. It takes no
/// memory, and a time in proportion to the terms' lengths.
pub fn compare(a: &Linear, b: &Linear) -> Result<Difference, DifferenceRefusal>
    ensures ok { IfOk result (λ d. difference_of a.now b.now ≡ Ok d) }
    ensures x { IfOk result (λ d. d.x < points_limit) }
    ensures y { IfOk result (λ d. d.y < points_limit) }
    ensures refused { IfErr result (λ why. difference_of a.now b.now ≡ Err why) }
{
    let Some(ends) = ends_apart(a, b) else {
        return Err(DifferenceRefusal::NotADifference);
    };
    let number = i128::from(b.constant()) - i128::from(a.constant());
    match within(NUMBER_LIMIT, number) {
        Some(n) => Ok(Difference {
            x: ends.x,
            y: ends.y,
            n,
        }),
        None => Err(DifferenceRefusal::BoundTooLarge),
    }
}

/// The ends of a term, where it is a difference.
fn ends_of_one(term: &Linear) -> Option<Ends>
    ensures linear { IsLinear term.now }
    ensures ends { option_map (λ e. (e.x, e.y)) result ≡ ends_of term.now.summands }
    ensures x { IfSome result (λ e. e.x < points_limit) }
    ensures y { IfSome result (λ e. e.y < points_limit) }
{
    let mut ends = Ends { x: 0, y: 0 };
    let mut cursor = term.cursor();
    while let Some(summand) = cursor.next() {
        ends = ends.with(summand)?;
    }
    Some(ends)
}

/// The ends of the first term less the second, where they are a difference.
fn ends_of_two(a: &Linear, b: &Linear) -> Option<Ends>
    ensures ends { option_map (λ e. (e.x, e.y)) result ≡ ends_of (less a.now.summands b.now.summands) }
    ensures x { IfSome result (λ e. e.x < points_limit) }
    ensures y { IfSome result (λ e. e.y < points_limit) }
{
    let mut ends = Ends { x: 0, y: 0 };
    let mut merge = Merge {
        left: a.cursor(),
        right: b.cursor(),
    };
    while let Some(summand) = merge.next() {
        ends = ends.with(summand)?;
    }
    Some(ends)
}

/// The same. Where the second is a number, nothing is merged.
fn ends_apart(a: &Linear, b: &Linear) -> Option<Ends>
    ensures ends { option_map (λ e. (e.x, e.y)) result ≡ ends_of (less a.now.summands b.now.summands) }
    ensures x { IfSome result (λ e. e.x < points_limit) }
    ensures y { IfSome result (λ e. e.y < points_limit) }
{
    if b.is_number() {
        return ends_of_one(a);
    }
    ends_of_two(a, b)
}

/// The sum of the first terms less the others, compared with 0: their difference, where it is one of two time points and a number within
/// 2^60. No limit of Int terms holds of the sum.
pub fn compare_less(
    alloc: Global,
    terms: &[&Linear],
    taken: &[&Linear],
) -> Result<Result<Difference, DifferenceRefusal>, AllocError>
    requires few { length terms.now + length taken.now < 2 ^ 64 }
    ensures { IfOk result (λ made. made
        ≡ difference_in (sum_of (map (λ l. l.now) terms.now ++ map negative_of (map (λ l. l.now) taken.now)))) }
{
    let mut sum = LinearSum::new(alloc);
    sum.add_all(terms)?;
    sum.subtract_all(taken)?;
    sum.difference()
}

/// The difference of these ends and this number.
pub(crate) fn difference_by(ends: Ends, number: i128) -> Result<Difference, DifferenceRefusal>
    ensures { (constant : ℤ) → neg_ℤ constant ≡ number → result ≡ difference_by (Some (ends.x, ends.y)) constant }
{
    match within(NUMBER_LIMIT, number) {
        Some(n) => Ok(Difference {
            x: ends.x,
            y: ends.y,
            n,
        }),
        None => Err(DifferenceRefusal::BoundTooLarge),
    }
}

/// The time points that were met with coefficient 1 and with -1; the zero point where there is none.
#[derive(Clone, Copy)]
pub(crate) struct Ends {
    pub(crate) x: u32,
    pub(crate) y: u32,
}

impl Ends {
    fn with(self, summand: Summand) -> Option<Ends>
        ensures { result ≡ ends_with self summand }
    {
        match summand.coefficient {
            0 => Some(self),
            1 if self.x == 0 => Some(Ends {
                x: summand.point,
                y: self.y,
            }),
            -1 if self.y == 0 => Some(Ends {
                x: self.x,
                y: summand.point,
            }),
            _ => None,
        }
    }

    /// With a coefficient that may be beyond the limit of Int terms.
    pub(crate) fn with_any(self, point: u32, coefficient: i128) -> Option<Ends>
        ensures { result ≡ ends_with self (record { point = point; coefficient = coefficient }) }
    {
        match coefficient {
            0 => Some(self),
            1 if self.x == 0 => Some(Ends {
                x: point,
                y: self.y,
            }),
            -1 if self.y == 0 => Some(Ends {
                x: self.x,
                y: point,
            }),
            _ => None,
        }
    }
}
