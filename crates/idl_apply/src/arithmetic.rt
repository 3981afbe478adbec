//! Sums and differences of Int terms (SMT-LIB 2.6, theory Ints).
ghost use Rattle.std.specs.Prelude.{map};
ghost use Rattle.idl_linear.specs.Linear.{sum_of, less_others};
ghost use Rattle.idl_apply.specs.Applied.{linear_sum};
ghost use Rattle.idl_apply.specs.code.Applying.{Sums};

use crate::error::TermError;
use crate::operator::Sign;
use idl_linear::{Linear, sum_less};
use std::alloc::Global;

/// `+` of any number of terms. The limits hold of the sum, and not of its parts.
pub fn add(alloc: Global, terms: &[&Linear]) -> Result<Linear, TermError>
    ensures { Sums (sum_of (map (λ l. l.now) terms.now)) result }
{
    let total = sum_less(alloc, terms, &terms[..0])?;
    Ok(total)
}

/// `-`: of one term its negative, of more the others are taken from the first.
pub fn subtract(alloc: Global, terms: &[&Linear]) -> Result<Linear, TermError>
    ensures { Sums (less_others (map (λ l. l.now) terms.now)) result }
{
    let count = if terms.len() > 1 { 1 } else { 0 };
    let (first, others) = terms.split_at(count);
    let total = sum_less(alloc, first, others)?;
    Ok(total)
}

/// `+` or `-`.
pub fn total(alloc: Global, sign: Sign, terms: &[&Linear]) -> Result<Linear, TermError>
    ensures { Sums (linear_sum sign (map (λ l. l.now) terms.now)) result }
{
    match sign {
        Sign::Plus => add(alloc, terms),
        Sign::Minus => subtract(alloc, terms),
    }
}
