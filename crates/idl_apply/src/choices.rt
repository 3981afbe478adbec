//! Sums of Int terms with cases: one of each choice of a case of each term.
ghost use Rattle.std.specs.Prelude.{◌≡◌, ◌≤◌, IfOk, OnOk, length, map};
ghost use Rattle.idl_cases.specs.code.CaseSums.{added_all, signed_cases, summed_cases};
ghost use Rattle.idl_apply.specs.code.Applying.{SumsTerms, taken_from};
ghost use Rattle.idl_apply.specs.Choices.{count_from, are_few};

use crate::error::{TermError, TermRefusal};
use crate::operator::Sign;
use idl_cases::{CASES_LIMIT, Cases, Summing};
use std::alloc::{AllocError, Global};

/// Whether there are so few choices that a term may have them as its cases.
fn are_few(terms: &[&Cases]) -> bool
    ensures { result ≡ are_few (count_from 1 (map (λ t. t.now) terms.now)) }
{
    let mut count = 1usize;
    for term in terms {
        count = count.saturating_mul(term.len()).min(CASES_LIMIT + 1);
    }
    count <= CASES_LIMIT
}

/// How many terms there are that the others are taken from.
fn taken_from(sign: Sign, count: usize) -> usize
    ensures is { result ≡ taken_from sign count }
    ensures within { result ≤ count }
{
    match sign {
        Sign::Plus => count,
        Sign::Minus if count > 1 => 1,
        Sign::Minus => 0,
    }
}

/// More terms, or their negatives.
fn add_all<'t>(
    sum: &mut Summing<'t>,
    terms: &[&'t Cases],
    is_negated: bool,
) -> Result<(), AllocError>
    ensures { OnOk result (summed_cases sum.new
        ≡ added_all (summed_cases sum.old) (map (signed_cases is_negated) (map (λ t. t.now) terms.now))) }
{
    for term in terms {
        sum.add(term, is_negated)?;
    }
    Ok(())
}

/// `+` or `-` of Int terms. The limits hold of the total in each case, and not of its parts.
pub(crate) fn sum_terms(alloc: Global, sign: Sign, terms: &[&Cases]) -> Result<Cases, TermError>
    ensures { SumsTerms sign (map (λ t. t.now) terms.now) result }
{
    if !are_few(terms) {
        return Err(TermError::Refused(TermRefusal::TooManyCases));
    }
    let (first, others) = terms.split_at(taken_from(sign, terms.len()));
    let mut sum = Summing::new(alloc);
    add_all(&mut sum, first, false)?;
    add_all(&mut sum, others, true)?;
    let total = sum.finish(alloc)?;
    Ok(total)
}
