//! Sums of one or two terms of few summands, for which no list is made.
ghost use Rattle.std.specs.Prelude.{◌≡◌, ◌∷◌, ◌++◌, [], map, true, false, IfSome, ◌+ℤ◌, pos};
ghost use Rattle.idl_linear.specs.Limits.{constant_limit};
ghost use Rattle.idl_linear.specs.Linear.{is_limited, is_within, negative_of, sum_of};
ghost use Rattle.idl_linear.specs.code.Few.{signed_term, AreBoth};
ghost use Rattle.idl_linear.specs.code.Held.{held_summands};
ghost use Rattle.idl_linear.specs.code.Steps.{IsRest};

use crate::held::Held;
use crate::limits::CONSTANT_LIMIT;
use crate::linear::Linear;
use crate::linear_sum::signed_constant;
use crate::summand::Summand;
use crate::within::within;
use std::alloc::Global;

/// Two summands by ascending time points; none where they have the same.
fn in_order(first: Summand, second: Summand) -> Option<Held>
    requires first { IsRest (first ∷ []) }
    requires second { IsRest (second ∷ []) }
    ensures { IfSome result (λ held. AreBoth false (first ∷ []) (second ∷ []) (held_summands held)) }
{
    if first.point < second.point {
        return Some(Held::Two([first, second]));
    }
    if second.point < first.point {
        return Some(Held::Two([second, first]));
    }
    None
}

/// The summands of the first term and those of the second or their negatives, where each has one at most, of different time points.
fn few_summands(first: &Linear, second: &Linear, is_negated: bool) -> Option<Held>
    ensures { IfSome result (λ held.
        AreBoth is_negated first.now.summands second.now.summands (held_summands held)) }
{
    match (first.only_summand(), second.only_summand()) {
        (Some(s), Some(t)) => in_order(s, t.signed(is_negated)),
        (Some(s), None) if second.is_number() => Some(Held::One(s)),
        (None, Some(t)) if first.is_number() => Some(Held::One(t.signed(is_negated))),
        _ => None,
    }
}

/// The constant of the first term and that of the second or its negative together, where that is within its limit.
fn few_constant(first: &Linear, second: &Linear, is_negated: bool) -> Option<i64>
    ensures sum { IfSome result (λ n.
        n ≡ first.now.constant +ℤ ((signed_term is_negated second.now).constant +ℤ pos 0)) }
    ensures within { IfSome result (λ n. is_within constant_limit n ≡ true) }
{
    let more = signed_constant(second.constant(), is_negated);
    within(CONSTANT_LIMIT, i128::from(first.constant()) + more)
}

/// The first term and the second or its negative, where each has one summand at most.
fn sum_of_two(first: &Linear, second: &Linear, is_negated: bool) -> Option<Linear>
    ensures sum { IfSome result (λ l. l ≡ sum_of (first.now ∷ signed_term is_negated second.now ∷ [])) }
    ensures limited { IfSome result (λ l. is_limited l ≡ true) }
{
    let summands = few_summands(first, second, is_negated)?;
    let constant = few_constant(first, second, is_negated)?;
    Some(Linear::from_parts(summands, constant))
}

/// The negative of a number.
fn negative_number(alloc: Global, term: &Linear) -> Option<Linear>
    ensures sum { IfSome result (λ l. l ≡ sum_of (negative_of term.now ∷ [])) }
    ensures limited { IfSome result (λ l. is_limited l ≡ true) }
{
    if !term.is_number() {
        return None;
    }
    Some(Linear::number(alloc, -term.constant()))
}

/// The sum of the first terms less the others, where they are one or two and have one summand each at most.
pub(crate) fn sum_of_few(alloc: Global, terms: &[&Linear], taken: &[&Linear]) -> Option<Linear>
    ensures sum { IfSome result (λ l. l
        ≡ sum_of (map (λ l. l.now) terms.now ++ map negative_of (map (λ l. l.now) taken.now))) }
    ensures limited { IfSome result (λ l. is_limited l ≡ true) }
{
    match (terms, taken) {
        ([first, second], []) => sum_of_two(first, second, false),
        ([first], [second]) => sum_of_two(first, second, true),
        ([], [number]) => negative_number(alloc, number),
        _ => None,
    }
}
