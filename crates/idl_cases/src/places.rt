//! A case by its place among choices.
ghost use Rattle.std.specs.Prelude.{◌≡◌, ◌<◌, ◌+◌, IfOk, OnOk, length};
ghost use Rattle.idl_linear.specs.code.Bounded.{IsOver};
ghost use Rattle.idl_cases.specs.code.CaseSums.{added, added_all, case_at, signed_cases, AreChoices};
ghost use Rattle.idl_cases.specs.code.CasePlaces.{place_case, signed_lists, IsOpened};
ghost use Rattle.std.specs.List.{AllByRecursion};
ghost use Rattle.std.specs.Prelude.{◌∷◌, []};

use crate::case_parts::CaseParts;
use crate::cases::Cases;
use crate::choices::Choices;
use crate::shape::{Chosen, Form};
use crate::summing::Signed;
use std::alloc::AllocError;

/// A case of choices, or of their negatives, by its place.
#[derive(Clone, Copy)]
pub(crate) struct Place<'t> {
    pub(crate) is_negated: bool,
    pub(crate) choices: &'t Choices,
    pub(crate) place: usize,
}

/// The cases that are still to be added, in this order.
#[derive(Clone, Copy)]
pub(crate) enum Behind<'t> {
    Nothing,
    One(Place<'t>),
    Two(Place<'t>, Place<'t>),
}

/// A case of cases, or of their negatives, by its place.
fn enter<'t>(
    case: &mut CaseParts<'t>,
    is_negated: bool,
    cases: &'t Cases,
    place: usize,
) -> Result<Behind<'t>, AllocError>
    requires place { place < length cases.now }
    requires over { IsOver case.old.linear }
    ensures opened { IfOk result (IsOpened (length cases.now + 1)
        (added case.old (case_at (signed_cases is_negated cases.now) place)) case.new) }
    ensures over { OnOk result (IsOver case.new.linear) }
{
    match cases.chosen() {
        Chosen::Plain(linear) => {
            case.push(linear, is_negated)?;
            Ok(Behind::Nothing)
        }
        Chosen::Choices(choices) => Ok(Behind::One(Place {
            is_negated,
            choices,
            place,
        })),
        Chosen::Moved(by, choices) => {
            case.push(by, is_negated)?;
            Ok(Behind::One(Place {
                is_negated,
                choices,
                place,
            }))
        }
    }
}

/// What is known of a case of choices at once, behind what the case has.
fn open<'t>(case: &mut CaseParts<'t>, at: Place<'t>) -> Result<Behind<'t>, AllocError>
    requires place { at.place < length at.choices.now }
    requires over { IsOver case.old.linear }
    ensures opened { IfOk result (IsOpened (length at.entry.choices.now) (added case.old (place_case at.entry)) case.new) }
    ensures over { OnOk result (IsOver case.new.linear) }
{
    let (form, is_negative) = at.choices.form();
    let is_negated = at.is_negated != is_negative;
    match form {
        Form::Branched {
            condition,
            denial,
            yes,
            no,
        } => {
            let count = yes.len();
            if at.place < count {
                case.guard(condition)?;
                enter(case, is_negated, yes, at.place)
            } else {
                case.guard(denial)?;
                enter(case, is_negated, no, at.place - count)
            }
        }
        Form::Sum { first, second } => {
            let count = second.len();
            let outside = Place {
                is_negated,
                choices: first,
                place: at.place / count,
            };
            let inside = Place {
                is_negated,
                choices: second,
                place: at.place % count,
            };
            Ok(Behind::Two(outside, inside))
        }
        Form::Listed(cases) => {
            let listed = &cases[at.place];
            case.guard_all(listed.guards())?;
            case.push(listed.linear(), is_negated)?;
            Ok(Behind::Nothing)
        }
    }
}

/// A case of choices, behind what the case has. Sums alone are gone into by recursion: there are few in one another, since each
/// has at least twice as many cases as its parts.
fn go_to<'t>(case: &mut CaseParts<'t>, at: Place<'t>) -> Result<(), AllocError>
    requires place { at.place < length at.choices.now }
    requires over { IsOver case.old.linear }
    ensures added { OnOk result (case.new ≡ added case.old (place_case at.entry)) }
    ensures over { OnOk result (IsOver case.new.linear) }
{
    let mut at = at;
    loop {
        match open(case, at)? {
            Behind::Nothing => return Ok(()),
            Behind::One(next) => at = next,
            Behind::Two(first, second) => {
                go_to(case, first)?;
                at = second;
            }
        }
    }
}

/// A case of each of these choices, behind what the case has, by its place among all of them.
pub(crate) fn go_to_all<'t>(
    case: &mut CaseParts<'t>,
    choices: &[Signed<'t>],
    place: usize,
) -> Result<(), AllocError>
    requires each { AllByRecursion AreChoices (signed_lists choices.now) }
    requires place { place < length (added_all (case.old ∷ []) (signed_lists choices.now)) }
    requires over { IsOver case.old.linear }
    ensures added { OnOk result (case.new ≡ case_at (added_all (case.old ∷ []) (signed_lists choices.now)) place) }
    ensures over { OnOk result (IsOver case.new.linear) }
{
    let Some((last, others)) = choices.split_last() else {
        return Ok(());
    };
    let count = last.choices.len();
    go_to_all(case, others, place / count)?;
    go_to(
        case,
        Place {
            is_negated: last.is_negated,
            choices: last.choices,
            place: place % count,
        },
    )
}
