//! Sums of Int terms with cases, as choices of their cases.
ghost use Rattle.std.specs.Prelude.{◌≡◌, ◌<◌, ◌-◌, ◌^◌, [], IfOk, IfErr, IfSome, OnOk, length, min, true};
ghost use Rattle.idl_linear.specs.Linear.{sum_of};
ghost use Rattle.idl_linear.specs.code.Steps.{Refuses};
ghost use Rattle.std.specs.List.{AllByRecursion};
ghost use Rattle.idl_cases.specs.code.CaseSums.{added_all, added_each, are_limited, case_at, signed_cases, summed_cases, AreChoices};
ghost use Rattle.idl_cases.specs.code.CasePlaces.{signed_lists};
ghost use Rattle.idl_cases.specs.code.Bounded.{AreLinear};

use crate::bounds::Bounds;
use crate::case_parts::CaseParts;
use crate::cases::{Cases, Kind};
use crate::choices::{Choices, Part, Tree};
use crate::listed::Case;
use crate::places::go_to_all;
use crate::shape::Chosen;
use idl_linear::{Linear, LinearError};
use std::alloc::{AllocError, Global};
use std::marker::Model;

/// Choices or their negatives.
#[derive(Clone, Copy)]
pub(crate) struct Signed<'t> {
    pub(crate) is_negated: bool,
    pub(crate) choices: &'t Choices,
}

/// A sum of Int terms that is being made. It needn't be within the limits.
pub struct Summing<'t> {
    /// Of the terms without conditions, and of what is added to others' choices.
    start: CaseParts<'t>,
    choices: Vec<Signed<'t>>,
    /// How many cases there are, or 2^64 - 1 where there are more.
    count: usize,
}

impl Drop for Summing<'_> {
    fn drop(self) {
        let Summing {
            start,
            choices,
            count: _,
        } = self;
        drop(start);
        drop(choices);
    }
}

impl<'t> Model for Summing<'t> {
    ghost use Rattle.std.specs.Prelude.{◌-◌, ◌^◌, ◌≡◌, length, min};
    ghost use Rattle.idl_cases.specs.code.CaseSums.{Summed, IsSummed};
    ghost use Rattle.idl_cases.specs.code.CasePlaces.{signed_lists};

    ghost Value = { Summed };

    ghost view = { λ s. record { start = s.start; choices = signed_lists s.choices.items } };

    ghost invariant = { λ s. IsSummed (record { start = s.start; choices = signed_lists s.choices.items }) s.count };
}

/// The sum of choices, where bounds tell that it is within the limits.
fn joined(
    alloc: Global,
    first: Signed<'_>,
    others: &[Signed<'_>],
) -> Result<Option<Choices>, AllocError>
    requires each { AllByRecursion AreChoices (signed_lists others.now) }
    requires few { length (added_all (signed_cases first.is_negated first.choices.now) (signed_lists others.now)) < 2 ^ 32 }
    ensures { IfOk result (λ o. IfSome o
        (λ c. c ≡ added_all (signed_cases first.entry.is_negated first.entry.choices.now) (signed_lists others.now))) }
{
    let mut choices = first.choices.copy(first.is_negated)?;
    for other in others {
        let more = other.choices.copy(other.is_negated)?;
        match Choices::sum(alloc, choices, more)? {
            Some(sum) => choices = sum,
            None => return Ok(None),
        }
    }
    Ok(Some(choices))
}

impl<'t> Summing<'t> {
    /// The sum of nothing. It takes no memory.
    pub fn new(alloc: Global) -> Self
        ensures { result ≡ record { start = record { guards = []; linear = sum_of [] }; choices = [] } }
    {
        Summing {
            start: CaseParts::new(alloc),
            choices: Vec::new(alloc),
            count: 1,
        }
    }

    /// One more term, or its negative.
    pub fn add(&mut self, term: &'t Cases, is_negated: bool) -> Result<(), AllocError>
        ensures { OnOk result (summed_cases self.new ≡ added_each (summed_cases self.old) (signed_cases is_negated term.now)) }
    {
        match term.chosen() {
            Chosen::Plain(linear) => self.start.push(linear, is_negated),
            Chosen::Choices(choices) => self.choose(choices, is_negated),
            Chosen::Moved(by, choices) => {
                self.start.push(by, is_negated)?;
                self.choose(choices, is_negated)
            }
        }
    }

    /// One more term's choices, or their negatives.
    fn choose(&mut self, choices: &'t Choices, is_negated: bool) -> Result<(), AllocError>
        ensures { OnOk result (summed_cases self.new ≡ added_each (summed_cases self.old) (signed_cases is_negated choices.now)) }
    {
        choices.bounds();
        let count = self.count.saturating_mul(choices.len());
        self.choices.push(Signed {
            is_negated,
            choices,
        })?;
        self.count = count;
        Ok(())
    }

    /// How many cases there are, or 2^64 - 1 where there are more.
    pub fn len(&self) -> usize
        ensures { result ≡ min (length (summed_cases self.now)) (2 ^ 64 - 1) }
    {
        self.count
    }

    /// The sum of what has no conditions, where it is within the limits.
    pub fn plain(&self, alloc: Global) -> Result<Option<Linear>, AllocError>
        ensures { IfOk result (λ o. IfSome o (λ l. l ≡ self.now.start.linear)) }
    {
        match self.start.total(alloc) {
            Ok(linear) => Ok(Some(linear)),
            Err(LinearError::BoundTooLarge) => Ok(None),
            Err(LinearError::OutOfMemory) => Err(AllocError),
        }
    }

    /// What has no conditions. The sum of it may be given.
    fn begin<'w>(
        &'w self,
        by: Option<&'w Linear>,
        case: &mut CaseParts<'w>,
    ) -> Result<(), AllocError>
        requires { IfSome by (λ l. l.now ≡ self.now.start.linear) }
        ensures { OnOk result (case.new ≡ self.now.start) }
    {
        match by {
            Some(by) => case.begin_with(by),
            None => case.begin_as(&self.start),
        }
    }

    /// A case by its place, from 0. The sum of what has no conditions may be given.
    pub fn case_at<'w>(
        &'w self,
        by: Option<&'w Linear>,
        place: usize,
        case: &mut CaseParts<'w>,
    ) -> Result<(), AllocError>
        requires by { IfSome by (λ l. l.now ≡ self.now.start.linear) }
        requires place { place < length (summed_cases self.now) }
        ensures { OnOk result (case.new ≡ case_at (summed_cases self.now) place) }
    {
        self.begin(by, case)?;
        go_to_all(case, &self.choices, place)
    }

    /// The sum beside the choices, where bounds tell that it is within the limits.
    fn shared(&self, alloc: Global, by: &Linear) -> Result<Option<Cases>, AllocError>
        requires by { by.now ≡ self.now.start.linear }
        requires some { 0 < length self.now.choices }
        requires few { length (summed_cases self.now) < 2 ^ 32 }
        ensures { IfOk result (λ o. IfSome o (λ c. (c ≡ summed_cases self.now) × AreLinear (summed_cases self.now))) }
    {
        let Some((first, others)) = self.choices.split_first() else {
            return Ok(None);
        };
        let Some(choices) = joined(alloc, *first, others)? else {
            return Ok(None);
        };
        let Some(_bounds) = Bounds::of(by).of_sum(choices.bounds()) else {
            return Ok(None);
        };
        let by = Some(by.copy()?);
        Ok(Some(Cases {
            kind: Kind::Chosen { by, choices },
        }))
    }

    /// The sum in each case.
    fn written_out<'w>(
        &'w self,
        alloc: Global,
        by: Option<&'w Linear>,
    ) -> Result<Cases, LinearError>
        requires by { IfSome by (λ l. l.now ≡ self.now.start.linear) }
        requires some { 0 < length self.now.choices }
        requires few { length (summed_cases self.now) < 2 ^ 32 }
        ensures ok { IfOk result (λ c. c ≡ summed_cases self.now) }
        ensures limited { IfOk result (λ _. are_limited (summed_cases self.now) ≡ true) }
        ensures refused { IfErr result (λ why. Refuses why (are_limited (summed_cases self.now))) }
    {
        let mut case = CaseParts::new(alloc);
        let mut cases = Vec::new(alloc);
        for place in 0..self.count {
            self.case_at(by, place, &mut case)?;
            let linear = case.total(alloc)?;
            let guards = Vec::from_slice(alloc, case.guards())?;
            cases.push(Case { guards, linear })?;
        }
        let tree = Tree {
            count: cases.len(),
            bounds: Bounds::limits(),
            part: Part::Listed(cases),
        };
        let choices = Choices::of_tree(alloc, tree)?;
        Ok(Cases {
            kind: Kind::Chosen { by: None, choices },
        })
    }

    /// The sum, where it is within the limits in each case.
    pub fn finish(&self, alloc: Global) -> Result<Cases, LinearError>
        requires { length (summed_cases self.now) < 2 ^ 32 }
        ensures ok { IfOk result (λ c. c ≡ summed_cases self.now) }
        ensures limited { IfOk result (λ _. are_limited (summed_cases self.now) ≡ true) }
        ensures refused { IfErr result (λ why. Refuses why (are_limited (summed_cases self.now))) }
    {
        if self.choices.is_empty() {
            let total = self.start.total(alloc)?;
            return Ok(Cases::plain(total));
        }
        match self.plain(alloc)? {
            Some(by) => match self.shared(alloc, &by)? {
                Some(cases) => Ok(cases),
                None => self.written_out(alloc, Some(&by)),
            },
            None => self.written_out(alloc, None),
        }
    }
}
