//! Sums of linear terms that are being made.
ghost use Rattle.std.specs.Prelude.{◌≡◌, ◌+◌, ◌<◌, ◌^◌, ◌++◌, map, [], true, pos, neg_ℤ, length, take, if◌then◌else◌, OnOk, OnErr, IfOk, IfErr};
ghost use Rattle.std.specs.List.{AllByRecursion};
ghost use Rattle.idl_linear.specs.Differences.{difference_in};
ghost use Rattle.idl_linear.specs.Linear.{is_limited, negative_of};
ghost use Rattle.idl_linear.specs.Forms.{IsLinear, IsSummand, with_term, with_negative, with_terms, with_signed, term_of};
ghost use Rattle.idl_linear.specs.code.Steps.{IsRest, Refuses};

use crate::cursor::Cursor;
use crate::difference::{Difference, difference_by};
use crate::error::{DifferenceRefusal, LinearError};
use crate::held::Held;
use crate::limits::CONSTANT_LIMIT;
use crate::linear::Linear;
use crate::runs::{combine, ends_of_runs, put_runs};
use crate::summand::Summand;
use crate::within::within;
use std::alloc::{AllocError, AllocFailed, Global};
use std::marker::Model;

/// How many times as many summands as all others together a term has that they go into.
const TIMES_AS_MANY: usize = 8;

/// A sum of linear terms that is being made. The limits hold of the whole sum alone, and not of its parts.
#[derive(Drop)]
pub(crate) struct LinearSum {
    /// In any order.
    summands: Vec<Summand>,
    constant: i128,
    /// How many terms there are.
    terms: u64,
}

impl Model for LinearSum {
    ghost use Rattle.idl_linear.specs.Forms.{SumValue, IsSum};

    ghost Value = { SumValue };

    ghost view = { λ s. record { summands = s.summands.items; constant = s.constant; terms = s.terms } };

    ghost invariant = { λ s. IsSum
        (record { summands = s.summands.items; constant = s.constant; terms = s.terms }) };
}

impl LinearSum {
    /// The sum of no terms. It takes no memory.
    pub(crate) fn new(alloc: Global) -> Self
        ensures { result ≡ record { summands = []; constant = pos 0; terms = 0 } }
    {
        LinearSum {
            summands: Vec::new(alloc),
            constant: 0,
            terms: 0,
        }
    }

    /// One more term. Without memory the sum stays as it was.
    pub(crate) fn add(&mut self, term: &Linear) -> Result<(), AllocError>
        requires { self.old.terms + 1 < 2 ^ 64 }
        ensures ok { OnOk result (self.new ≡ with_term self.old term.now) }
        ensures err { OnErr result (self.new ≡ self.old) }
        ensures linear { IsLinear term.now }
    {
        extend(&mut self.summands, term.cursor())?;
        self.constant += i128::from(term.constant());
        self.terms += 1;
        Ok(())
    }

    /// The negative of one more term. Without memory the sum stays as it was.
    pub(crate) fn subtract(&mut self, term: &Linear) -> Result<(), AllocError>
        requires { self.old.terms + 1 < 2 ^ 64 }
        ensures ok { OnOk result (self.new ≡ with_negative self.old term.now) }
        ensures err { OnErr result (self.new ≡ self.old) }
        ensures linear { IsLinear term.now }
    {
        extend(&mut self.summands, term.negative_cursor())?;
        self.constant -= i128::from(term.constant());
        self.terms += 1;
        Ok(())
    }

    /// More terms.
    pub(crate) fn add_all(&mut self, terms: &[&Linear]) -> Result<(), AllocError>
        requires { self.old.terms + length terms.now < 2 ^ 64 }
        ensures { OnOk result (self.new ≡ with_terms self.old (map (λ l. l.now) terms.now)) }
    {
        for term in terms {
            self.add(term)?;
        }
        Ok(())
    }

    /// The negatives of more terms.
    pub(crate) fn subtract_all(&mut self, terms: &[&Linear]) -> Result<(), AllocError>
        requires { self.old.terms + length terms.now < 2 ^ 64 }
        ensures { OnOk result (self.new ≡ with_terms self.old (map negative_of (map (λ l. l.now) terms.now))) }
    {
        for term in terms {
            self.subtract(term)?;
        }
        Ok(())
    }

    /// The sum as a linear term. It takes a time of n log n for n summands.
    pub(crate) fn finish(self) -> Result<Linear, LinearError>
        ensures ok { IfOk result (λ l. l ≡ term_of self) }
        ensures limited { IfOk result (λ _. is_limited (term_of self) ≡ true) }
        ensures refused { IfErr result (λ why. Refuses why (is_limited (term_of self))) }
        ensures each { AllByRecursion IsSummand self.summands }
    {
        let alloc = *self.summands.allocator();
        let mut summands = self.summands;
        summands.sort_unstable_by_key(|summand| summand.point);
        combine(&mut summands)?;
        let constant = match within(CONSTANT_LIMIT, self.constant) {
            Some(constant) => constant,
            None => return Err(LinearError::BoundTooLarge),
        };
        let held = Held::new(alloc, summands)?;
        Ok(Linear::from_parts(held, constant))
    }

    /// The sum compared with 0. No limit of Int terms holds of it. It takes a time of n log n for n summands.
    pub(crate) fn difference(self) -> Result<Result<Difference, DifferenceRefusal>, AllocError>
        ensures { IfOk result (λ made. made ≡ difference_in (term_of self)) }
    {
        let mut summands = self.summands;
        summands.sort_by_key(|summand| summand.point)?;
        match ends_of_runs(&summands) {
            Some(ends) => Ok(difference_by(ends, -self.constant)),
            None => Ok(Err(DifferenceRefusal::NotADifference)),
        }
    }

    /// The sum with one more term or its negative. Where that term has by far the most summands the others go into its tree.
    pub(crate) fn finish_on(
        self,
        alloc: Global,
        base: &Linear,
        is_negated: bool,
    ) -> Result<Linear, LinearError>
        requires { self.terms + 1 < 2 ^ 64 }
        ensures ok { IfOk result (λ l. l ≡ term_of (with_signed is_negated self base.now)) }
        ensures limited { IfOk result (λ _. is_limited (term_of (with_signed is_negated self base.now)) ≡ true) }
        ensures refused { IfErr result (λ why. Refuses why (is_limited (term_of (with_signed is_negated self base.now)))) }
        ensures each { AllByRecursion IsSummand self.summands }
        ensures linear { IsLinear base.now }
    {
        if base.count() / TIMES_AS_MANY > self.summands.len() {
            return self.finish_in_tree(alloc, base, is_negated);
        }
        let mut sum = self;
        if is_negated {
            sum.subtract(base)?;
        } else {
            sum.add(base)?;
        }
        sum.finish()
    }

    /// The sum with one more term or its negative. The others go into its tree.
    fn finish_in_tree(
        self,
        alloc: Global,
        base: &Linear,
        is_negated: bool,
    ) -> Result<Linear, LinearError>
        requires { self.terms + 1 < 2 ^ 64 }
        ensures ok { IfOk result (λ l. l ≡ term_of (with_signed is_negated self base.now)) }
        ensures limited { IfOk result (λ _. is_limited (term_of (with_signed is_negated self base.now)) ≡ true) }
        ensures refused { IfErr result (λ why. Refuses why (is_limited (term_of (with_signed is_negated self base.now)))) }
        ensures each { AllByRecursion IsSummand self.summands }
        ensures linear { IsLinear base.now }
    {
        let more = signed_constant(base.constant(), is_negated);
        let constant = match within(CONSTANT_LIMIT, self.constant + more) {
            Some(constant) => constant,
            None => return Err(LinearError::BoundTooLarge),
        };
        let mut summands = self.summands;
        summands.sort_unstable_by_key(|summand| summand.point);
        let base = base.branches(alloc, is_negated)?;
        let tree = put_runs(alloc, base.tree, &summands, base.is_negated)?;
        let held = Held::Shared {
            is_negated: base.is_negated,
            tree,
        };
        Ok(Linear::from_parts(held, constant))
    }
}

/// The number, or its negative.
pub(crate) fn signed_constant(number: i64, is_negated: bool) -> i128
    ensures { result ≡ (if is_negated then neg_ℤ number else number) }
{
    let number = i128::from(number);
    if is_negated { -number } else { number }
}

/// Without memory the list stays as it was.
fn extend(list: &mut Vec<Summand>, cursor: Cursor<'_>) -> Result<(), AllocError>
    ensures ok { OnOk result (list.new.items ≡ list.old.items ++ cursor.entry) }
    ensures err { OnErr result (list.new.items ≡ list.old.items) }
{
    let before = list.len();
    match push_all(list, cursor) {
        Ok(()) => Ok(()),
        Err(_) => {
            list.truncate(before);
            Err(AllocError)
        }
    }
}

fn push_all(list: &mut Vec<Summand>, cursor: Cursor<'_>) -> Result<(), AllocFailed<Summand>>
    ensures ok { OnOk result (list.new.items ≡ list.old.items ++ cursor.entry) }
    ensures front { take (length list.old.items) list.new.items ≡ list.old.items }
{
    let mut cursor = cursor;
    while let Some(summand) = cursor.next() {
        list.push(summand)?;
    }
    Ok(())
}
