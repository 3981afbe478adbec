//! Where the value of an Int term is still looked for.
ghost use Rattle.std.specs.Prelude.{◌≡◌, ◌+◌, ℕ, ℤ, Bool, List, Option, IfSome, length};
ghost use Rattle.idl_cases.specs.code.Bounded.{AreLinear};
ghost use Rattle.idl_cases.specs.code.GuardBounds.{AreGuardsBelow};
ghost use Rattle.idl_value.specs.code.Evaluating.{both_values, first_value, signed_value, IsTermValue};
ghost use Rattle.idl_value.specs.code.Looking.{either_value, step_value, whole_number, whole_value, IsStepWithin};

use idl_cases::{Cases, Choices};
use stn_core::Value;

/// A part of an Int term whose value is looked for. The whole's is the part's, or its negative, with `sum` more, modulo 2^128. Where
/// the part has none, the whole's is `otherwise`.
#[derive(Clone, Copy)]
pub(crate) struct Pending<'c> {
    pub(crate) choices: &'c Choices,
    pub(crate) is_negated: bool,
    pub(crate) sum: Value,
    pub(crate) otherwise: Option<Value>,
}

/// Both branches of an `ite`, and the nodes of their guards.
#[derive(Clone, Copy)]
pub(crate) struct Branches<'c> {
    pub(crate) condition: u32,
    pub(crate) denial: u32,
    pub(crate) yes: &'c Cases,
    pub(crate) no: &'c Cases,
}

/// Where a step leads.
#[derive(Clone, Copy)]
pub(crate) enum Step<'c> {
    /// To the whole's value.
    Found(Option<Value>),
    /// To a smaller part.
    On(Pending<'c>),
}

impl<'c> Pending<'c> {
    /// The part is the whole.
    pub(crate) fn new(choices: &'c Choices) -> Self
        ensures choices { result.choices.now ≡ choices.now }
        ensures linear { AreLinear choices.now }
        ensures whole { (found : Option ℤ) → IfSome found IsTermValue → whole_value result found ≡ found }
    {
        choices.form();
        Pending {
            choices,
            is_negated: false,
            sum: 0,
            otherwise: None,
        }
    }

    /// The whole's value where this one is the part's.
    fn with(self, value: Value) -> Value
        ensures { result ≡ whole_number self.entry.is_negated self.entry.sum value }
    {
        if self.is_negated {
            self.sum.wrapping_sub(value)
        } else {
            self.sum.wrapping_add(value)
        }
    }

    /// The whole's value where this one is the part's, or where the part has none.
    pub(crate) fn whole(self, found: Option<Value>) -> Option<Value>
        ensures { result ≡ whole_value self.entry found }
    {
        match found {
            Some(value) => Some(self.with(value)),
            None => self.otherwise,
        }
    }

    /// The part's negative, or the part.
    pub(crate) fn signed(self, is_negative: bool) -> Self
        ensures choices { result.choices.now ≡ self.entry.choices.now }
        ensures whole { (found : Option ℤ) → whole_value result found ≡ whole_value self.entry (signed_value is_negative found) }
    {
        if !is_negative {
            return self;
        }
        Pending {
            choices: self.choices,
            is_negated: !self.is_negated,
            sum: self.sum,
            otherwise: self.otherwise,
        }
    }

    /// The part's cases are those of other choices.
    pub(crate) fn within(self, choices: &'c Choices) -> Self
        ensures choices { result.choices.now ≡ choices.now }
        ensures whole { (found : Option ℤ) → whole_value result found ≡ whole_value self.entry found }
    {
        Pending {
            choices,
            is_negated: self.is_negated,
            sum: self.sum,
            otherwise: self.otherwise,
        }
    }

    /// What was found is the part's value where the part has none.
    pub(crate) fn before(self, found: Option<Value>) -> Self
        ensures choices { result.choices.now ≡ self.entry.choices.now }
        ensures whole { (first : Option ℤ) → whole_value result first ≡ whole_value self.entry (either_value first found) }
    {
        let otherwise = self.whole(found);
        Pending {
            choices: self.choices,
            is_negated: self.is_negated,
            sum: self.sum,
            otherwise,
        }
    }

    /// The part is a sum of what was found and of these choices.
    pub(crate) fn summed(self, found: Option<Value>, choices: &'c Choices) -> Step<'c>
        ensures value { (test : ℕ → Bool) (values : List ℤ)
            → step_value test values result ≡ whole_value self.entry (both_values found (first_value test values choices.now)) }
        ensures within { (count : ℕ) → AreGuardsBelow count choices.now → IsStepWithin count (length choices.now + 1) result }
    {
        match found {
            Some(value) => Step::On(Pending {
                choices,
                is_negated: self.is_negated,
                sum: self.with(value),
                otherwise: self.otherwise,
            }),
            None => Step::Found(self.otherwise),
        }
    }
}
