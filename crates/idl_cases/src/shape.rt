//! What the cases of an Int term are made of.
ghost use Rattle.std.specs.Prelude.{false};
ghost use Rattle.idl_cases.specs.code.Bounded.{AreLinear};
ghost use Rattle.idl_cases.specs.code.CaseShapes.{IsChosen, IsForm};

use crate::cases::{Cases, Kind};
use crate::choices::{Choices, Part, Tree};
use crate::listed::Case;
use idl_linear::Linear;

/// The choices of an Int term, and what is added to each of them.
#[derive(Clone, Copy)]
pub enum Chosen<'c> {
    /// The one case of a term without conditions.
    Plain(&'c Linear),
    Choices(&'c Choices),
    Moved(&'c Linear, &'c Choices),
}

/// What choices are made of.
#[derive(Clone, Copy)]
pub enum Form<'c> {
    /// The cases of the first where the condition's node is true, and then those of the second where the denial's is.
    Branched {
        condition: u32,
        denial: u32,
        yes: &'c Cases,
        no: &'c Cases,
    },
    /// The sum in each of the first's cases outside, and each of the second's inside.
    Sum {
        first: &'c Choices,
        second: &'c Choices,
    },
    /// One after the other.
    Listed(&'c [Case]),
}

impl Cases {
    /// The choices, and what is added to each.
    pub fn chosen(&self) -> Chosen<'_>
        ensures { IsChosen self.now result }
    {
        match &self.kind {
            Kind::Plain(linear) => Chosen::Plain(linear),
            Kind::Chosen { by, choices } => match by {
                Some(by) => Chosen::Moved(by, choices),
                None => Chosen::Choices(choices),
            },
        }
    }
}

impl Choices {
    /// What the cases are made of, or what their negatives are; and whether they are the negatives.
    pub fn form(&self) -> (Form<'_>, bool)
        ensures form { IsForm self.now result.1 result.0 }
        ensures linear { AreLinear self.now }
    {
        (self.tree.form(), self.is_negated)
    }
}

impl Tree {
    /// What the cases are made of.
    fn form(&self) -> Form<'_>
        ensures form { IsForm self.now false result }
        ensures linear { AreLinear self.now }
    {
        match &self.part {
            Part::Branched {
                condition,
                denial,
                yes,
                no,
            } => Form::Branched {
                condition: *condition,
                denial: *denial,
                yes,
                no,
            },
            Part::Sum { first, second } => Form::Sum { first, second },
            Part::Listed(cases) => Form::Listed(cases),
        }
    }
}
