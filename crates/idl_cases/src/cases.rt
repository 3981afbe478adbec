//! The cases of Int terms.
ghost use Rattle.std.specs.Prelude.{◌≡◌, ◌<◌, ◌+◌, ◌^◌, IfOk, IfSome, length, option_map};
ghost use Rattle.idl_cases.specs.Guarded.{branched, plain, plain_linear};
ghost use Rattle.idl_cases.specs.code.Bounded.{AreBounded, AreLimits};

use crate::bounds::Bounds;
use crate::choices::{Choices, Part, Tree};
use crate::shape::Chosen;
use idl_linear::Linear;
use std::alloc::{AllocError, Global};
use std::marker::Model;

/// The greatest number of cases of an Int term, and of a pair of them that is compared.
pub const CASES_LIMIT: usize = 4_096;

/// The cases of an Int term, of which there is at least one: a linear term where there are no conditions, and else choices, which terms
/// share, beside what is added to each of them. So a copy, a sum or one more condition takes the same time whatever the number of cases.
#[cycle(cases)]
pub struct Cases {
    pub(crate) kind: Kind,
}

impl Drop for Cases {
    #[cycle(drops)]
    fn drop(self) {
        let Cases { kind } = self;
        drop(kind);
    }
}

#[derive(Drop)]
#[cycle(cases)]
pub(crate) enum Kind {
    Plain(Linear),
    Chosen {
        by: Option<Linear>,
        choices: Choices,
    },
}

impl Model for Cases {
    ghost use Rattle.std.specs.Prelude.{◌+◌, ◌*◌, List, length};
    ghost use Rattle.idl_cases.specs.Guarded.{CaseValue};

    ghost Value = { List CaseValue };

    ghost use Rattle.idl_cases.specs.code.CaseTrees.{cases_in, IsKind};
    ghost use Rattle.idl_cases.specs.code.CaseSums.{moved_count};

    ghost view = { λ c. cases_in c.kind };

    ghost invariant = { λ c. IsKind c.kind };

    ghost size = { λ cases. 3 * length cases + 2 };

    ghost use Rattle.std.proofs.Common.{arith};

    ghost size_decreases = { λ a h. Prim.grind (arith, moved_count) };
}

impl Cases {
    /// Of a term without conditions. It takes no memory beside the linear term.
    pub fn plain(linear: Linear) -> Self
        ensures { result ≡ plain linear }
    {
        Cases {
            kind: Kind::Plain(linear),
        }
    }

    /// How many cases there are.
    pub fn len(&self) -> usize
        ensures count { result ≡ length self.now }
        ensures some { 0 < length self.now }
    {
        match &self.kind {
            Kind::Plain(_) => 1,
            Kind::Chosen { choices, .. } => choices.len(),
        }
    }

    /// The linear term of a term without conditions: of one case without guards.
    pub fn plain_linear(&self) -> Option<&Linear>
        ensures { option_map (λ l. l.now) result ≡ plain_linear self.now }
    {
        match &self.kind {
            Kind::Plain(linear) => Some(linear),
            Kind::Chosen { .. } => None,
        }
    }

    /// The choices, where there are some.
    pub(crate) fn into_choices(self) -> Option<Choices>
        ensures { IfSome result (λ choices. length choices ≡ length self) }
    {
        let Cases { kind } = self;
        match kind {
            Kind::Plain(_) => None,
            Kind::Chosen { by: _, choices } => Some(choices),
        }
    }

    /// An equal one. It shares the choices.
    pub fn copy(&self) -> Result<Cases, AllocError>
        ensures { IfOk result (λ c. c ≡ self.now) }
    {
        let kind = match &self.kind {
            Kind::Plain(linear) => Kind::Plain(linear.copy()?),
            Kind::Chosen { by, choices } => {
                let by = match by {
                    Some(by) => Some(by.copy()?),
                    None => None,
                };
                Kind::Chosen {
                    by,
                    choices: choices.copy(false)?,
                }
            }
        };
        Ok(Cases { kind })
    }

    /// Of each case.
    fn bounds(&self) -> Bounds
        ensures limits { AreLimits result }
        ensures each { AreBounded result self.now }
    {
        match self.chosen() {
            Chosen::Plain(linear) => Bounds::of(linear),
            Chosen::Choices(choices) => choices.bounds(),
            Chosen::Moved(by, choices) => match Bounds::of(by).of_sum(choices.bounds()) {
                Some(bounds) => bounds,
                None => Bounds::limits(),
            },
        }
    }

    /// `ite` of Int terms: the cases of the first where the condition's node is true, and then those of the second where the
    /// denial's is.
    pub fn branched(
        alloc: Global,
        condition: u32,
        denial: u32,
        yes: Cases,
        no: Cases,
    ) -> Result<Cases, AllocError>
        requires { length yes + length no < 2 ^ 64 }
        ensures { IfOk result (λ c. c ≡ branched condition denial yes no) }
    {
        let count = yes.len() + no.len();
        let bounds = yes.bounds().of_both(no.bounds());
        let tree = Tree {
            count,
            bounds,
            part: Part::Branched {
                condition,
                denial,
                yes,
                no,
            },
        };
        let choices = Choices::of_tree(alloc, tree)?;
        Ok(Cases {
            kind: Kind::Chosen { by: None, choices },
        })
    }
}
