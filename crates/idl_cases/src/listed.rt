//! Cases that are written out.
ghost use Rattle.std.specs.Prelude.{◌≡◌};

use idl_linear::Linear;
use std::marker::Model;

/// A case of an Int term: what the term is worth where its guards, which are nodes of the table, are all true.
#[derive(Drop)]
pub struct Case {
    pub(crate) guards: Vec<u32>,
    pub(crate) linear: Linear,
}

impl Model for Case {
    ghost use Rattle.idl_cases.specs.Guarded.{CaseValue};

    ghost Value = { CaseValue };

    ghost view = { λ c. record { guards = c.guards.items; linear = c.linear } };
}

impl Case {
    /// The numbers of the nodes that are true in this case.
    pub fn guards(&self) -> &[u32]
        ensures { result.now ≡ self.now.guards }
    {
        &self.guards
    }

    /// What the term is worth in this case.
    pub fn linear(&self) -> &Linear
        ensures { result.now ≡ self.now.linear }
    {
        &self.linear
    }
}
