//! What terms are made into.
ghost use Rattle.std.specs.Prelude.{◌≡◌, IfOk};
ghost use Rattle.idl_scope.specs.code.Kept.{sort_of};
ghost use Rattle.idl_scope.specs.Scopes.{linear_term, shown_term};

use idl_cases::Cases;
use idl_linear::Linear;
use idl_node::Sort;
use std::alloc::AllocError;

/// What a term is made into.
#[derive(Drop)]
pub enum Lowered {
    /// A Bool term: the number of its node.
    Truth(u32),
    /// An Int term: its cases.
    Number(Cases),
}

impl Lowered {
    /// An Int term without conditions.
    pub fn number(linear: Linear) -> Lowered
        ensures { shown_term result ≡ linear_term linear }
    {
        Lowered::Number(Cases::plain(linear))
    }

    /// An equal one in memory of its own.
    pub fn copy(&self) -> Result<Lowered, AllocError>
        ensures { IfOk result (λ t. t ≡ self.now) }
    {
        match self {
            Lowered::Truth(node) => Ok(Lowered::Truth(*node)),
            Lowered::Number(cases) => {
                let cases = cases.copy()?;
                Ok(Lowered::Number(cases))
            }
        }
    }

    /// The sort of the term.
    pub fn sort(&self) -> Sort
        ensures { result ≡ sort_of (shown_term self.now) }
    {
        match self {
            Lowered::Truth(_) => Sort::Bool,
            Lowered::Number(_) => Sort::Int,
        }
    }
}
