ghost use Rattle.std.specs.Prelude.{◌≡◌, [], length, take, OnOk, OnErr};
ghost use Rattle.cert_check.specs.Tests.{is_assumed};
ghost use Rattle.cert_check.specs.code.Walks.{with_literal};

use indexmap::IndexSet;
use std::alloc::{AllocFailed, Global};
use std::marker::Model;
use stn_core::Literal;

/// The literals that are assumed where the walk stands, each once, in the order in which they came. They are found by
/// hash, and given up from the end.
pub struct Assumptions {
    set: IndexSet<Literal>,
}

impl Drop for Assumptions {
    fn drop(self) {
        let Assumptions { set } = self;
        drop(set);
    }
}

impl Model for Assumptions {
    ghost use Rattle.std.specs.Prelude.{List};
    ghost use Rattle.stn_core.specs.declared.literal.Literal.{Literal as Bound};

    ghost Value = { List Bound };

    ghost view = { λ a. a.set.keys };
}

impl Assumptions {
    pub fn new(alloc: Global) -> Self
        ensures { result ≡ [] }
    {
        Assumptions {
            set: IndexSet::new(alloc),
        }
    }

    pub fn len(&self) -> usize
        ensures { result ≡ length self.now }
    {
        self.set.len()
    }

    pub fn contains(&self, literal: Literal) -> bool
        ensures { result ≡ is_assumed self.now literal }
    {
        self.set.contains(&literal)
    }

    pub fn assume(&mut self, literal: Literal) -> Result<(), AllocFailed<Literal>>
        ensures ok { OnOk result (self.new ≡ with_literal self.old literal) }
        ensures err { OnErr result (self.new ≡ self.old) }
    {
        self.set.insert(literal)?;
        Ok(())
    }

    /// Keeps the first ones, so many.
    pub fn cut(&mut self, len: usize)
        ensures { self.new ≡ take len self.old }
    {
        self.set.truncate(len);
    }
}
