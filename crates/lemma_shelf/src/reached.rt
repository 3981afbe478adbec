//! Lemmas that a walk has come to.
ghost use Rattle.std.specs.Prelude.{◌≡◌, ◌≤◌, ◌<◌, ℕ, [], length, All, slice_get, Some, nat_eq, OnOk, OnErr, IfOk};
ghost use Rattle.std.specs.List.{IsDistinct};
ghost use Rattle.lemma_shelf.specs.code.Tables.{with_number};

use indexmap::IndexSet;
use std::alloc::{AllocError, Global};
use std::marker::Model;

/// Numbers of lemmas, each once, in the order in which they came.
pub struct Reached {
    set: IndexSet<usize>,
}

impl Drop for Reached {
    fn drop(self) {
        let Reached { set } = self;
        drop(set);
    }
}

impl Model for Reached {
    ghost use Rattle.std.specs.Prelude.{List, ℕ};

    ghost Value = { List ℕ };

    ghost view = { λ r. r.set.keys };
}

impl Reached {
    pub fn new(alloc: Global) -> Self
        ensures { result ≡ [] }
    {
        Reached {
            set: IndexSet::new(alloc),
        }
    }

    pub fn len(&self) -> usize
        ensures len { result ≡ length self.now }
        ensures few { (bound : ℕ) → All (λ n. n < bound) self.now → result ≤ bound }
    {
        self.set.len()
    }

    pub fn at(&self, place: usize) -> usize
        requires { place < length self.now }
        ensures { slice_get self.now place ≡ Some result }
    {
        *self.set.get_index(place).unwrap()
    }

    /// One more, unless it is there.
    pub fn add(&mut self, number: usize) -> Result<(), AllocError>
        ensures ok { OnOk result (self.new ≡ with_number self.old number) }
        ensures err { OnErr result (self.new ≡ self.old) }
    {
        self.set.insert(number)?;
        Ok(())
    }

    /// The numbers, in the order in which they came.
    pub fn to_vec(&self, alloc: Global) -> Result<Vec<usize>, AllocError>
        ensures same { IfOk result (λ numbers. numbers.items ≡ self.now) }
        ensures unique { IfOk result (λ numbers. IsDistinct nat_eq numbers.items) }
    {
        Vec::from_slice(alloc, self.set.as_slice())
    }
}
