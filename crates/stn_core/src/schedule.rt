ghost use Rattle.std.specs.Prelude.{◌≡◌, List, ℤ, IfOk};

use crate::limits::Value;
use crate::literal::Literals;
use std::alloc::AllocError;
use std::marker::Model;

/// One value for each time point, in the order of the points.
pub struct Schedule {
    values: Vec<Value>,
}

impl Drop for Schedule {
    fn drop(self) {
        let Schedule { values } = self;
        drop(values);
    }
}

impl Model for Schedule {
    ghost Value = { List ℤ };

    ghost view = { λ s. s.values.items };
}

impl Schedule {
    pub fn new(values: Vec<Value>) -> Self
        ensures { result ≡ values.items }
    {
        Schedule { values }
    }

    pub fn as_slice(&self) -> &[Value]
        ensures { result.now ≡ self.now }
    {
        self.values.as_slice()
    }

    /// The values in a `Vec`, without taking memory.
    pub fn into_vec(self) -> Vec<Value>
        ensures { result.items ≡ self }
    {
        let Schedule { values } = self;
        values
    }

    /// An equal schedule in memory of its own.
    pub fn copy(&self) -> Result<Self, AllocError>
        ensures { IfOk result (λ schedule. schedule ≡ self.now) }
    {
        let alloc = *self.values.allocator();
        Ok(Schedule::new(Vec::from_slice(alloc, &self.values)?))
    }
}

/// What the literals of a Simple Temporal Network come to.
#[derive(Drop)]
pub enum Greatest {
    /// Their greatest schedule.
    Greatest(Schedule),
    /// A negative cycle of them, so that no schedule is there.
    Negative(Literals),
}
