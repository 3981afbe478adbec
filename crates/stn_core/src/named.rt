ghost use Rattle.std.specs.Prelude.{◌≡◌};

use crate::limits::Value;
use std::marker::Model;

/// The value of a declared name: a whole number of a name of sort Int or a truth value of one
/// of sort Bool.
#[derive(Clone, Copy, Debug, PartialEq, Eq)]
pub enum NamedValue {
    Int(Value),
    Truth(bool),
}

/// One value for each active declared name, in the order of declaration.
pub struct NamedValues {
    values: Vec<NamedValue>,
}

impl Drop for NamedValues {
    fn drop(self) {
        let NamedValues { values } = self;
        drop(values);
    }
}

impl Model for NamedValues {
    ghost use Rattle.std.specs.Prelude.{List};
    ghost use Rattle.stn_core.specs.declared.named.NamedValue.{NamedValue as OneValue};

    ghost Value = { List OneValue };

    ghost view = { λ n. n.values.items };
}

impl NamedValues {
    pub fn new(values: Vec<NamedValue>) -> Self
        ensures { result ≡ values.items }
    {
        NamedValues { values }
    }

    pub fn as_slice(&self) -> &[NamedValue]
        ensures { result.now ≡ self.now }
    {
        self.values.as_slice()
    }

    /// The values in a `Vec`, without taking memory.
    pub fn into_vec(self) -> Vec<NamedValue>
        ensures { result.items ≡ self }
    {
        let NamedValues { values } = self;
        values
    }
}
