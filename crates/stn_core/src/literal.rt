ghost use Rattle.std.specs.Prelude.{◌≡◌, ◌<◌, ◌↔◌, length, IsTrue};
ghost use Rattle.stn_core.specs.Literal.{Holds, negation_of};

use crate::limits::Value;
use std::marker::Model;

/// The bound `x - y <= c` on the values of two time points, which are given by their numbers, from 0.
#[derive(Clone, Copy, Debug, Default, PartialEq, Eq, Hash)]
pub struct Literal {
    pub x: u32,
    pub y: u32,
    pub c: i64,
}

/// The literal that holds exactly where `literal` does not: `y - x <= -c - 1`. It takes a literal with any bound, and
/// keeps one within the limits of `greatest` within them.
pub fn negate(literal: Literal) -> Literal
    ensures { result ≡ negation_of literal }
{
    Literal {
        x: literal.y,
        y: literal.x,
        c: -1 - literal.c,
    }
}

/// Whether the literal holds on these values, one for each time point. Values and bound may be any: a difference that is
/// no `Value` lies beyond every bound.
pub fn holds(literal: Literal, values: &[Value]) -> bool
    requires x_in { literal.x < length values.now }
    requires y_in { literal.y < length values.now }
    ensures { IsTrue result ↔ Holds values.now literal }
{
    let x = values[literal.x as usize];
    let y = values[literal.y as usize];
    x.saturating_sub(y) <= Value::from(literal.c)
}

/// A list of literals.
pub struct Literals {
    literals: Vec<Literal>,
}

impl Drop for Literals {
    fn drop(self) {
        let Literals { literals } = self;
        drop(literals);
    }
}

impl Model for Literals {
    ghost use Rattle.std.specs.Prelude.{List};
    ghost use Rattle.stn_core.specs.declared.literal.Literal.{Literal as Bound};

    ghost Value = { List Bound };

    ghost view = { λ l. l.literals.items };
}

impl Literals {
    pub fn new(literals: Vec<Literal>) -> Self
        ensures { result ≡ literals.items }
    {
        Literals { literals }
    }

    pub fn as_slice(&self) -> &[Literal]
        ensures { result.now ≡ self.now }
    {
        self.literals.as_slice()
    }

    /// The literals in a `Vec`, without taking memory.
    pub fn into_vec(self) -> Vec<Literal>
        ensures { result.items ≡ self }
    {
        let Literals { literals } = self;
        literals
    }
}
