//! The operators of terms.
ghost use Rattle.std.specs.Prelude.{◌≡◌};
ghost use Rattle.idl_apply.specs.Operators.{takes_count};

/// A connective of formulas (SMT-LIB 2.6, theory Core).
#[derive(Clone, Copy, Debug, PartialEq, Eq)]
pub enum Connective {
    Not,
    Implies,
    And,
    Or,
    Xor,
}

/// An order of whole numbers (SMT-LIB 2.6, theory Ints).
#[derive(Clone, Copy, Debug, PartialEq, Eq)]
pub enum Order {
    AtMost,
    Less,
    AtLeast,
    Greater,
}

/// What a sum does with its terms: `+` or `-` (SMT-LIB 2.6, theory Ints).
#[derive(Clone, Copy, Debug, PartialEq, Eq)]
pub enum Sign {
    Plus,
    Minus,
}

/// `=` or `distinct`, of formulas or of numbers (SMT-LIB 2.6, theory Core).
#[derive(Clone, Copy, Debug, PartialEq, Eq)]
pub enum Equality {
    Equal,
    Distinct,
}

/// An operator of terms (SMT-LIB 2.6, theories Core and Ints).
#[derive(Clone, Copy, Debug, PartialEq, Eq)]
pub enum Operator {
    Connective(Connective),
    Order(Order),
    Sum(Sign),
    Equality(Equality),
    Ite,
}

impl Operator {
    /// Whether the operator takes so many arguments.
    pub fn takes_count(self, count: usize) -> bool
        ensures { result ≡ takes_count self count }
    {
        match self {
            Operator::Connective(Connective::Not) => count == 1,
            Operator::Connective(Connective::And | Connective::Or) | Operator::Sum(_) => count >= 1,
            Operator::Ite => count == 3,
            _ => count >= 2,
        }
    }
}
