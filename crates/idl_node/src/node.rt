use stn_core::Literal;

/// A formula, by the numbers of the nodes that it is made of.
#[derive(PartialEq, Eq, Hash, Drop)]
pub enum Node {
    True,
    /// A bound on two time points.
    Atom(Literal),
    /// Not the node with this number.
    Not(u32),
    /// All of the nodes with these numbers.
    And(Vec<u32>),
    /// One of the nodes with these numbers.
    Or(Vec<u32>),
}
