//! The entries of the table.

use smt_lex::Token;

/// The number of an s-expression in its table.
pub type SexprId = usize;

/// One s-expression of a table.
#[derive(Clone, Copy, Debug, PartialEq, Eq)]
pub enum Node {
    /// A token that is no parenthesis.
    Leaf(Token),
    /// A list: where the ids of its items begin among those of all lists, and how many there are.
    List(usize, usize),
}
