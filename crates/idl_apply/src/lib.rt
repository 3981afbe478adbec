//! What an operator makes of terms that are made: nodes of the table, sums in cases, comparisons.
#![tactic(auto)]

mod applied;
mod arithmetic;
mod choices;
mod comparing;
mod error;
mod few_terms;
mod operator;
mod pairing;
mod repeated;
mod rows;

pub use applied::{apply, as_formula};
pub use comparing::Relation;
pub use error::{LeftOutTerm, TermError, TermRefusal};
pub use operator::{Connective, Equality, Operator, Order, Sign};
