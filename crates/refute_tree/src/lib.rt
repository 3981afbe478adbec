//! Refutation trees: lemmas that show by cases, down to negative cycles, that a Disjunctive Temporal Problem has no
//! solution.
#![tactic(auto)]

mod batch;
mod batch_laws;
mod cycle;
mod earlier;
mod kind;
mod laws;
mod lemma;
mod lengths;
mod limits;
mod lists;
mod moving;
mod narrow;
mod path;
mod reader;
mod step;
mod store;
mod tree;

pub use batch::Batch;
pub use batch_laws::{joined_law, moved_batch_law, references_law};
pub use cycle::Cycle;
pub use earlier::Earlier;
pub use laws::{examples_law, lengths_law, refutation_law};
pub use lemma::{Lemma, Refutation};
pub use lengths::{lengthen, shorten};
pub use limits::{LEMMAS_LIMIT, limits_law};
pub use path::Path;
pub use reader::{Reader, StepView};
pub use step::Step;
pub use store::Steps;
pub use tree::{cases, clash, leaf};
