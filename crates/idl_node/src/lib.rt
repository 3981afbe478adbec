//! The node table of difference logic: formulas over bounds on differences of time points, each node by the numbers of the
//! nodes that it is made of. Equal nodes are one.
#![tactic(auto)]

mod error;
mod examples;
mod laws;
mod limits;
mod making;
mod node;
mod nodes;
mod repeated;
mod sort;
mod truth;

pub use error::{NodeError, NodeRefusal};
pub use examples::{worked_formulas, worked_truths};
pub use laws::{list_making_law, making_law, truth_law};
pub use limits::{NODES_LIMIT, limits_law};
pub use node::Node;
pub use nodes::Nodes;
pub use repeated::place_before;
pub use sort::Sort;
pub use truth::{eval, eval_on, point_value};
