//! The names that terms of difference logic use, and what they stand for: declared names, defined ones, and variables of `let`s.
#![tactic(auto)]

mod key;
mod limits;
mod locals;
mod lowered;
mod names;
mod scope;

pub use idl_linear::NAMES_LIMIT;
pub use limits::limits_law;
pub use locals::Locals;
pub use lowered::Lowered;
pub use names::Names;
pub use scope::{FoundName, Scope};
