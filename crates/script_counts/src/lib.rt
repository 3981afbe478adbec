//! How much a script declares and asserts before its first verdict is asked for: [`counts`].
#![tactic(auto)]

mod counting;

pub use counting::{ScriptCounts, counts};
