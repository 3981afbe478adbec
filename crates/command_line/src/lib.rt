//! The command line of `dtp`: which words ask for what, read by `clap`.
#![tactic(auto)]

mod command;
mod laws;
mod line;

pub use laws::{fault_law, plain_line_law};
pub use line::{Emit, Format, Line, LineError, Search, Shop, read_line};
