//! What the calls that write and that check a script's answers both stand on: the problem of a state's assertions, the
//! definitions of entries and of what is written of a script, the kinds of refusals and the texts that go to a sink.
//!
//! Nothing here searches, so a checker that stands on this crate doesn't stand on a search.
#![tactic(auto)]

mod assertions;
mod error;
mod laws;
mod report;
mod write;

pub use assertions::problem;
pub use error::SessionError;
pub use laws::{one_transcript, right_is_so};
pub use report::Report;
pub use script_walk::kind_of;
pub use write::write_text;
