//! The course of a script: its commands one after the other, each with what it leads to ([`Walk`]), and one loop over them for whoever
//! answers, judges or counts a script ([`Visitor`]).
#![tactic(auto)]

mod kind;
mod question;
mod reader;
mod visitor;
mod walk;

pub use kind::kind_of;
pub use question::refusal_of;
pub use reader::{Next, read_next};
pub use visitor::{Visitor, go_through};
pub use walk::{Event, Walk};
