//! The desk: a book that threads share, behind one turn.
//!
//! Each thread has a seat. A call on the desk takes the turn, makes one call on the book, tells of its event
//! and gives the turn back; so the book's journal is one history of all calls, and what a seat has seen is a
//! beginning of it (`specs/Seats.antt`). `specs/Rules.antt` is the rule that holds at each moment. How it works
//! stands in docs/THREADS.md.
#![tactic(auto)]

mod cube;
mod desk;
mod looking;
mod turns;
mod view;

pub use cube::{Cube, Dealt};
pub use desk::{Desk, Seat};
pub use view::{Kept, View};
