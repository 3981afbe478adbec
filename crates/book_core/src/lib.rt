//! The book of a search in parallel: a problem, a cover of cubes that are dealt out to seats, the lemmas that
//! were learned, perhaps a schedule, and the journal of all calls.
//!
//! A seat takes a cube, works on it alone, and delivers what it found: a schedule, a lemma that excludes the
//! cube, or a literal by which the cube is to be divided, each with the lemmas learned on the way.
//! `specs/Books.antt` says when a call may come and what it makes of the book; a book's state is what its
//! journal replays to (`specs/Runs.antt`).
#![tactic(auto)]

mod answer;
mod book;
mod closing;
mod delivery;
mod event;
mod handed;
mod laws;
mod prepared;
mod refutation;
mod verdict;

pub use answer::Answer;
pub use book::Book;
pub use delivery::{Delivery, Refused};
pub use event::{Event, Outcome, Taken};
pub use handed::HandedBatch;
pub use laws::{divided_law, done_kept_law, ends_law, sound_law};
pub use verdict::Verdict;
