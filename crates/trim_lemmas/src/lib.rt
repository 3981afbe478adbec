//! Lemmas without those that nothing needs.
//!
//! A search keeps all that it has learned, and what it ends with rests on a part of that. [`trimmed`] keeps of a
//! refutation the last lemma, those that it cites, those that these cite, and so on; [`trimmed_batch`] of a batch the
//! wanted ones with all that they cite. `specs/Trimming.antt` has what that is, and that what is kept is refuted still.
#![tactic(auto)]

mod marking;
mod places;
mod trimming;

pub use trimming::{TrimmedBatch, trimmed, trimmed_batch};
