//! The line of a certificate's entry, written to a sink as it is made.
//!
//! The text that waits to be written grows by one lemma, or one value, at a time, and goes out when it is long:
//! beside the entry, a call takes memory for the text of its longest lemma, and some 64 KB.
#![tactic(auto)]

mod stream;

pub use stream::{write_entry, write_shown};
