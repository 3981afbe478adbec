//! The text of certificates: one line for each question of a script, with what decides it.
//!
//! `specs/Form.antt` has the format as s-expressions, in both versions, and a line is such an s-expression as `smt_sexpr`
//! prints it. The laws: each can be written and is read again ([`entry_is_writable`], [`reads_back_entry`]), its text
//! tells an entry from all others ([`one_entry`]), and an entry without kept lemmas has one text in both versions
//! ([`own_lemmas_alone`]).
#![tactic(auto)]

mod entry;
mod laws;
mod number;
mod writer;

pub use entry::{Entry, FileEntry, Version, write_end, write_header};
pub use laws::{entry_is_writable, one_entry, own_lemmas_alone, reads_back_entry};
pub use number::{NUMBER_LIMIT, limits_law};
pub use writer::Part;
