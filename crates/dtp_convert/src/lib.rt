//! Writes a script's certificate anew, in the first version, where it is right: each lemma that an entry keeps of an earlier
//! one is written out with what it cites, and each clash as the cases of its clause.
#![tactic(auto)]

mod convert;
mod converting;
mod entry;
mod fitting;
mod free_set;
mod laws;
mod lemmas;
mod lines;

pub use convert::convert_pair;
pub use laws::converted_is_accepted;
