//! Refutations of which later problems may keep more.
//!
//! Questions that follow one another mostly differ by unit clauses that were asserted last, as deadlines are, and a refutation that rests on
//! these is of no use once they have gone. [`relaxed`] takes them for granted instead: each lemma gets the denials of what it takes for granted as
//! further literals, and the last but one states that they can't all hold, over the other clauses alone. Where the unit clauses of a later problem are
//! as tight, [`closing`] has the lemma that ends its refutation, without a search.
//!
//! Source: Een and Soerensson, "Temporal induction by incremental SAT solving", 2003: unit clauses of one call as assumptions, and the clause over
//! them that a conflict leaves. How lemmas are written anew is a hint, and what comes of it is tested.
#![tactic(auto)]

mod draft;
mod ending;
mod measure;
mod plan;
mod relaxing;
mod run;
mod writing;

pub use ending::{closing, ended};
pub use relaxing::relaxed;
