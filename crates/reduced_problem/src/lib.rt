//! A problem that takes another one's place in a search: each of its clauses is one of the other's, or a lemma states it that is
//! refuted over the other. So a refutation of it, in the other's numbers and behind the lemmas, refutes the other
//! (`specs/Reduced.antt`); and a schedule of it is changed where the clauses that are gone want it, and tested.
//!
//! What the reduction is comes from `atom_elimination`, whose lemmas are tested before anything rests on them.
#![tactic(auto)]

mod best;
mod clauses;
mod judged;
mod reduction;
mod restating;

pub use reduction::Reduction;
