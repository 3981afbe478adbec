//! Elimination of atoms that have a time point of their own, as the formulas of circuits, plans and protocols have them: such an
//! atom can be true or false whatever the values of all other points are, so that its clauses may give way to their resolvents on it.
//! All of it is a hint: no contract says what an answer means, and who asks tests the lemmas and the values.
//!
//! Source: Davis and Putnam, "A computing procedure for quantification theory", Journal of the ACM 7 (1960): resolution on one
//! atom after the other; Een and Biere, "Effective preprocessing in SAT through variable and clause elimination", SAT 2005: as long
//! as there are no more clauses than before, with subsumption, and values for the atoms that are gone.
#![tactic(auto)]

mod atoms;
mod derivation;
mod eliminated;
mod elimination;
mod merging;
mod parity;
mod resolvents;
mod subsumption;
mod table;
mod uses;
mod witnesses;

pub use derivation::Origin;
pub use eliminated::{Eliminated, eliminate};
pub use witnesses::Witnesses;
