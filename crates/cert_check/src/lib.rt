//! The checker: whether lemmas are a refutation of a Disjunctive Temporal Problem, or what their first flaw is, and
//! whether a schedule is one of the problem. It trusts nothing of what it is given.
#![tactic(auto)]

mod assumptions;
mod cases;
mod check;
mod flaw;
mod laws;
mod schedule;
mod walk;

pub use check::{check_lemma, check_refutation};
pub use flaw::{CheckError, Flaw, FlawKind};
pub use laws::{accepted_law, examples_law, first_law, flaw_law, lemma_law, tests_law};
pub use schedule::check_schedule;
