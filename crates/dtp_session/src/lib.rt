//! Decides scripts of difference logic, from their bytes to what is written of them: the answers by [`solve_script`], a
//! certificate by [`certify_script`]; or gives the value of its last minimize, by [`least_of`].
//!
//! The commands are those of `smt_script`, the terms those of `idl_term`, the texts those of `smt_answer` and `cert_text`. The first
//! refusal ends the script.
//!
//! What is written of a script is the relation `IsReport` of `dtp_entry/specs/Transcripts.antt`, and what a call that fails
//! has written is the relation `IsReportPart` there. A `check-sat` is answered by a few steps from an earlier schedule (`kept_schedule`), or
//! decided over the clause form of the assertions: by `book_search::refute_along`, where these steps ended with points that lowered one another in
//! a ring, by an earlier refutation whose clauses are there still, by dispatching (`dispatch_schedules`), and else by one call of `steal_search::search_one`, or of `search_shared` where there is
//! more than one worker, which open with what an earlier search has learned (`learned_lemmas`); a `minimize` by one call of `best_bound::best_one`, or of
//! `best_shared`. A certificate of the second version keeps what earlier entries state (`lemma_shelf`).
#![tactic(auto)]

mod decision;
mod earlier;
mod form;
mod found;
mod guess;
mod least;
mod minimum;
mod notices;
mod options;
mod piece;
mod session;
mod shown;
mod shown_items;
mod solve;
mod waiting;
mod wanted;
mod writing;

pub use dtp_entry::{Report, SessionError};
pub use least::{Minimum, least_of};
pub use options::SearchOptions;
pub use session::Solved;
pub use solve::{certify_script, solve_script};
pub use steal_search::{Gate, NoGate};
