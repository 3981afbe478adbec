//! The top call of `dtp`: [`run`] does what the words ask for, from a source to a sink, and answers the status that the
//! program ends with. What it promises is one record, `IsRun` of `specs/Outcomes.antt`.
#![tactic(auto)]

mod laws;
mod perform;
mod process;
mod status;
mod work;

pub use dtp_session::{Gate, NoGate};
pub use laws::{
    accepted_says_nothing_false, certified_is_not_refused, converted_is_not_refused,
    shop_is_not_refused, verdicts_of_one_thread,
};
pub use perform::run;
pub use process::start;
pub use status::Status;
