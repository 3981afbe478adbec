//! From a job shop's numbers to a plan of least makespan, or to the script and the certificate that show that it is one:
//! [`answer_shop`].
//!
//! The script is that of `job_shop`, in which a name stands for the makespan and is minimized. That its least value is the least
//! makespan, that no command of it is refused, and that it is accepted with its certificate, are laws of `shop_law`.
#![tactic(auto)]

mod answer;
mod emit;
mod plan;

pub use answer::answer_shop;
pub use emit::{Answered, Emit};
