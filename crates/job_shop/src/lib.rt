//! Job shops: an instance's numbers as collections of instances have them, the script whose least `m` is the least
//! makespan, and the text of a plan.
//!
//! `specs/Shops.antt` says what a job shop is, `specs/Feasible.antt` when a plan is feasible and what its makespan is,
//! `specs/Plans.antt` what a least plan is, `specs/Tight.antt` when no operation can start earlier, `specs/Instances.antt` which bytes are an instance and why others aren't,
//! `specs/Scripts.antt` which commands the script has, and `specs/PlanTexts.antt` how a plan is written.
#![tactic(auto)]

mod examples;
mod fault;
mod plan;
mod reading;
mod script;
mod shop;
mod text;
mod tight;
mod words;

pub use examples::{worked_instances, worked_operations, worked_refusals};
pub use fault::{JobError, JobFault, JobRefusal, refusal_text};
pub use plan::plan_text;
pub use reading::read_jobs;
pub use script::script_of;
pub use shop::{COUNT_LIMIT, DURATION_LIMIT, Job, Jobs, Operation};
pub use tight::tightened;
