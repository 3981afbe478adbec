//! What the script of a job shop means: the schedules that make all its assertions true are the feasible plans, and what is
//! written of it has a least one.
#![tactic(auto)]

mod laws;

pub use laws::{
    best_is_least_makespan, no_less_than_makespan, objective_is_bounded, schedules_are_plans,
    schedules_are_starts, script_is_read, script_is_satisfiable, script_means_plans,
    shop_is_accepted, shop_is_answered, state_of_script,
};
