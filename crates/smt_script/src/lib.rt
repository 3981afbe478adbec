//! The commands of scripts, and the state that they lead to (SMT-LIB 2.6, section 4).
#![tactic(auto)]

mod asked;
mod assumption;
mod attribute;
mod command;
mod command_name;
mod error;
mod examples;
mod exit;
mod information;
mod laws;
mod limits;
mod lowering;
mod objective;
mod option;
mod sorts;
mod state;
mod taken;
mod value;

pub use asked::{asked_terms, echoed_text};
pub use assumption::AssumedLiteral;
pub use command_name::CommandName;
pub use error::{LeftOutCommand, Refusal, ScriptError};
pub use examples::{worked_commands, worked_names, worked_objectives};
pub use exit::is_exit;
pub use information::Information;
pub use laws::{exit_law, mode_law, objective_law, state_law};
pub use limits::{LEVELS_LIMIT, limits_law};
pub use objective::Objective;
pub use state::{Active, Effect, Level, Mode, Notice, Question, Satisfiability, State};
pub use value::TermValue;
