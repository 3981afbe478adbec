//! What holds of the scripts of `bench`, whatever the four numbers are: no command of them is refused.
#![tactic(auto)]

mod laws;

pub use laws::{certificate_is_accepted, names_are_operations, script_has_no_error};
