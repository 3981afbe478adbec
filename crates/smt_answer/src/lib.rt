//! The texts of answers to commands.
#![tactic(auto)]

mod assumptions;
mod kind;
mod names;
mod text;
mod values;

pub use assumptions::assumptions_text;
pub use kind::{Kind, kind_of_unreadable};
pub use names::core_text;
pub use text::{
    echo_text, error_text, info_text, kind_text, success_text, unbounded_text, unsupported_text,
    verdict_text,
};
pub use values::{minimum_text, model_text, values_text};
