//! Terms of difference logic: their values, what they are made into, and the names that they use.
#![tactic(auto)]

mod binding;
mod examples;
mod flat;
mod head;
mod laws;
mod leaf;
mod lowering;
mod machine;
mod reserved;
mod symbol;

pub use examples::{worked_terms, worked_values};
pub use idl_apply::{
    Connective, Equality, LeftOutTerm, Operator, Order, Sign, TermError, TermRefusal,
};
pub use idl_cases::{CASES_LIMIT, Cases};
pub use idl_linear::Linear;
pub use idl_node::{Node, Nodes, Sort, eval};
pub use idl_scope::{FoundName, Lowered, Names, Scope};
pub use idl_value::{eval_int, eval_int_on};
pub use laws::{cases_law, context_law, lowered_law};
pub use lowering::lower;
pub use reserved::is_reserved;
pub use symbol::{left_out_of, operator_of};
