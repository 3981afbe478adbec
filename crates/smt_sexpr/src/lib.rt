//! S-expressions (SMT-LIB 2.6, section 3.2) over the tokens of `smt_lex`, in a flat table.
//!
//! [`Sexprs`] reads the s-expressions of a text one by one, gives their parts, and prints them. A
//! symbol has the same bytes with bars and without. Lists may stand in one another as deep as memory
//! allows: nothing here is recursive. Reading takes time linear in the bytes, printing in the text.
//!
//! `specs/Reading.antt` has the grammar and the refusals, `specs/Table.antt` says what an id stands
//! for, `specs/Printing.antt` how it is written, and `specs/Commands.antt` what a whole text holds.
//! The laws: [`one_outcome`] and [`one_value`], [`one_meaning`] and [`meaning_stays`], and that what
//! is written is read again ([`reads_back`]), which all that is read and all that stands in a table
//! can be ([`read_is_writable`], [`meaning_is_writable`]).
#![tactic(auto)]

mod error;
mod laws;
mod node;
mod printer;
mod reader;
mod sexprs;
mod text;

pub use error::{SexprError, SexprRefusal};
pub use laws::{
    meaning_is_writable, meaning_stays, one_meaning, one_outcome, one_value, read_is_writable,
    reads_back, reads_on,
};
pub use node::{Node, SexprId};
pub use sexprs::Sexprs;
