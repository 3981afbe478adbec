//! The whole lexicon of SMT-LIB 2.6, section 3.1: [`Lexer`] cuts bytes into tokens.
//!
//! At each place the longest token is taken, behind any white space and comments. Two tokens need
//! nothing between them where the first can't go on: `1x` is a numeral and a symbol. The places of a
//! [`Token`] and of a [`LexError`] are counted in bytes from 0, and no byte is copied.
//!
//! `specs/Grammar.antt` says which bytes are white space, tokens and refusals, as a relation that
//! doesn't compute. [`one_reading`] is the law that it leaves one reading at each place, and
//! [`reads_back`] that a token that was written is read again. Reading takes time linear in the
//! bytes, and no memory.
//!
//! What a token stands for: [`symbol_content`] for symbols and [`numeral_value`] for numerals, with
//! the laws [`content_of_symbol`] and [`numeral_digits`].
//!
//! Where the standard asks for printable characters only, in strings, quoted symbols and comments,
//! any byte may stand. Its reserved words are symbols here.
#![tactic(auto)]

mod front;
mod laws;
mod lexer;
mod numeral;
mod scan;
mod symbol;
mod token;

pub use laws::{one_reading, reads_back, reads_on};
pub use lexer::Lexer;
pub use numeral::{numeral_digits, numeral_value};
pub use symbol::{content_of_symbol, is_simple_symbol, symbol_content};
pub use token::{LexError, LexErrorKind, Token, TokenKind};
