//! The lexer.
ghost use Rattle.std.specs.Prelude.{◌≡◌, List, ℕ, Option, Result, Some, None, Ok, Err, length, ◌≤◌, ◌<◌, ◌+◌};
ghost use Rattle.smt_lex.specs.declared.token.Token.{Token};
ghost use Rattle.smt_lex.specs.declared.token.LexError.{LexError};
ghost use Rattle.smt_lex.specs.code.Lexing.{err_of};
ghost use Rattle.smt_lex.specs.Grammar.{Reads};

use crate::front::front;
use crate::scan::gap;
use crate::token::{LexError, Token};
use std::marker::Model;

/// Reads the tokens of some bytes one after the other. It is seen as its bytes, the place up to which
/// they were read, and the error that it gave.
pub struct Lexer<'a> {
    bytes: &'a [u8],
    place: usize,
    failed: Option<LexError>,
}

impl Drop for Lexer<'_> {
    fn drop(self) {
        let Lexer {
            bytes: _,
            place: _,
            failed,
        } = self;
        drop(failed);
    }
}

impl<'a> Model for Lexer<'a> {
    ghost use Rattle.std.specs.Prelude.{◌≤◌, length};
    ghost use Rattle.smt_lex.specs.code.Lexing.{Lexing};

    ghost Value = { Lexing };

    ghost view = { λ l. record { bytes = l.bytes.now; place = l.place; failed = l.failed } };

    ghost invariant = { λ l. l.place ≤ length l.bytes.now };
}

impl<'a> Lexer<'a> {
    /// A lexer before the first of the bytes.
    pub fn new(bytes: &'a [u8]) -> Self
        ensures { result ≡ record { bytes = bytes.now; place = 0; failed = None } }
    {
        Lexer {
            bytes,
            place: 0,
            failed: None,
        }
    }

    /// A lexer at the same place of the same bytes, with the same error.
    pub fn copy(&self) -> Lexer<'a>
        ensures { result ≡ self.now }
    {
        Lexer {
            bytes: self.bytes,
            place: self.place,
            failed: self.failed,
        }
    }

    /// The bytes that it was made with.
    pub fn bytes(&self) -> &'a [u8]
        ensures { result.now ≡ self.now.bytes }
    {
        self.bytes
    }

    /// The place up to which the bytes were read.
    pub fn place(&self) -> usize
        ensures place { result ≡ self.now.place }
        ensures within { result ≤ length self.now.bytes }
    {
        self.place
    }

    /// Goes past so many bytes without a look at them.
    pub fn skip(&mut self, count: usize)
        requires { self.old.place + count ≤ length self.old.bytes }
        ensures { self.new ≡ record self.old { place = self.old.place + count } }
    {
        self.place += count;
    }

    /// The error that it gave, and gives again, if it gave one.
    pub fn error(&self) -> Option<LexError>
        ensures { result ≡ self.now.failed }
    {
        self.failed
    }

    /// The next token, or `None` at the end, where it stays. After an error it gives that error again.
    #[inline(always)]
    pub fn next(&mut self) -> Result<Option<Token>, LexError>
        ensures bytes { self.new.bytes ≡ self.old.bytes }
        ensures reads { self.old.failed ≡ None → Reads self.old.bytes self.old.place result self.new.place }
        ensures failed { self.old.failed ≡ None → self.new.failed ≡ err_of result }
        // Each token takes bytes, so there are no more of them than bytes.
        ensures forward { (t : Token) → result ≡ Ok (Some t) → self.old.place < self.new.place }
        ensures within { self.new.place ≤ length self.new.bytes }
        ensures again { (e : LexError) → self.old.failed ≡ Some e → (result ≡ Err e) × (self.new ≡ self.old) }
    {
        if let Some(error) = self.failed {
            return Err(error);
        }
        let start = self.place + gap(&self.bytes[self.place..]);
        self.place = start;
        let rest = &self.bytes[start..];
        if rest.is_empty() {
            return Ok(None);
        }
        match front(rest) {
            Ok((kind, length)) => {
                let end = start + length;
                self.place = end;
                Ok(Some(Token { kind, start, end }))
            }
            Err((kind, offset)) => {
                let place = start + offset;
                let error = LexError { place, kind };
                self.failed = Some(error);
                Err(error)
            }
        }
    }
}
