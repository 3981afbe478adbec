//! What stands at the front of the bytes: a token of each kind, or a refusal.
ghost use Rattle.std.specs.Prelude.{◌≡◌, ◌+◌, ◌<◌, ◌^◌, length, IfOk, IfErr};
ghost use Rattle.smt_lex.specs.code.Front.{front_of, fraction_of, number_of, based_of, text_of, quoted_of, marked};
ghost use Rattle.smt_lex.specs.Grammar.{LongestToken, Refuses};

use crate::scan::{
    binary_digits, digits, hex_digits, is_symbol_byte, quoted_bytes, symbol_bytes, text,
};
use crate::token::{LexErrorKind, TokenKind};

/// A token's kind and length, or a refusal and how far off its place is.
pub type Front = Result<(TokenKind, usize), (LexErrorKind, usize)>;

/// A run of so many bytes behind a mark. The run may not be empty.
fn marked(kind: TokenKind, mark: usize, run: usize) -> Front
    requires { mark + run < 2 ^ 64 }
    ensures { result ≡ marked kind mark run }
{
    if run == 0 {
        Err((LexErrorKind::BadByte, 0))
    } else {
        Ok((kind, mark + run))
    }
}

/// Behind digits: a point and more digits, or nothing that belongs to the number.
#[tactic(auto, unfolding(crate::specs::code::Front::fraction_of))]
fn fraction(whole: usize, bytes: &[u8]) -> (TokenKind, usize)
    requires { whole + length bytes.now < 2 ^ 64 }
    ensures { result ≡ fraction_of whole bytes.now }
{
    match bytes {
        [b'.', rest @ ..] => {
            let run = digits(rest);
            if run > 0 {
                (TokenKind::Decimal, whole + 1 + run)
            } else {
                (TokenKind::Numeral, whole)
            }
        }
        _ => (TokenKind::Numeral, whole),
    }
}

/// Behind a first digit.
#[tactic(auto, unfolding(crate::specs::code::Front::number_of))]
fn number(first: u8, rest: &[u8]) -> Front
    requires { length rest.now + 1 < 2 ^ 64 }
    ensures { result ≡ number_of first rest.now }
{
    let more = digits(rest);
    if first == b'0' && more > 0 {
        return Err((LexErrorKind::LeadingZero, 0));
    }
    Ok(fraction(1 + more, &rest[more..]))
}

/// Behind `#`.
#[tactic(auto, unfolding(crate::specs::code::Front::based_of))]
fn based(bytes: &[u8]) -> Front
    requires { length bytes.now + 1 < 2 ^ 64 }
    ensures { result ≡ based_of bytes.now }
{
    match bytes {
        [b'x', rest @ ..] => marked(TokenKind::Hex, 2, hex_digits(rest)),
        [b'b', rest @ ..] => marked(TokenKind::Binary, 2, binary_digits(rest)),
        _ => Err((LexErrorKind::BadByte, 0)),
    }
}

/// Behind an opening quotation mark.
#[tactic(auto, unfolding(crate::specs::code::Front::text_of))]
fn text_front(rest: &[u8]) -> Front
    requires { length rest.now + 1 < 2 ^ 64 }
    ensures { result ≡ text_of rest.now }
{
    match text(rest) {
        Some(n) => Ok((TokenKind::Text, 1 + n)),
        None => Err((LexErrorKind::UnclosedText, 0)),
    }
}

/// Behind an opening bar.
#[tactic(auto, unfolding(crate::specs::code::Front::quoted_of, crate::specs::code::Front::quoted_end_of))]
fn quoted(rest: &[u8]) -> Front
    requires { length rest.now + 1 < 2 ^ 64 }
    ensures { result ≡ quoted_of rest.now }
{
    let n = quoted_bytes(rest);
    match &rest[n..] {
        [] => Err((LexErrorKind::UnclosedSymbol, 0)),
        [b'|', ..] => Ok((TokenKind::Symbol, 2 + n)),
        _ => Err((LexErrorKind::BadByte, 1 + n)),
    }
}

/// By the first byte.
#[inline(always)]
#[tactic(auto, unfolding(crate::specs::code::Front::front_of))]
fn front_parts(bytes: &[u8]) -> Front
    requires { 0 < length bytes.now }
    ensures { result ≡ front_of bytes.now }
{
    let first = bytes[0];
    let rest = &bytes[1..];
    if first == b'(' {
        Ok((TokenKind::Left, 1))
    } else if first == b')' {
        Ok((TokenKind::Right, 1))
    } else if first.is_ascii_digit() {
        number(first, rest)
    } else if first == b'#' {
        based(rest)
    } else if first == b'"' {
        text_front(rest)
    } else if first == b'|' {
        quoted(rest)
    } else if first == b':' {
        marked(TokenKind::Keyword, 1, symbol_bytes(rest))
    } else if is_symbol_byte(first) {
        Ok((TokenKind::Symbol, 1 + symbol_bytes(rest)))
    } else {
        Err((LexErrorKind::BadByte, 0))
    }
}

/// What stands at the front of bytes that are not empty.
#[inline(always)]
pub fn front(bytes: &[u8]) -> Front
    requires { 0 < length bytes.now }
    ensures token { IfOk result (λ x. LongestToken bytes.now x.0 x.1) }
    ensures not_empty { IfOk result (λ x. 0 < x.1) }
    ensures refusal { IfErr result (λ x. Refuses bytes.now x.0 x.1) }
    ensures refusal_within { IfErr result (λ x. x.1 < length bytes.now) }
{
    front_parts(bytes)
}
