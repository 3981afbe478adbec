//! Numbers in decimal.
ghost use Rattle.std.specs.Prelude.{◌≡◌, ◌<◌, ◌≤◌, ◌+◌, ◌∷◌, ◌++◌, take, drop, length, OnOk};
ghost use Rattle.std.specs.Vec.{vec_len};
ghost use Rattle.smt_sexpr.specs.Printing.{text_of};
ghost use Rattle.cert_text.specs.Form.{numeral_text, number_of_value};
ghost use Rattle.cert_text.specs.Limits.{limit};
ghost use Rattle.cert_text.specs.declared.number.TheConstants.{NUMBER_LIMIT};

use bstr::ByteVec;
use itoa::{Buffer, write_digits};
use std::alloc::AllocError;
use stn_core::Value;

/// No bound, index or point of a certificate is greater, and no bound is below its negative. The values of names have a
/// limit of their own, `stn_core::NAMED_VALUE_LIMIT`.
pub const NUMBER_LIMIT: u64 = 1 << 61;

/// The limit that the definitions state is that of the code.
pub fn limits_law()
    ensures { limit ≡ NUMBER_LIMIT }
{}

/// Appends a numeral.
pub(crate) fn write_numeral(n: u128, out: &mut Vec<u8>) -> Result<(), AllocError>
    ensures ok { OnOk result (out.new.items ≡ out.old.items ++ numeral_text n) }
    ensures front { take (vec_len out.old) out.new.items ≡ out.old.items }
{
    if n < 10 {
        out.push(b'0' + n as u8)?;
        return Ok(());
    }
    let mut buffer = Buffer::new();
    out.push_str(buffer.format(n).as_bytes())
}

/// Appends a number: a numeral, or `(- n)` below 0.
pub(crate) fn write_number(n: Value, out: &mut Vec<u8>) -> Result<(), AllocError>
    ensures ok { OnOk result (out.new.items ≡ out.old.items ++ text_of (number_of_value n)) }
    ensures front { take (vec_len out.old) out.new.items ≡ out.old.items }
{
    if n >= 0 {
        return write_numeral(n.unsigned_abs(), out);
    }
    out.push_str(b"(- ")?;
    write_numeral(n.unsigned_abs(), out)?;
    out.push_str(b")")
}

/// Appends a space and a number of one digit at once, others by a call.
#[inline(always)]
pub(crate) fn write_number_next(n: Value, out: &mut Vec<u8>) -> Result<(), AllocError>
    ensures ok { OnOk result (out.new.items ≡ out.old.items ++ 32 ∷ text_of (number_of_value n)) }
    ensures front { take (vec_len out.old) out.new.items ≡ out.old.items }
{
    let size = n.unsigned_abs();
    if n >= 0 && size < 10 {
        let text = [b' ', b'0' + size as u8];
        return out.push_str(text.as_slice());
    }
    write_any_next(n, out)
}

// Appends a space and any number. It isn't taken in whole, so that its callers' way for one digit stays short.
#[inline(never)]
fn write_any_next(n: Value, out: &mut Vec<u8>) -> Result<(), AllocError>
    ensures ok { OnOk result (out.new.items ≡ out.old.items ++ 32 ∷ text_of (number_of_value n)) }
    ensures front { take (vec_len out.old) out.new.items ≡ out.old.items }
{
    if let Ok(small) = i64::try_from(n) {
        let mut text = [0u8; 25];
        let at = number_before(small, &mut text, 25);
        let at = byte_before(b' ', &mut text, at);
        return out.push_str(&text[at..]);
    }
    out.push_str(b" ")?;
    write_number(n, out)
}

/// Puts a byte into the text before what stands from a place on. Where it begins.
#[inline(always)]
pub(crate) fn byte_before(byte: u8, text: &mut [u8], end: usize) -> usize
    requires { (0 < end) × (end ≤ length text.old) }
    ensures start { result + 1 ≡ end }
    ensures written { drop result text.new ≡ byte ∷ drop end text.old }
{
    text[end - 1] = byte;
    end - 1
}

/// Puts a numeral before it, of twenty digits at most; one or two of them without a call.
#[inline(always)]
pub(crate) fn numeral_before(n: u64, text: &mut [u8], end: usize) -> usize
    requires { (20 ≤ end) × (end ≤ length text.old) }
    ensures start { (result ≤ end) × (end ≤ result + 20) }
    ensures written { drop result text.new ≡ numeral_text n ++ drop end text.old }
{
    if n < 10 {
        return byte_before(b'0' + n as u8, text, end);
    }
    if n < 100 {
        let at = byte_before(b'0' + (n % 10) as u8, text, end);
        return byte_before(b'0' + (n / 10) as u8, text, at);
    }
    write_digits(n, text, end)
}

/// Puts a word before it.
#[inline(always)]
pub(crate) fn word_before(word: &[u8], text: &mut [u8], end: usize) -> usize
    requires { (length word.now ≤ end) × (end ≤ length text.old) }
    ensures start { result + length word.now ≡ end }
    ensures written { drop result text.new ≡ word.now ++ drop end text.old }
{
    let at = end - word.len();
    text[at..end].copy_from_slice(word);
    at
}

/// Puts a number before it, of 24 bytes at most.
#[inline(always)]
pub(crate) fn number_before(n: i64, text: &mut [u8], end: usize) -> usize
    requires { (24 ≤ end) × (end ≤ length text.old) }
    ensures start { (result ≤ end) × (end ≤ result + 24) }
    ensures written { drop result text.new ≡ text_of (number_of_value n) ++ drop end text.old }
{
    if n >= 0 {
        return numeral_before(n.unsigned_abs(), text, end);
    }
    let at = byte_before(b')', text, end);
    let at = numeral_before(n.unsigned_abs(), text, at);
    let at = byte_before(b' ', text, at);
    let at = byte_before(b'-', text, at);
    byte_before(b'(', text, at)
}
