//! The numbers of a certificate.
ghost use Rattle.std.specs.Prelude.{◌≡◌, ◌≤◌, ◌<◌, ◌^◌, IfSome, IsTrue};
ghost use Rattle.std.specs.Char.{is_ascii_digit};
ghost use Rattle.std.specs.List.{list_all};
ghost use Rattle.smt_lex.specs.Numbers.{value_of};
ghost use Rattle.smt_sexpr.specs.Tree.{Sexpr};
ghost use Rattle.smt_sexpr.specs.Table.{Means, HasMeaning};
ghost use Rattle.cert_read.specs.Parts.{limited, numeral_within, index_of, point_of};
ghost use Rattle.cert_read.specs.Parts.{number_within, number_of, whole_of};
ghost use Rattle.cert_read.specs.code.Shapes.{is_numeral, IsBetween};

use cert_text::NUMBER_LIMIT;
use smt_sexpr::{SexprId, Sexprs};
use stn_core::{NAMED_VALUE_LIMIT, Value};

/// Whether the s-expression is the numeral with these digits.
pub(crate) fn is_numeral(table: &Sexprs, id: SexprId, digits: &[u8]) -> bool
    requires { HasMeaning table.now id }
    ensures { (x : Sexpr) → Means table.now id x → result ≡ is_numeral digits.now x }
{
    match table.numeral(id) {
        Some(text) => text == digits,
        None => false,
    }
}

/// The number that the digits stand for, where it is at most so much. Leading zeros may stand.
fn limited_value(digits: &[u8], most: u128) -> Option<u128>
    requires digits { IsTrue (list_all is_ascii_digit digits.now) }
    requires most { most < 2 ^ 100 }
    ensures { result ≡ limited most (value_of digits.now) }
{
    let mut value = 0u128;
    for digit in digits {
        value = 10 * value + u128::from(*digit - b'0');
        if value > most {
            return None;
        }
    }
    Some(value)
}

/// The value of a numeral that is at most so much.
fn magnitude(table: &Sexprs, id: SexprId, most: u128) -> Option<u128>
    requires meaning { HasMeaning table.now id }
    requires most { most < 2 ^ 100 }
    ensures value { (x : Sexpr) → Means table.now id x → result ≡ numeral_within most x }
    ensures within { IfSome result (λ n. n ≤ most) }
{
    smt_lex::numeral_digits();
    limited_value(table.numeral(id)?, most)
}

/// An index.
pub(crate) fn index(table: &Sexprs, id: SexprId) -> Option<usize>
    requires { HasMeaning table.now id }
    ensures { (x : Sexpr) → Means table.now id x → result ≡ index_of x }
{
    let value = magnitude(table, id, u128::from(NUMBER_LIMIT))?;
    Some(value as usize)
}

/// A time point; the greatest one stands for all beyond it, which no problem has.
pub(crate) fn point(table: &Sexprs, id: SexprId) -> Option<u32>
    requires { HasMeaning table.now id }
    ensures { (x : Sexpr) → Means table.now id x → result ≡ point_of x }
{
    let value = index(table, id)?;
    Some(value.min(4294967295) as u32)
}

/// A numeral, or `(- n)` with n at least 1, where n is at most so much.
fn number_within(table: &Sexprs, id: SexprId, most: u128) -> Option<Value>
    requires meaning { HasMeaning table.now id }
    requires most { most < 2 ^ 100 }
    ensures value { (x : Sexpr) → Means table.now id x → result ≡ number_within most x }
    ensures within { IfSome result (IsBetween most) }
{
    if let Some(value) = magnitude(table, id, most) {
        return Some(value as Value);
    }
    match table.items(id) {
        Some([head, digits]) if table.is_symbol(*head, b"-") => {
            let value = magnitude(table, *digits, most)?;
            if value == 0 {
                None
            } else {
                Some(-(value as Value))
            }
        }
        _ => None,
    }
}

/// The bound of a literal.
pub(crate) fn number(table: &Sexprs, id: SexprId) -> Option<i64>
    requires { HasMeaning table.now id }
    ensures { (x : Sexpr) → Means table.now id x → result ≡ number_of x }
{
    let value = number_within(table, id, u128::from(NUMBER_LIMIT))?;
    Some(value as i64)
}

/// The value of a name of sort Int, of a term, and of a time point.
pub(crate) fn whole(table: &Sexprs, id: SexprId) -> Option<Value>
    requires { HasMeaning table.now id }
    ensures { (x : Sexpr) → Means table.now id x → result ≡ whole_of x }
{
    number_within(table, id, NAMED_VALUE_LIMIT)
}
