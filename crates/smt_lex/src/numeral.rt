//! The number that a numeral stands for.
ghost use Rattle.std.specs.Prelude.{◌≡◌, ◌^◌, ◌<◌, ◌≤◌, IsTrue, IfSome, IsNone};
ghost use Rattle.std.specs.Char.{is_ascii_digit};
ghost use Rattle.std.specs.List.{list_all};
ghost use Rattle.smt_lex.specs.Laws.{NumeralIsDigits};
ghost use Rattle.smt_lex.specs.Numbers.{value_of};

/// The number that the digits stand for, or `None` where it is 2^64 or more. Leading zeros may
/// stand; no digits are 0.
pub fn numeral_value(digits: &[u8]) -> Option<u64>
    requires { IsTrue (list_all is_ascii_digit digits.now) }
    ensures some { IfSome result (λ n. (n ≡ value_of digits.now) × (value_of digits.now < 2 ^ 64)) }
    ensures none { IsNone result → 2 ^ 64 ≤ value_of digits.now }
{
    let mut value = 0u64;
    for digit in digits {
        value = value
            .checked_mul(10)?
            .checked_add(u64::from(*digit - b'0'))?;
    }
    Some(value)
}

/// A numeral's token is digits alone, so [`numeral_value`] may be asked for its value.
pub fn numeral_digits()
    ensures { NumeralIsDigits }
{}
