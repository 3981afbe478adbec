//! Numbers within a limit.
ghost use Rattle.std.specs.Prelude.{◌≡◌, ◌<◌, ◌^◌, if◌then◌else◌, Some, None};
ghost use Rattle.idl_linear.specs.Linear.{is_within};

/// The number, where its absolute value is at most the limit.
pub(crate) fn within(limit: u64, number: i128) -> Option<i64>
    requires { limit < 2 ^ 63 }
    ensures { result ≡ (if is_within limit number then Some number else None) }
{
    let greatest = i128::from(limit);
    if number < -greatest || number > greatest {
        return None;
    }
    Some(number as i64)
}
