ghost use Rattle.std.specs.Prelude.{◌≡◌, ◌<◌, ◌++◌, length, take, drop};
ghost use Rattle.neg_cycle.specs.Rotated.{RotationLaw};

use stn_core::Literals;

/// The literals read from number `k` on, counted from 0, and then those before it; so a negative cycle stays one
/// (`rotation_law`). It takes no memory.
pub fn rotate_to(cycle: Literals, k: usize) -> Literals
    requires { k < length cycle }
    ensures { result ≡ drop k cycle ++ take k cycle }
{
    let mut literals = cycle.into_vec();
    literals.rotate_left(k);
    Literals::new(literals)
}

/// A negative cycle is one from each of its literals on.
pub fn rotation_law()
    ensures { RotationLaw }
{}
