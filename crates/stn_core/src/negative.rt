ghost use Rattle.std.specs.Prelude.{◌↔◌, IsTrue};
ghost use Rattle.stn_core.specs.Cycle.{IsNegativeCycle};

use crate::literal::Literal;

/// Whether the literals are a negative cycle: not empty, each y the next one's x, the last y the first x, and the sum of
/// the bounds below 0. Points and bounds may be any, and so may the length: the sum is taken in 128 bits.
pub fn is_cycle(literals: &[Literal]) -> bool
    ensures { IsTrue result ↔ IsNegativeCycle literals.now }
{
    if literals.is_empty() {
        return false;
    }
    let start = literals[0].x;
    let mut point = start;
    let mut sum = 0i128;
    'steps: for literal in literals {
        if literal.x != point {
            return false;
        }
        sum += i128::from(literal.c);
        point = literal.y;
    }
    point == start && sum < 0
}
