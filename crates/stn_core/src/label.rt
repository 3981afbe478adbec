ghost use Rattle.std.specs.Prelude.{◌≡◌, ◌<◌, ◌≤◌, ◌*◌, length, map, All};
ghost use Rattle.stn_core.specs.Limits.{points_limit};
ghost use Rattle.stn_core.specs.Literal.{IsOver};
ghost use Rattle.stn_core.specs.code.Rounds.{begun, IsRound, NoneLowered, TellsLowered};

use crate::limits::Value;
use crate::literal::Literal;

/// What the rounds keep for a time point (its label, as in label-correcting algorithms for shortest paths).
#[derive(Clone, Copy)]
pub struct Label {
    /// its value now, and as the round began
    pub value: Value,
    pub last: Value,
    /// the round in which the value was lowered last, or 0, and the literal that lowered it
    pub round: u32,
    pub by: Literal,
}

/// A point that no round has lowered.
pub const INITIAL: Label = Label {
    value: 0,
    last: 0,
    round: 0,
    by: Literal { x: 0, y: 0, c: 0 },
};

/// Every value as it is now becomes the one that the next round begins with.
pub fn begin_round(labels: &mut [Label])
    ensures { labels.new ≡ map begun labels.old }
{
    for label in labels.iter_mut() {
        label.last = label.value;
    }
}

/// One round: each literal is applied to the values that the round began with. The answer is a point that it lowered,
/// if there is one. No value falls by more than one bound a round, so no sum leaves its range.
pub fn lower(labels: &mut [Label], literals: &[Literal], round: u32) -> Option<u32>
    requires points { length labels.old ≤ points_limit }
    requires first { 1 ≤ round }
    requires few { round ≤ length labels.old }
    requires over { All (IsOver (length labels.old)) literals.now }
    requires ready { IsRound (length labels.old) literals.now labels.old round 0 }
    requires none_lowered { NoneLowered (length labels.old) labels.old round }
    ensures after { IsRound (length labels.old) literals.now labels.new round (length literals.now) }
    ensures some { TellsLowered (length labels.old) labels.new round result }
{
    let mut lowered = None;
    for literal in literals {
        let bound = labels[literal.y as usize].last + Value::from(literal.c);
        let label = labels[literal.x as usize];
        if bound < label.value {
            labels[literal.x as usize] = Label {
                value: bound,
                last: label.last,
                round,
                by: *literal,
            };
            lowered = Some(literal.x);
        }
    }
    lowered
}
