ghost use Rattle.std.specs.Prelude.{◌≡◌, ℕ, ◌≤◌, ◌<◌, ◌+◌, List, [], length, take, IfOk, map};
ghost use Rattle.stn_core.specs.Limits.{points_limit};
ghost use Rattle.stn_core.specs.RoundsNet.{Shown};

use crate::limits::Value;
use crate::literal::Literal;
use crate::net::{Added, Mark, Net};
use crate::plain::greatest_by_rounds;
use crate::schedule::{Greatest, Schedule};
use std::alloc::{AllocError, Global};
use std::marker::Model;

/// A net that works out its schedule anew for each literal, by plain rounds over all of them, and keeps one schedule for
/// each of its literals. So it takes memory in proportion to points times literals. It is plain, and not fast.
pub struct RoundsNet {
    points: u32,
    literals: Vec<Literal>,
    /// of no literal, of the first one, of the first two, and so on
    schedules: Vec<Schedule>,
    adds: u64,
}

impl Drop for RoundsNet {
    fn drop(self) {
        let RoundsNet {
            points: _,
            literals,
            schedules,
            adds: _,
        } = self;
        drop(literals);
        drop(schedules);
    }
}

impl Model for RoundsNet {
    ghost use Rattle.stn_core.specs.RoundsNet.{Shown, KeepsSchedules};

    ghost Value = { Shown };

    ghost view = { λ n. record { points = n.points; literals = n.literals.items; adds = n.adds } };

    ghost invariant = { λ n. KeepsSchedules n.points n.literals.items n.schedules.items };
}

impl RoundsNet {
    /// A net of 1 to `POINTS_LIMIT` points, without literals.
    pub fn new(alloc: Global, points: u32) -> Result<Self, AllocError>
        requires some { 1 ≤ points }
        requires few { points ≤ points_limit }
        ensures { IfOk result (λ net. net ≡ record { points = points; literals = []; adds = 0 }) }
    {
        let first = Schedule::new(vec![in alloc; 0; points as usize]?);
        let mut schedules = Vec::new(alloc);
        schedules.push(first)?;
        Ok(RoundsNet {
            points,
            literals: Vec::new(alloc),
            schedules,
            adds: 0,
        })
    }
}

impl Net for RoundsNet {
    ghost points_of = { λ n. n.points };

    ghost literals_of = { λ n. n.literals };

    ghost adds_of = { λ n. n.adds };

    fn points(&self) -> u32 {
        self.points
    }

    fn mark(&self) -> Mark {
        Mark {
            length: self.literals.len(),
        }
    }

    fn add(&mut self, literal: Literal) -> Result<Added, AllocError> {
        let alloc = *self.literals.allocator();
        self.literals.push(literal)?;
        match greatest_by_rounds(alloc, self.points, &self.literals) {
            Ok(Greatest::Greatest(schedule)) => match self.schedules.push(schedule) {
                Ok(()) => {
                    self.adds = self.adds.saturating_add(1);
                    Ok(Added::Yes)
                }
                Err(error) => {
                    self.literals.pop();
                    Err(AllocError::from(error))
                }
            },
            Ok(Greatest::Negative(cycle)) => {
                self.literals.pop();
                self.adds = self.adds.saturating_add(1);
                Ok(Added::Cycle(cycle))
            }
            Err(error) => {
                self.literals.pop();
                Err(error)
            }
        }
    }

    fn retract(&mut self, mark: Mark) {
        self.literals.truncate(mark.length);
        self.schedules.truncate(mark.length + 1);
    }

    fn schedule(&self) -> &[Value] {
        self.schedules[self.literals.len()].as_slice()
    }

    fn adds(&self) -> u64 {
        self.adds
    }
}
