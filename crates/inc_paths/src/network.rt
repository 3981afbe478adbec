ghost use Rattle.std.specs.Prelude.{◌≡◌, ◌≤◌, [], length, take, IfOk};
ghost use Rattle.stn_core.specs.Limits.{points_limit};
ghost use Rattle.stn_core.specs.RoundsNet.{Shown};
ghost use Rattle.inc_paths.specs.code.Networks.{end_at, values_at};

use crate::arcs::Arcs;
use crate::extend::extend;
use crate::labels::Labels;
use std::alloc::{AllocError, Global};
use std::marker::Model;
use stn_core::{Added, Literal, Mark, Net, Value};

/// A net that keeps its schedule from literal to literal.
///
/// A literal that holds on the schedule takes a fixed time. Another lowers the points whose greatest values it changes,
/// first the one that falls furthest, and looks only at the literals that begin at these points, so that each is mostly
/// looked at once; a negative cycle is found on the way, and what was lowered is restored. Taking back takes time in
/// proportion to the lowerings and literals that are taken back. The memory is in proportion to the points, the literals
/// and the lowerings that they made.
///
/// Source: Ramalingam and Reps 1996; Cotton and Maler 2006.
pub struct Network {
    points: u32,
    arcs: Arcs,
    labels: Labels,
    /// for each literal the length of the trail before it
    ends: Vec<usize>,
    adds: u64,
}

impl Drop for Network {
    fn drop(self) {
        let Network {
            points: _,
            arcs,
            labels,
            ends,
            adds: _,
        } = self;
        drop(arcs);
        drop(labels);
        drop(ends);
    }
}

impl Model for Network {
    ghost use Rattle.stn_core.specs.RoundsNet.{Shown};
    ghost use Rattle.inc_paths.specs.code.Networks.{KeepsTrail};

    ghost Value = { Shown };

    ghost view = { λ n. record { points = n.points; literals = n.arcs.literals; adds = n.adds } };

    ghost invariant = { λ n. KeepsTrail n.points n.arcs.points n.arcs.literals n.labels.values
        n.labels.trail n.ends.items };
}

impl Network {
    /// A net of 1 to `POINTS_LIMIT` points, without literals.
    pub fn new(alloc: Global, points: u32) -> Result<Self, AllocError>
        requires some { 1 ≤ points }
        requires few { points ≤ points_limit }
        ensures { IfOk result (λ net. net ≡ record { points = points; literals = []; adds = 0 }) }
    {
        Ok(Network {
            points,
            arcs: Arcs::new(alloc, points)?,
            labels: Labels::new(alloc, points)?,
            ends: Vec::new(alloc),
            adds: 0,
        })
    }
}

/// Leaves the first literals and what they lowered.
fn cut(arcs: &mut Arcs, labels: &mut Labels, ends: &mut Vec<usize>, count: usize)
    ensures points { arcs.new.points ≡ arcs.old.points }
    ensures literals { arcs.new.literals ≡ take count arcs.old.literals }
    ensures values { labels.new.values ≡ values_at ends.old.items labels.old count }
    ensures trail { labels.new.trail ≡ take (end_at ends.old.items labels.old.trail count) labels.old.trail }
    ensures ends { ends.new.items ≡ take count ends.old.items }
{
    let end = match ends.get(count) {
        Some(end) => *end,
        None => labels.trail_len(),
    };
    labels.undo(end);
    ends.truncate(count);
    arcs.cut(count);
}

impl Net for Network {
    ghost points_of = { λ n. n.points };

    ghost literals_of = { λ n. n.literals };

    ghost adds_of = { λ n. n.adds };

    fn points(&self) -> u32 {
        self.points
    }

    fn mark(&self) -> Mark {
        Mark {
            length: self.ends.len(),
        }
    }

    fn add(&mut self, literal: Literal) -> Result<Added, AllocError> {
        let count = self.ends.len();
        self.ends.push(self.labels.trail_len())?;
        if let Err(error) = self.arcs.push(literal) {
            self.ends.truncate(count);
            return Err(error);
        }
        match extend(&self.arcs, &mut self.labels, literal) {
            Ok(None) => {
                self.adds = self.adds.saturating_add(1);
                Ok(Added::Yes)
            }
            Ok(Some(cycle)) => {
                cut(&mut self.arcs, &mut self.labels, &mut self.ends, count);
                self.adds = self.adds.saturating_add(1);
                Ok(Added::Cycle(cycle))
            }
            Err(error) => {
                cut(&mut self.arcs, &mut self.labels, &mut self.ends, count);
                Err(error)
            }
        }
    }

    fn retract(&mut self, mark: Mark) {
        cut(
            &mut self.arcs,
            &mut self.labels,
            &mut self.ends,
            mark.length,
        );
    }

    fn schedule(&self) -> &[Value] {
        self.labels.values()
    }

    fn adds(&self) -> u64 {
        self.adds
    }
}
