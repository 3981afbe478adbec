//! A problem as one of points that exclude one another.
use crate::gaps::{Gap, Gaps};
use std::alloc::{AllocError, Global};
use stn_core::{Clause, Literal, Problem};

/// More points aren't looked at: each is chosen by a look at all of them.
const MOST_POINTS: u32 = 2_500;

/// The unit clauses of a problem, and its pairs of points that exclude one another.
pub(crate) struct Shop {
    pub points: usize,
    /// The point with the most gaps behind it, as the time 0 has.
    pub origin: usize,
    /// By unit clauses.
    pub units: Gaps,
    /// Each pair both ways, where the point before stands before the other.
    pub pairs: Gaps,
}

impl Drop for Shop {
    fn drop(self) {
        let Shop {
            points: _,
            origin: _,
            units,
            pairs,
        } = self;
        drop(units);
        drop(pairs);
    }
}

impl Shop {
    /// How far the second point stands behind the first of a pair that is in this order; 0 where they are no pair.
    pub fn length_of(&self, first: usize, second: usize) -> i64 {
        let gaps = self.pairs.behind(first);
        let place = gaps.partition_point(|gap| (gap.to as usize) < second);
        match gaps.get(place) {
            Some(gap) if gap.to as usize == second => gap.length,
            _ => 0,
        }
    }

    /// Whether the points stand in chains, as the operations of a job do, and no unit clause holds two of them together.
    pub fn has_chains(&self) -> bool {
        let mut links = 0usize;
        for gap in self.units.as_slice() {
            let is_free = gap.from as usize == self.origin || gap.to as usize == self.origin;
            if !is_free {
                if gap.length <= 0 {
                    return false;
                }
                links = links.saturating_add(1);
            }
        }
        links >= self.points / 2
    }
}

/// The gap that the literal asks for.
fn gap_of(literal: Literal) -> Gap {
    Gap {
        from: literal.x,
        to: literal.y,
        length: 0i64.saturating_sub(literal.c),
    }
}

/// What a problem's clauses are.
#[derive(Drop)]
struct Sorted {
    units: Vec<Gap>,
    pairs: Vec<Gap>,
    /// how many clauses are neither
    others: usize,
}

impl Sorted {
    fn add(&mut self, clause: &[Literal]) -> Result<(), AllocError> {
        match clause {
            [unit] => self.units.push(gap_of(*unit))?,
            [one, other] if one.x == other.y && one.y == other.x && one.c < 0 && other.c < 0 => {
                self.pairs.push(gap_of(*one))?;
                self.pairs.push(gap_of(*other))?;
            }
            _ => self.others = self.others.saturating_add(1),
        }
        Ok(())
    }
}

fn sort_clauses(alloc: Global, clauses: &[Clause]) -> Result<Sorted, AllocError> {
    let mut sorted = Sorted {
        units: Vec::new(alloc),
        pairs: Vec::new(alloc),
        others: 0,
    };
    for clause in clauses {
        sorted.add(clause.as_slice())?;
    }
    Ok(sorted)
}

/// The point with the most gaps behind it.
fn origin_of(units: &Gaps, points: usize) -> usize {
    let mut origin = 0;
    let mut most = 0;
    for point in 0..points {
        let count = units.behind(point).len();
        if count > most {
            most = count;
            origin = point;
        }
    }
    origin
}

/// The problem as such a one, if most of its clauses of several literals are such pairs and it has few enough points.
pub(crate) fn shop_of(alloc: Global, problem: &Problem) -> Result<Option<Shop>, AllocError> {
    if problem.points > MOST_POINTS {
        return Ok(None);
    }
    let points = problem.points as usize;
    let Sorted {
        units,
        pairs,
        others,
    } = sort_clauses(alloc, problem.clauses.as_slice())?;
    if pairs.is_empty() || pairs.len() / 2 < others {
        return Ok(None);
    }
    let units = Gaps::new(alloc, units, points)?;
    let pairs = Gaps::new(alloc, pairs, points)?;
    let origin = origin_of(&units, points);
    Ok(Some(Shop {
        points,
        origin,
        units,
        pairs,
    }))
}
