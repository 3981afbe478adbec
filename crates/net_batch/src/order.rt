//! In which order literals go into a net. Any order is right.

use std::alloc::{AllocError, Global};
use stn_core::{Literal, Value};

// Whether the values keep the literal, and none of its two points could move alone.
fn is_tight(literal: Literal, values: &[Value]) -> bool {
    let Some(x) = values.get(literal.x as usize) else {
        return false;
    };
    let Some(y) = values.get(literal.y as usize) else {
        return false;
    };
    x.saturating_sub(*y) == Value::from(literal.c)
}

// The tight literals, found by their second points: those of a point are a list.
#[derive(Drop)]
struct Tight {
    /// for each point the place of its last literal
    last: Vec<Option<usize>>,
    /// for each literal the place of the one before it with the same second point
    before: Vec<Option<usize>>,
}

impl Tight {
    fn of(alloc: Global, values: &[Value], literals: &[Literal]) -> Result<Self, AllocError> {
        let mut last = vec![in alloc; None; values.len()]?;
        let mut before = vec![in alloc; None; literals.len()]?;
        for k in 0..literals.len() {
            if is_tight(literals[k], values) {
                if let Some(head) = last.get_mut(literals[k].y as usize) {
                    before[k] = *head;
                    *head = Some(k);
                }
            }
        }
        Ok(Tight { last, before })
    }

    fn last(&self, point: u32) -> Option<usize> {
        self.last.get(point as usize).copied().flatten()
    }

    fn before(&self, place: usize) -> Option<usize> {
        self.before.get(place).copied().flatten()
    }
}

// A walk from point to point, along tight literals from a literal's second point to its first.
#[derive(Drop)]
struct Walk {
    reached: Vec<bool>,
    /// the points that were reached, in this order
    points: Vec<u32>,
    /// by which literals
    places: Vec<usize>,
}

impl Walk {
    // It begins at all points with the value 0, which need no literal.
    fn start(alloc: Global, values: &[Value]) -> Result<Self, AllocError> {
        let mut reached = vec![in alloc; false; values.len()]?;
        let mut points = Vec::new(alloc);
        let mut point = 0u32;
        for k in 0..values.len() {
            if values[k] == 0 {
                reached[k] = true;
                points.push(point)?;
            }
            point = point.saturating_add(1);
        }
        Ok(Walk {
            reached,
            points,
            places: Vec::new(alloc),
        })
    }

    // The literal's first point is reached by it, if it wasn't before.
    fn reach(&mut self, place: usize, point: u32) -> Result<(), AllocError> {
        if let Some(reached) = self.reached.get_mut(point as usize) {
            if !*reached {
                *reached = true;
                self.points.push(point)?;
                self.places.push(place)?;
            }
        }
        Ok(())
    }

    // From one point to all that tight literals lead to.
    fn leave(&mut self, tight: &Tight, literals: &[Literal], point: u32) -> Result<(), AllocError> {
        let mut next = tight.last(point);
        for _literal in 0..literals.len() {
            let Some(place) = next else {
                return Ok(());
            };
            let Some(literal) = literals.get(place) else {
                return Ok(());
            };
            self.reach(place, literal.x)?;
            next = tight.before(place);
        }
        Ok(())
    }
}

/// The places of the literals that give the points their values, one for each point whose value isn't 0, each behind the
/// one that gives its second point its value. The values are the greatest on which the literals hold.
pub fn first_places(
    alloc: Global,
    values: &[Value],
    literals: &[Literal],
) -> Result<Vec<usize>, AllocError> {
    let tight = Tight::of(alloc, values, literals)?;
    let mut walk = Walk::start(alloc, values)?;
    for k in 0..values.len() {
        let Some(point) = walk.points.get(k).copied() else {
            return Ok(walk.places);
        };
        walk.leave(&tight, literals, point)?;
    }
    Ok(walk.places)
}
