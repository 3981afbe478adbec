//! Bounds that follow whichever literal of a clause holds. Each alternative brings about some literals; where
//! each of them has a path between the same two points, the longest of their shortest ones bounds the points'
//! difference.
use std::alloc::{AllocError, Global};
use stn_core::{BOUND_LIMIT, Literal, Value};

/// A distance that is not reached.
const FAR: Value = Value::MAX;

/// At most so many points may be in all alternatives, where bounds are looked for.
const MOST_POINTS: usize = 4;

/// The literals that each alternative of a clause brings about, and what is common to them.
pub struct Common {
    /// the alternatives' literals, one alternative after the other
    literals: Vec<Literal>,
    /// for each alternative where its literals end
    ends: Vec<usize>,
    /// for each time point in how many of the first alternatives it is, and how far it is
    met: Vec<usize>,
    distances: Vec<Value>,
    /// the points of the first alternative, and then those that are in all
    points: Vec<u32>,
}

impl Drop for Common {
    fn drop(self) {
        let Common {
            literals,
            ends,
            met,
            distances,
            points,
        } = self;
        drop(literals);
        drop(ends);
        drop(met);
        drop(distances);
        drop(points);
    }
}

/// The literals of the alternative with the number.
fn part<'a>(literals: &'a [Literal], ends: &[usize], number: usize) -> &'a [Literal] {
    let start = match number.checked_sub(1) {
        Some(before) => ends.get(before).copied().unwrap_or(0),
        None => 0,
    };
    let end = ends.get(number).copied().unwrap_or(0);
    if start <= end && end <= literals.len() {
        &literals[start..end]
    } else {
        &[]
    }
}

fn at(distances: &[Value], point: u32) -> Value {
    match distances.get(point as usize) {
        Some(distance) => *distance,
        None => FAR,
    }
}

fn put(distances: &mut [Value], point: u32, distance: Value) {
    if let Some(slot) = distances.get_mut(point as usize) {
        *slot = distance;
    }
}

/// The distances of the literals' points from one of them.
fn measure(distances: &mut [Value], literals: &[Literal], start: u32) {
    for literal in literals {
        put(distances, literal.x, FAR);
        put(distances, literal.y, FAR);
    }
    put(distances, start, 0);
    for _round in 0..literals.len() {
        if !relax(distances, literals) {
            return;
        }
    }
}

/// Whether a distance fell.
fn relax(distances: &mut [Value], literals: &[Literal]) -> bool {
    let mut fell = false;
    for literal in literals {
        let before = at(distances, literal.y);
        let distance = before.saturating_add(Value::from(literal.c));
        if before < FAR && distance < at(distances, literal.x) {
            put(distances, literal.x, distance);
            fell = true;
        }
    }
    fell
}

impl Common {
    /// Of no clause, over so many time points.
    pub fn new(alloc: Global, points: u32) -> Result<Self, AllocError> {
        Ok(Common {
            literals: Vec::new(alloc),
            ends: Vec::new(alloc),
            met: vec![in alloc; 0; points as usize]?,
            distances: vec![in alloc; FAR; points as usize]?,
            points: Vec::new(alloc),
        })
    }

    /// The next clause begins.
    pub fn start(&mut self) {
        self.literals.truncate(0);
        self.ends.truncate(0);
    }

    /// The alternative that is being made brings this literal about.
    pub fn push(&mut self, literal: Literal) -> Result<(), AllocError> {
        self.literals.push(literal)?;
        Ok(())
    }

    /// The alternative is made. It answers how many literals it brings about.
    pub fn end_alternative(&mut self) -> Result<usize, AllocError> {
        let number = self.ends.len();
        self.ends.push(self.literals.len())?;
        Ok(part(&self.literals, &self.ends, number).len())
    }

    /// Counts the alternative at its points, those that all alternatives before it have.
    fn meet(&mut self, number: usize) -> Result<(), AllocError> {
        for literal in part(&self.literals, &self.ends, number) {
            for point in [literal.x, literal.y] {
                if let Some(met) = self.met.get_mut(point as usize) {
                    if *met == number {
                        *met = number.wrapping_add(1);
                        if number == 0 {
                            self.points.push(point)?;
                        }
                    }
                }
            }
        }
        Ok(())
    }

    /// Finds the points that are in all alternatives.
    fn find_points(&mut self) -> Result<(), AllocError> {
        self.points.truncate(0);
        let count = self.ends.len();
        for number in 0..count {
            self.meet(number)?;
        }
        let met = &self.met;
        self.points
            .retain(|point| met.get(*point as usize).copied() == Some(count));
        for literal in part(&self.literals, &self.ends, 0) {
            for point in [literal.x, literal.y] {
                if let Some(met) = self.met.get_mut(point as usize) {
                    *met = 0;
                }
            }
        }
        Ok(())
    }

    /// The bounds on a difference with this second point, at most three.
    fn bounds_from(&mut self, y: u32, found: &mut Vec<Literal>) -> Result<(), AllocError> {
        let mut greatest = [Value::MIN; MOST_POINTS];
        for number in 0..self.ends.len() {
            let literals = part(&self.literals, &self.ends, number);
            measure(&mut self.distances, literals, y);
            for (slot, x) in greatest.iter_mut().zip(self.points.iter()) {
                *slot = (*slot).max(at(&self.distances, *x));
            }
        }
        let limit = Value::from(BOUND_LIMIT);
        for (bound, x) in greatest.iter().zip(self.points.iter()) {
            if *x != y && -limit <= *bound && *bound <= limit {
                found.push(Literal {
                    x: *x,
                    y,
                    c: *bound as i64,
                })?;
            }
        }
        Ok(())
    }

    /// The bounds that follow from the clause, at most 12.
    pub fn bounds(&mut self, found: &mut Vec<Literal>) -> Result<(), AllocError> {
        self.find_points()?;
        if self.points.len() > MOST_POINTS {
            return Ok(());
        }
        for k in 0..self.points.len() {
            if let Some(y) = self.points.get(k).copied() {
                self.bounds_from(y, found)?;
            }
        }
        Ok(())
    }
}
