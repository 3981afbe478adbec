ghost use Rattle.std.specs.Prelude.{length, All, Contains, IfOk, IfSome};
ghost use Rattle.stn_core.specs.Answer.{IsCycleAmong};

use crate::literal::{Literal, Literals};
use crate::negative::is_cycle;
use crate::tables::{read, write};
use std::alloc::{AllocError, Global};

/// Goes from a point to the one that its literal leads to, and on, until it comes back.
fn walk_from(
    alloc: Global,
    literals: &[Literal],
    by: &[usize],
    start: u32,
) -> Result<Vec<Literal>, AllocError>
    ensures { IfOk result (λ walk. All (Contains literals.now) walk.items) }
{
    let mut walk = Vec::new(alloc);
    let mut point = start;
    'steps: for _turn in 0..by.len() {
        let number = read(by, point as usize);
        if number == 0 || number > literals.len() {
            return Ok(walk);
        }
        let literal = literals[number - 1];
        walk.push(literal)?;
        point = literal.y;
        if point == start {
            return Ok(walk);
        }
    }
    Ok(walk)
}

/// The negative cycle through a point, if the literals go around.
pub fn cycle_at(
    alloc: Global,
    literals: &[Literal],
    by: &[usize],
    start: u32,
) -> Result<Option<Literals>, AllocError>
    ensures { IfOk result (λ found. IfSome found (IsCycleAmong literals.now)) }
{
    let walk = walk_from(alloc, literals, by, start)?;
    if is_cycle(&walk) {
        return Ok(Some(Literals::new(walk)));
    }
    Ok(None)
}

/// A point to which the literals lead back, if there is one. The stamps are 0 at first.
pub fn loop_in(
    literals: &[Literal],
    by: &[usize],
    stamps: &mut [usize],
    points: u32,
) -> Option<u32> {
    let mut stamp = 0usize;
    'points: for root in 0..points {
        let mut point = root;
        stamp = stamp.saturating_add(1);
        'steps: for _turn in 0..by.len().saturating_add(1) {
            let here = point as usize;
            let seen = read(stamps, here);
            if seen == stamp {
                return Some(point);
            }
            let number = read(by, here);
            if seen == 0 && number != 0 && number <= literals.len() {
                write(stamps, here, stamp);
                point = literals[number - 1].y;
            } else {
                break 'steps;
            }
        }
    }
    None
}
