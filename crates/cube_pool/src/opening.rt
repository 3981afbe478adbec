//! How a pool is made.
ghost use Rattle.std.specs.Prelude.{◌≡◌, ◌<◌, ◌≤◌, ◌+◌, ◌-◌, ℕ, length, map, vec_len, IfOk, OnOk, Some, slice_get};
ghost use Rattle.crossbeam_deque.specs.Handles.{stealer_deque};
ghost use Rattle.cube_pool.specs.Lanes.{whole};
ghost use Rattle.cube_pool.specs.Hands.{AreNewcomers, newcomer};
ghost use Rattle.cube_pool.specs.code.Closings.{AllFirstOut, AreOpenWith, AreFreshRows, IsFreshRow, deques};

use crate::hand::Hand;
use crate::lane::{self, Lane, Mouth};
use crate::pool::Pool;
use crate::slip::Slip;
use crossbeam_deque::Pass;
use std::alloc::{AllocError, Global};

/// One pass of each deque.
pub(crate) type Row = Vec<Pass<u32, Slip>>;

pub(crate) fn open_all(alloc: Global, workers: u32) -> Result<(Pool, Vec<Hand>), AllocError>
    ensures { IfOk result (λ r. AreNewcomers workers r.0 r.1.items) }
{
    let mut lanes = open_lanes(alloc, workers)?;
    let mouths = mouths_of(alloc, lanes.as_slice())?;
    let rows = open_rows(alloc, workers, &mut lanes)?;
    let hands = seat(alloc, lanes, rows)?;
    Ok((Pool { mouths }, hands))
}

fn open_lanes(alloc: Global, count: u32) -> Result<Vec<Lane>, AllocError>
    ensures { IfOk result (λ lanes. (vec_len lanes ≡ count) × AreOpenWith whole lanes.items) }
{
    let mut lanes = Vec::with_capacity(alloc, count as usize)?;
    for _i in 0..count {
        lanes.push(lane::open(alloc)?)?;
    }
    Ok(lanes)
}

fn mouths_of(alloc: Global, lanes: &[Lane]) -> Result<Vec<Mouth>, AllocError>
    requires { AreOpenWith whole lanes.now }
    ensures mouths { IfOk result (λ mouths. (map stealer_deque mouths.items ≡ deques lanes.now)
        × AllFirstOut mouths.items) }
    ensures count { IfOk result (λ mouths. vec_len mouths ≡ length lanes.now) }
{
    let mut mouths = Vec::with_capacity(alloc, lanes.len())?;
    for lane in lanes {
        mouths.push(lane.stealer()?)?;
    }
    Ok(mouths)
}

// Where so many rows were made, one row more.
fn open_row(alloc: Global, made: u32, lanes: &mut Vec<Lane>) -> Result<Row, AllocError>
    requires few { made + 1 < whole }
    requires lanes { AreOpenWith (whole - made) lanes.old.items }
    ensures count { vec_len lanes.new ≡ vec_len lanes.old }
    ensures deques { deques lanes.new.items ≡ deques lanes.old.items }
    ensures lanes { OnOk result (AreOpenWith (whole - (made + 1)) lanes.new.items) }
    ensures row { IfOk result (λ row. IsFreshRow (deques lanes.old.items) row.items) }
{
    let mut row = Vec::with_capacity(alloc, lanes.len())?;
    for place in 0..lanes.len() {
        let pass = lane::split(&mut lanes[place]);
        row.push(pass)?;
    }
    Ok(row)
}

fn open_rows(alloc: Global, count: u32, lanes: &mut Vec<Lane>) -> Result<Vec<Row>, AllocError>
    requires lanes { AreOpenWith whole lanes.old.items }
    ensures count { vec_len lanes.new ≡ vec_len lanes.old }
    ensures deques { deques lanes.new.items ≡ deques lanes.old.items }
    ensures lanes { OnOk result (AreOpenWith (whole - count) lanes.new.items) }
    ensures rows { IfOk result (λ rows. (vec_len rows ≡ count) × AreFreshRows (deques lanes.old.items) rows.items) }
{
    let mut rows = Vec::with_capacity(alloc, count as usize)?;
    for made in 0..count {
        rows.push(open_row(alloc, made, lanes)?)?;
    }
    Ok(rows)
}

// Each deque's end and a row of passes is a hand.
fn seat(alloc: Global, lanes: Vec<Lane>, rows: Vec<Row>) -> Result<Vec<Hand>, AllocError>
    requires few { vec_len lanes < whole }
    requires lanes { AreOpenWith (whole - vec_len lanes) lanes.items }
    requires count { vec_len rows ≡ vec_len lanes }
    requires rows { AreFreshRows (deques lanes.items) rows.items }
    ensures count { IfOk result (λ hands. vec_len hands ≡ vec_len lanes) }
    ensures hands { IfOk result (λ hands. (k : ℕ) → k < vec_len hands
        → slice_get hands.items k ≡ Some (newcomer (deques lanes.items) k)) }
{
    let mut hands = Vec::with_capacity(alloc, lanes.len())?;
    let mut lanes = lanes;
    let mut rows = rows;
    lanes.reverse();
    'lanes: while let Some(lane) = lanes.pop() {
        let Some(passes) = rows.pop() else {
            unreachable!()
        };
        hands.push(Hand {
            number: hands.len() as u32,
            pushes: 0,
            lane,
            passes,
        })?;
    }
    Ok(hands)
}
