//! How a pool is closed: the hands' parts come together again, and then each deque's end knows all of it.
ghost use Rattle.std.specs.Prelude.{◌≡◌, ◌<◌, ◌≤◌, ◌+◌, ◌-◌, ℕ, length, vec_len, IfOk, OnOk, [], map};
ghost use Rattle.cube_pool.specs.Lanes.{whole, weigh};
ghost use Rattle.cube_pool.specs.Hands.{AreInOrder, deque_of, AreTakers};
ghost use Rattle.cube_pool.specs.code.Closings.{AreEnds, AreJoined, AreJoint, AreParted, AreRows, AreWhole, HaveOneHistory, put_by, taken_there, taken_in, taken_over};

use crate::hand::Hand;
use crate::lane::{self, Lane};
use crate::opening::Row;
use crate::pool::Pool;
use std::alloc::{AllocError, Global};

// Each hand's end of its deque, the last hand's first, and its passes.
pub(crate) fn part(
    pool: &Pool,
    hands: Vec<Hand>,
    lanes: &mut Vec<Lane>,
    rows: &mut Vec<Row>,
) -> Result<(), AllocError>
    requires hands { AreInOrder pool.now hands.items }
    requires lanes { lanes.old.items ≡ [] }
    requires rows { rows.old.items ≡ [] }
    ensures { OnOk result (AreParted pool.now hands.items lanes.new.items rows.new.items) }
{
    let mut hands = hands;
    'hands: while let Some(hand) = hands.pop() {
        let Hand {
            number: _,
            pushes: _,
            lane,
            passes,
        } = hand;
        lanes.push(lane)?;
        rows.push(passes)?;
    }
    Ok(())
}

// A hand's passes are taken in by the deques' ends, where so many hands are left.
fn join_row(lanes: &mut Vec<Lane>, row: Row, left: usize)
    requires left { (0 < left) × (left < whole) }
    requires lanes { AreEnds (map deque_of row.items) (whole - left) lanes.old.items }
    requires takers { AreTakers row.items }
    ensures lanes { AreEnds (map deque_of row.items) (whole - left + 1) lanes.new.items }
    ensures put { (h : ℕ → ℕ) → put_by h lanes.new.items ≡ put_by h lanes.old.items }
    ensures taken { (h : ℕ → ℕ)
        → taken_there h lanes.new.items ≡ taken_there h lanes.old.items + taken_in h row.items }
    ensures joint { AreJoint lanes.old.items row.items lanes.new.items }
{
    let mut row = row;
    'row: while let Some(pass) = row.pop() {
        let place = lanes.len() - 1 - row.len();
        lane::join(&mut lanes[place], pass);
    }
}

// All hands' passes are taken in by the deques' ends.
pub(crate) fn join_all(pool: &Pool, lanes: &mut Vec<Lane>, rows: Vec<Row>)
    requires few { length pool.now < whole }
    requires count { vec_len rows ≡ length pool.now }
    requires lanes { AreEnds pool.now (whole - length pool.now) lanes.old.items }
    requires rows { AreRows pool.now rows.items }
    ensures { AreJoined pool.now lanes.old.items rows.items lanes.new.items }
{
    let mut rows = rows;
    'rows: while let Some(row) = rows.pop() {
        join_row(lanes, row, rows.len() + 1);
    }
}

// What is left in the deques.
pub(crate) fn drain_all(alloc: Global, lanes: Vec<Lane>) -> Result<Vec<u32>, AllocError>
    requires { AreWhole lanes.items }
    ensures settled { IfOk result (λ left. (h : ℕ → ℕ)
        → put_by h lanes.items ≡ taken_there h lanes.items + weigh h left.items) }
    ensures histories { OnOk result (HaveOneHistory lanes.items) }
{
    let mut lanes = lanes;
    let mut left = Vec::new(alloc);
    'lanes: while let Some(lane) = lanes.pop() {
        let mut lane = lane;
        let rest = lane::drain(alloc, &mut lane)?;
        left.extend_from_slice(rest.as_slice())?;
    }
    Ok(left)
}
