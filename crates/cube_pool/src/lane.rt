//! One deque, its worker's end and the passes of the others.
ghost use Rattle.std.specs.Prelude.{◌≡◌, ◌<◌, ◌≤◌, ◌+◌, ◌-◌, ℕ, [], ◌∷◌, ◌++◌, List, IfOk, IfErr, OnOk, OnErr, MatchOption, IfSome};
ghost use Rattle.crossbeam_deque.specs.Handles.{view, IsPassOf, SamePass, SameWorker, worker_capacity, worker_deque, worker_flavor, worker_index, worker_port, worker_view, stealer_deque, stealer_flavor};
ghost use Rattle.cube_pool.specs.Lanes.{fresh, joint, lessened, slip, whole, HasOneHistory, HasPut, HasTaken, IsSettled};

use crate::slip::Slip;
use crossbeam_deque::protocol::{Join, Lesson, Outcome, Protocol, Split};
use crossbeam_deque::{Pass, Steal, Stealer, Worker};
use std::alloc::{AllocError, Global};
use std::sync::Wait;

/// The rule of a deque: what was put there was taken or is there, and the oldest was taken first.
pub struct Fair;

impl Protocol<u32, Slip> for Fair {
    ghost use Rattle.cube_pool.specs.Lanes.{Balanced, slip, whole};
    ghost use Rattle.std.specs.Prelude.{[]};

    ghost holds = { Balanced };

    ghost first = { slip whole [] [] [] [] };

    ghost guest = { slip 0 [] [] [] [] };
}

struct Puts;

impl Outcome<u32, Slip> for Puts {
    ghost use Rattle.cube_pool.specs.Lanes.{HasPut};

    ghost then = { HasPut };
}

struct Takes;

impl Outcome<u32, Slip> for Takes {
    ghost use Rattle.cube_pool.specs.Lanes.{HasTaken};

    ghost then = { HasTaken };
}

struct Ends;

impl Outcome<u32, Slip> for Ends {
    ghost use Rattle.std.specs.Prelude.{[]};
    ghost use Rattle.cube_pool.specs.Lanes.{HasTaken, IsSettled};

    ghost then = { HasTaken };

    ghost empty = { λ v. IsSettled v.put v.taken [] };
}

struct Total;

impl Lesson<u32, Slip> for Total {
    ghost use Rattle.cube_pool.specs.Lanes.{HasOneHistory, IsSettled};

    ghost fact = { λ v items. IsSettled v.put v.taken items × HasOneHistory v };
}

struct Cut;

impl Split<Slip> for Cut {
    ghost use Rattle.cube_pool.specs.Lanes.{fresh, lessened};

    ghost left = { lessened };

    ghost right = { λ _. fresh };
}

impl Join<Slip> for Cut {
    ghost use Rattle.std.specs.Prelude.{[]};
    ghost use Rattle.cube_pool.specs.Lanes.{joint, slip};

    ghost both = { joint };

    ghost spent = { slip 0 [] [] [] [] };
}

/// The worker's own end of its deque.
pub(crate) type Lane = Worker<u32, Global, Slip, Fair>;

/// The end at which others take.
pub(crate) type Mouth = Stealer<u32, Global, Slip, Fair>;

/// A number for which there is no place: the hand has made all its pushes.
#[derive(Debug, PartialEq, Eq, Clone, Copy)]
pub struct Full {
    pub id: u32,
}

pub(crate) fn open(alloc: Global) -> Result<Lane, AllocError>
    ensures { IfOk result (λ w. (65536 ≤ worker_capacity w) × (worker_flavor w ≡ 0) × (worker_index w ≡ 0)
        × (worker_port w ≡ 0) × (worker_view w ≡ slip whole [] [] [] [])) }
{
    Lane::fifo_as(alloc, 65536)
}

// The number goes to the deque's end. `pushes` counts the pushes.
pub(crate) fn push(lane: &mut Lane, pushes: &mut u32, id: u32) -> Result<(), Full>
    requires own { (65536 ≤ worker_capacity lane.old) × (worker_index lane.old ≤ pushes.old) }
    requires parts { (worker_port lane.old ≡ 0) × (0 < (worker_view lane.old).parts) }
    ensures same { SameWorker lane.old lane.new }
    ensures index { worker_index lane.new ≤ pushes.new }
    ensures count { OnOk result ((pushes.old < 65536) × (pushes.new ≡ pushes.old + 1)) }
    ensures ok { OnOk result (HasPut (worker_view lane.old) (id ∷ []) (worker_view lane.new)) }
    ensures full { IfErr result (λ f. (65536 ≤ pushes.old) × (f.id ≡ id) × (pushes.new ≡ pushes.old)
        × (worker_view lane.new ≡ worker_view lane.old)) }
{
    if *pushes >= 65536 {
        return Err(Full { id });
    }
    match lane.push_as::<Puts>(id) {
        Ok(()) => {
            *pushes += 1;
            Ok(())
        }
        Err(_) => unreachable!(),
    }
}

// The oldest number of a deque. A steal that finds it empty changes no view, so that nothing can be said of None.
pub(crate) fn fetch<R: Wait>(rt: &R, mouth: &Mouth, pass: &mut Pass<u32, Slip>) -> Option<u32>
    requires pass { IsPassOf (stealer_deque mouth.now) pass.old }
    requires fifo { stealer_flavor mouth.now ≡ 0 }
    requires parts { 0 < (view pass.old).parts }
    ensures same { SamePass pass.old pass.new }
    ensures fetched { MatchOption result
        (view pass.new ≡ view pass.old)
        (λ x. HasTaken (view pass.old) (x ∷ []) (view pass.new)) }
{
    for _ in rt.forever() {
        match mouth.steal_as::<Takes>(pass) {
            Steal::Success(x) => return Some(x),
            Steal::Empty => return None,
            Steal::Retry => {}
        }
    }
    unreachable!()
}

// A pass of this deque.
pub(crate) fn split(lane: &mut Lane) -> Pass<u32, Slip>
    requires { 1 < (worker_view lane.old).parts }
    ensures same { SameWorker lane.old lane.new × (worker_index lane.new ≡ worker_index lane.old)
        × IsPassOf (worker_deque lane.old) result }
    ensures views { (worker_view lane.new ≡ lessened (worker_view lane.old)) × (view result ≡ fresh) }
{
    lane.another::<Cut>()
}

// What a pass did becomes known to the worker's own end.
pub(crate) fn join(lane: &mut Lane, pass: Pass<u32, Slip>)
    requires pass { IsPassOf (worker_deque lane.old) pass }
    requires put { (view pass).put ≡ [] }
    requires parts { (worker_port lane.old ≡ 0) × (0 < (worker_view lane.old).parts) }
    ensures same { SameWorker lane.old lane.new × (worker_index lane.new ≡ worker_index lane.old) }
    ensures views { worker_view lane.new ≡ joint (worker_view lane.old) (view pass) }
{
    lane.absorb::<Cut>(pass);
}

// What is left in the deque, once all passes were joined: each number was taken or is left as often as it was
// put.
pub(crate) fn drain(alloc: Global, lane: &mut Lane) -> Result<Vec<u32>, AllocError>
    requires fifo { worker_flavor lane.old ≡ 0 }
    requires parts { (worker_port lane.old ≡ 0) × ((worker_view lane.old).parts ≡ whole) }
    ensures settled { IfOk result (λ left. IsSettled (worker_view lane.old).put (worker_view lane.old).taken
        left.items) }
    ensures history { OnOk result (HasOneHistory (worker_view lane.old)) }
{
    let count = lane.len_as::<Total>();
    let mut left = Vec::with_capacity(alloc, count)?;
    for _i in 0..count {
        match lane.pop_as::<Ends>() {
            Some(x) => left.push(x)?,
            None => return Ok(left),
        }
    }
    let _ = lane.len_as::<Total>();
    Ok(left)
}
