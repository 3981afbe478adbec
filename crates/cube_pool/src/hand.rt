//! A worker's hand on the pool.
ghost use Rattle.std.specs.Prelude.{◌≡◌};

use crate::lane::Lane;
use crate::slip::Slip;
use crossbeam_deque::Pass;
use std::marker::Model;

/// One worker's hand: it pushes to its own deque, and fetches from all.
#[derive(Drop)]
pub struct Hand {
    pub(crate) number: u32,
    pub(crate) pushes: u32,
    pub(crate) lane: Lane,
    // one of each deque
    pub(crate) passes: Vec<Pass<u32, Slip>>,
}

impl Model for Hand {
    ghost use Rattle.std.specs.Prelude.{map};
    ghost use Rattle.crossbeam_deque.specs.Handles.{worker_view};
    ghost use Rattle.cube_pool.specs.Hands.{Doings, IsHand, deque_of, known_by, taken_by};

    ghost Value = { Doings };

    ghost view = { λ h. record {
      pool = map deque_of h.passes.items;
      number = h.number;
      pushed = (worker_view h.lane).put;
      fetched = map taken_by h.passes.items;
      known_by_pushes = (worker_view h.lane).known;
      known_by_fetches = map known_by h.passes.items;
    } };

    ghost invariant = { λ h. IsHand h.number h.pushes h.lane h.passes.items };
}

impl Hand {
    pub(crate) fn number(&self) -> u32
        ensures { result ≡ self.now.number }
    {
        self.number
    }
}
