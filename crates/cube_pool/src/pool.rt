//! The pool.
ghost use Rattle.std.specs.Prelude.{◌≡◌, ◌<◌, ◌≤◌, ℕ, length, IfOk, OnOk, OnErr, IfErr, IsErr, MatchOption, IfNone, ◌↔◌};
ghost use Rattle.cube_pool.specs.Hands.{AreHandsOf, AreNewcomers, AreSettled, HasFetched, HasPushed, HaveHistories};

use crate::closing::{drain_all, join_all, part};
use crate::hand::Hand;
use crate::lane::{self, Full, Mouth};
use crate::opening::open_all;
use std::alloc::{AllocError, Global};
use std::marker::Model;
use std::sync::Wait;

/// A deque of numbers for each worker.
#[derive(Drop)]
pub struct Pool {
    pub(crate) mouths: Vec<Mouth>,
}

impl Model for Pool {
    ghost use Rattle.std.specs.Prelude.{List, map};
    ghost use Rattle.crossbeam_deque.specs.Handles.{stealer_deque};
    ghost use Rattle.cube_pool.specs.Hands.{Deque};
    ghost use Rattle.cube_pool.specs.code.Closings.{IsPool};

    ghost Value = { List Deque };

    ghost view = { λ p. map stealer_deque p.mouths.items };

    ghost invariant = { λ p. IsPool p.mouths.items };
}

impl Pool {
    /// A pool, and a hand for each worker. It makes the room for all pushes.
    pub fn open(alloc: Global, workers: u32) -> Result<(Pool, Vec<Hand>), AllocError>
        ensures { IfOk result (λ r. AreNewcomers workers r.0 r.1.items) }
    {
        open_all(alloc, workers)
    }

    /// The number goes to the end of the hand's own deque. `Full` comes exactly where this hand has made
    /// 65,536 pushes, gives the number back, and leaves all as it was. It takes no memory.
    pub fn push(&self, hand: &mut Hand, id: u32) -> Result<(), Full>
        requires pool { hand.old.pool ≡ self.now }
        ensures ok { OnOk result (HasPushed hand.old id hand.new) }
        ensures full { IfErr result (λ full. (full.id ≡ id) × (hand.new ≡ hand.old)) }
        ensures exactly { IsErr result ↔ (65536 ≤ length hand.old.pushed) }
    {
        lane::push(&mut hand.lane, &mut hand.pushes, id)
    }

    /// The oldest number of the hand's own deque, or else of another one. `None` comes where each deque was found
    /// empty at a moment of its own in this call, of which the contract says nothing: an empty deque leaves no trace
    /// in what a hand has seen.
    pub fn fetch<R: Wait>(&self, rt: &R, hand: &mut Hand) -> Option<u32>
        requires pool { hand.old.pool ≡ self.now }
        ensures { MatchOption result
            (hand.new ≡ hand.old)
            (λ id. (k : ℕ) × (k < length self.now) × HasFetched hand.old k id hand.new) }
    {
        let own = hand.number as usize;
        if let Some(id) = self.fetch_at(rt, hand, own) {
            return Some(id);
        }
        if let Some(id) = self.fetch_within(rt, hand, own + 1, self.mouths.len()) {
            return Some(id);
        }
        self.fetch_within(rt, hand, 0, own)
    }

    // The oldest number of a deque with a number from low on and below high.
    fn fetch_within<R: Wait>(&self, rt: &R, hand: &mut Hand, low: usize, high: usize) -> Option<u32>
        requires pool { hand.old.pool ≡ self.now }
        requires high { high ≤ length self.now }
        ensures { MatchOption result
            (hand.new ≡ hand.old)
            (λ id. (k : ℕ) × (k < length self.now) × HasFetched hand.old k id hand.new) }
    {
        for place in low..high {
            if let Some(id) = self.fetch_at(rt, hand, place) {
                return Some(id);
            }
        }
        None
    }

    // The oldest number of the deque with this number.
    fn fetch_at<R: Wait>(&self, rt: &R, hand: &mut Hand, place: usize) -> Option<u32>
        requires pool { hand.old.pool ≡ self.now }
        requires place { place < length self.now }
        ensures { MatchOption result
            (hand.new ≡ hand.old)
            (λ id. HasFetched hand.old place id hand.new) }
    {
        lane::fetch(rt, &self.mouths[place], &mut hand.passes[place])
    }

    /// What is left, once the pool has all its hands again, in any order. Each deque had one history, and what a hand
    /// knew of it is a front of that one.
    pub fn close(self, hands: Vec<Hand>) -> Result<Vec<u32>, AllocError>
        requires { AreHandsOf self hands.items }
        ensures settled { IfOk result (λ left. AreSettled hands.items left.items) }
        ensures histories { IfOk result (λ _. HaveHistories self hands.items) }
    {
        let alloc = *self.mouths.allocator();
        let mut lanes = Vec::with_capacity(alloc, hands.len())?;
        let mut rows = Vec::with_capacity(alloc, hands.len())?;
        let mut hands = hands;
        hands.sort_unstable_by_key(|hand| hand.number());
        part(&self, hands, &mut lanes, &mut rows)?;
        join_all(&self, &mut lanes, rows);
        drain_all(alloc, lanes)
    }
}
