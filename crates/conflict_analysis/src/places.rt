//! The places of the trail that a way back has still to pass.
ghost use Rattle.std.specs.Prelude.{◌≡◌, ◌≢◌, ◌<◌, ◌≤◌, ℕ, [], Contains, IfSome, IfNone, OnOk};
ghost use Rattle.conflict_analysis.specs.code.Places.{IsGreatestBelow, HasMore};

use std::alloc::{AllocError, Global};
use std::collections::BinaryHeap;
use std::marker::Model;

pub struct Places {
    heap: BinaryHeap<usize>,
}

impl Drop for Places {
    fn drop(self) {
        let Places { heap } = self;
        drop(heap);
    }
}

impl Model for Places {
    ghost use Rattle.std.specs.Prelude.{ℕ, List};
    ghost use Rattle.std.specs.Ordering.{nat_cmp};
    ghost use Rattle.std.specs.BinaryHeap.{heap_items, IsHeap};

    ghost Value = { List ℕ };

    ghost view = { λ p. heap_items p.heap };

    ghost invariant = { λ p. IsHeap nat_cmp (heap_items p.heap) };
}

impl Places {
    pub fn new(alloc: Global) -> Self
        ensures { result ≡ [] }
    {
        Places {
            heap: BinaryHeap::new(alloc),
        }
    }

    /// One place more.
    pub fn push(&mut self, place: usize) -> Result<(), AllocError>
        ensures { OnOk result (HasMore self.old place self.new) }
    {
        self.heap.push(place)?;
        Ok(())
    }

    /// The greatest place below another one, which leaves. So do those that aren't below it.
    pub fn next_below(&mut self, below: usize) -> Option<usize>
        ensures some { IfSome result (IsGreatestBelow self.old self.new below) }
        ensures none { IfNone result ((j : ℕ) → Contains self.old j → below ≤ j) }
    {
        'places: while let Some(place) = self.heap.pop() {
            if place < below {
                return Some(place);
            }
        }
        None
    }

    /// All places, in no order.
    pub fn as_slice(&self) -> &[usize] {
        self.heap.as_slice()
    }

    /// How many places there are from a place on.
    pub fn count_from(&self, start: usize) -> usize {
        let mut count = 0usize;
        for place in self.heap.as_slice() {
            if start <= *place {
                count = count.saturating_add(1);
            }
        }
        count
    }
}
