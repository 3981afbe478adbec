//! A set of numbers that gives a member, and takes one in or out, in constant time.
ghost use Rattle.std.specs.Prelude.{◌≡◌, ◌<◌, ◌≤◌, ◌+◌, [], ◌∷◌, ◌++◌, true, false, length, Some, OnOk, IfSome, IfNone, slice_get, slice_set};
ghost use Rattle.cover_tree.specs.code.Members.{AreInverse, IsMember, NoMember, order_with, place_with};

use std::alloc::{AllocError, Global};
use std::marker::Model;

/// A set of numbers below a bound: `order` lists all of them, the `count` members first, and `place` says
/// where each stands. To add or remove one, two numbers change places.
#[derive(Drop)]
pub(crate) struct Members {
    order: Vec<usize>,
    place: Vec<usize>,
    count: usize,
}

impl Model for Members {
    ghost use Rattle.std.specs.Prelude.{◌-◌, min, vec_len, vec_capacity};
    ghost use Rattle.cover_tree.specs.code.Members.{NumberSet, IsSet, flags};

    ghost Value = { NumberSet };

    ghost view = { λ m. record {
      flags = flags m.count m.place.items;
      room = min (vec_capacity m.order - vec_len m.order) (vec_capacity m.place - vec_len m.place);
    } };

    ghost invariant = { λ m. IsSet m.count m.order.items m.place.items };
}

impl Members {
    /// Nothing, below the bound 0.
    pub(crate) fn new(alloc: Global) -> Self
        ensures { result.flags ≡ [] }
    {
        Members {
            order: Vec::new(alloc),
            place: Vec::new(alloc),
            count: 0,
        }
    }

    /// The member that came in last, where none was taken out since.
    pub(crate) fn any(&self) -> Option<usize>
        ensures some { IfSome result (IsMember self.now.flags) }
        ensures none { IfNone result (NoMember self.now.flags) }
    {
        if self.count == 0 {
            return None;
        }
        Some(self.order[self.count - 1])
    }

    /// Room for so many more numbers.
    pub(crate) fn reserve(&mut self, more: usize) -> Result<(), AllocError>
        ensures flags { self.new.flags ≡ self.old.flags }
        ensures room { OnOk result (more ≤ self.new.room) }
    {
        self.order.reserve(more)?;
        self.place.reserve(more)
    }

    /// The bound rises by one.
    pub(crate) fn push_reserved(&mut self)
        requires { 0 < self.old.room }
        ensures flags { self.new.flags ≡ self.old.flags ++ false ∷ [] }
        ensures room { self.new.room + 1 ≡ self.old.room }
    {
        let number = self.place.len();
        self.order.push_reserved(number);
        self.place.push_reserved(number);
    }

    /// The number becomes a member.
    pub(crate) fn insert(&mut self, k: usize)
        requires { slice_get self.old.flags k ≡ Some false }
        ensures flags { self.new.flags ≡ slice_set self.old.flags k true }
    {
        let to = self.count;
        bring(&mut self.order, &mut self.place, k, to);
        self.count = to + 1;
    }

    /// The number is no member any more.
    pub(crate) fn remove(&mut self, k: usize)
        requires { IsMember self.old.flags k }
        ensures flags { self.new.flags ≡ slice_set self.old.flags k false }
    {
        let to = self.count - 1;
        bring(&mut self.order, &mut self.place, k, to);
        self.count = to;
    }
}

/// The number comes to this place, and the one that stood there takes its place.
fn bring(order: &mut Vec<usize>, place: &mut Vec<usize>, k: usize, to: usize)
    requires inverse { AreInverse order.old.items place.old.items }
    requires k { k < length place.old.items }
    requires to { to < length order.old.items }
    ensures order { order.new.items ≡ order_with order.old.items place.old.items k to }
    ensures place { place.new.items ≡ place_with order.old.items place.old.items k to }
{
    let from = place[k];
    let a = order[from];
    let b = order[to];
    order[from] = b;
    order[to] = a;
    place[a] = to;
    place[b] = from;
}
