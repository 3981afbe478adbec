ghost use Rattle.std.specs.Prelude.{◌≡◌, ◌<◌, ◌+◌, ◌-◌, [], ◌∷◌, ◌++◌, ◌↔◌, length, take};
ghost use Rattle.std.specs.Prelude.{IfOk, OnOk, OnErr, All, IfSome, IfNone, IsTrue, IsPermutation};
ghost use Rattle.stn_core.specs.Limits.{FitsValue};
ghost use Rattle.stn_core.specs.Literal.{most_allowed};
ghost use Rattle.inc_paths.specs.declared.labels.Lowering.{Lowering};
ghost use Rattle.inc_paths.specs.code.Trails.{entry_at, fall_of, first_of, last_entry, lowered_values, lowering};
ghost use Rattle.inc_paths.specs.code.Trails.{FallsFurthest, queued, undone_one, unlabelled, IsCurrent, IsViolated};

use std::alloc::{AllocError, Global};
use std::collections::BinaryHeap;
use std::marker::Model;
use stn_core::{Literal, Value};

/// How far a value falls; the unsigned type beside `Value`.
type Fall = u128;

/// One lowering of a point's value.
#[derive(Clone, Copy)]
pub struct Lowering {
    /// the literal that did it, whose first point was lowered
    pub literal: Literal,
    /// the value after it, and before
    pub now: Value,
    pub old: Value,
    /// 1 more than the place on the trail of the lowering that gave the literal's second point its value, or 0 for the
    /// literal that is being added
    pub parent: usize,
}

/// The points' values, and how they came to be.
pub struct Labels {
    values: Vec<Value>,
    /// all lowerings since the beginning that have not been taken back
    trail: Vec<Lowering>,
    /// where the lowerings begin that the literal which is being added made
    start: usize,
    /// the lowerings, by their places on the trail, whose points are to be looked at; first the one that fell furthest
    queue: BinaryHeap<(Fall, usize)>,
    /// the values as they were before the start: the order in the queue goes by them, and nothing else
    before: Vec<Value>,
}

impl Drop for Labels {
    fn drop(self) {
        let Labels {
            values,
            trail,
            start: _,
            queue,
            before,
        } = self;
        drop(values);
        drop(trail);
        drop(queue);
        drop(before);
    }
}

impl Model for Labels {
    ghost use Rattle.std.specs.BinaryHeap.{heap_items, IsHeap};
    ghost use Rattle.inc_paths.specs.code.Trails.{Labelled, IsLabelled, queue_order};

    ghost Value = { Labelled };

    ghost view = { λ l. record {
      values = l.values.items;
      trail = l.trail.items;
      start = l.start;
      queue = heap_items l.queue;
    } };

    ghost invariant = { λ l. IsLabelled l.values.items l.trail.items l.start l.before.items
        × IsHeap queue_order (heap_items l.queue) };
}

impl Labels {
    pub fn new(alloc: Global, points: u32) -> Result<Self, AllocError>
        ensures { IfOk result (λ labels. labels ≡ unlabelled points) }
    {
        Ok(Labels {
            values: vec![in alloc; 0; points as usize]?,
            trail: Vec::new(alloc),
            start: 0,
            queue: BinaryHeap::new(alloc),
            before: vec![in alloc; 0; points as usize]?,
        })
    }

    pub fn values(&self) -> &[Value]
        ensures { result.now ≡ self.now.values }
    {
        self.values.as_slice()
    }

    pub fn trail_len(&self) -> usize
        ensures { result ≡ length self.now.trail }
    {
        self.trail.len()
    }

    pub fn entry(&self, place: usize) -> Lowering
        requires { place < length self.now.trail }
        ensures entry { result ≡ entry_at self.now.trail place }
        ensures point { result.literal.x < length self.now.values }
    {
        self.trail[place]
    }

    /// The number of a lowering, counted from 1.
    pub fn number(&self, place: usize) -> usize
        requires { place < length self.now.trail }
        ensures { result ≡ place + 1 }
    {
        self.trail[..=place].len()
    }

    /// Whether the value is still the one that the lowering gave.
    pub fn is_current(&self, place: usize) -> bool
        requires { place < length self.now.trail }
        ensures { IsTrue result ↔ IsCurrent self.now place }
    {
        let entry = self.entry(place);
        self.values[entry.literal.x as usize] == entry.now
    }

    /// What the literal allows its first point.
    fn allowed(&self, literal: Literal) -> Value
        requires y_in { literal.y < length self.now.values }
        requires fits { FitsValue (most_allowed self.now.values literal) }
        ensures { result ≡ most_allowed self.now.values literal }
    {
        self.values[literal.y as usize] + Value::from(literal.c)
    }

    /// Whether the literal does not hold.
    pub fn fails(&self, literal: Literal) -> bool
        requires x_in { literal.x < length self.now.values }
        requires y_in { literal.y < length self.now.values }
        requires fits { FitsValue (most_allowed self.now.values literal) }
        ensures { IsTrue result ↔ IsViolated self.now.values literal }
    {
        self.allowed(literal) < self.values[literal.x as usize]
    }

    /// How far the literal's first point falls below its value before the start.
    fn fall_of(&self, literal: Literal) -> Fall
        requires x_in { literal.x < length self.now.values }
        requires y_in { literal.y < length self.now.values }
        requires fits { FitsValue (most_allowed self.now.values literal) }
        ensures { result ≡ fall_of self.now literal }
    {
        let now = self.allowed(literal);
        self.before[literal.x as usize].abs_diff(now)
    }

    /// Lowers the literal's first point to what it allows.
    pub fn lower(&mut self, literal: Literal, parent: usize) -> Result<(), AllocError>
        requires x_in { literal.x < length self.old.values }
        requires y_in { literal.y < length self.old.values }
        requires fits { FitsValue (most_allowed self.old.values literal) }
        ensures values { OnOk result (self.new.values ≡ lowered_values self.old.values literal) }
        ensures trail { OnOk result
            (self.new.trail ≡ self.old.trail ++ lowering self.old.values literal parent ∷ []) }
        ensures queue { OnOk result (IsPermutation (queued self.old literal) self.new.queue) }
        ensures start { self.new.start ≡ self.old.start }
        ensures err_values { OnErr result (self.new.values ≡ self.old.values) }
        ensures err_trail { OnErr result (self.new.trail ≡ self.old.trail) }
    {
        let now = self.allowed(literal);
        let old = self.values[literal.x as usize];
        let fall = self.fall_of(literal);
        self.queue.push((fall, self.trail.len()))?;
        self.trail.push(Lowering {
            literal,
            now,
            old,
            parent,
        })?;
        self.values[literal.x as usize] = now;
        Ok(())
    }

    /// The fall and the place of the lowering whose point is to be looked at next.
    pub fn pop(&mut self) -> Option<(Fall, usize)>
        ensures values { self.new.values ≡ self.old.values }
        ensures trail { self.new.trail ≡ self.old.trail }
        ensures start { self.new.start ≡ self.old.start }
        ensures some { IfSome result (λ item. IsPermutation self.old.queue (item ∷ self.new.queue)) }
        ensures greatest { IfSome result (λ item. FallsFurthest item self.old.queue) }
        ensures none { IfNone result (self.old.queue ≡ []) }
    {
        self.queue.pop()
    }

    /// Before a literal is added: the values as they are become those before the start.
    pub fn begin(&mut self)
        ensures { self.new ≡ record self.old { start = length self.old.trail; queue = [] } }
    {
        copy_lowered(&mut self.before, &self.values, &self.trail, self.start);
        self.start = self.trail.len();
        self.queue.clear();
    }

    /// Takes back the last lowering.
    fn undo_last(&mut self)
        requires { 0 < length self.old.trail }
        ensures values { self.new.values ≡ undone_one (last_entry self.old.trail) self.old.values }
        ensures trail { self.new.trail ≡ take (length self.old.trail - 1) self.old.trail }
    {
        let last = self.trail.len() - 1;
        let entry = self.trail[last];
        self.values[entry.literal.x as usize] = entry.old;
        self.trail.truncate(last);
        if last < self.start {
            self.before[entry.literal.x as usize] = entry.old;
            self.start = last;
        }
    }

    /// Takes back the lowerings from a place on.
    pub fn undo(&mut self, start: usize)
        ensures values { self.new.values ≡ first_of start self.old.trail self.old.values }
        ensures trail { self.new.trail ≡ take start self.old.trail }
    {
        'newest: while self.trail_len() > start {
            self.undo_last();
        }
    }
}

/// Gives the lowered points' values as they are to the list of those before the lowerings from the start on.
fn copy_lowered(before: &mut [Value], values: &[Value], trail: &[Lowering], start: usize)
    requires points { All (λ (e : Lowering). e.literal.x < length values.now) trail.now }
    requires count { length before.old ≡ length values.now }
    requires before { before.old ≡ first_of start trail.now values.now }
    ensures { before.new ≡ values.now }
{
    'lowerings: for place in start..trail.len() {
        let point = trail[place].literal.x as usize;
        before[point] = values[point];
    }
}
