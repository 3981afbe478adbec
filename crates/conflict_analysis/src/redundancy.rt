//! Which literals a learned clause doesn't need, since they follow from its others. Any answer is right: a
//! literal that is resolved for nothing brings others into the clause.
//!
//! Source: Sörensson and Biere, "Minimizing learned clauses", SAT 2009.
use crate::entry::{Entry, Reason, Role};
use crate::reading::{denial_place, is_same, literal_place, numbers_of};
use search_guide::{Guide, LiteralNumber};
use std::alloc::{AllocError, Global};
use stn_core::{Literal, negate};

/// How many reasons are looked at for one clause at most.
const WORK_LIMIT: u32 = 100_000;

/// What was found of a literal of the trail that isn't used.
#[derive(Clone, Copy, Debug, PartialEq, Eq)]
enum Memo {
    Unknown,
    /// It follows from used literals and the root's.
    Redundant,
    /// It doesn't, or wasn't seen to.
    Needed,
}

/// A literal whose reason is looked at, and at which of the reason's literals.
#[derive(Clone, Copy)]
struct Frame {
    place: usize,
    next: usize,
}

/// What a reason's literals, or one of them, mean for the literal that follows from them.
#[derive(Clone, Copy)]
enum Verdict {
    Fine,
    Bad,
    /// The reason of the literal at this place is to be looked at, and then the reason's literals from the
    /// next one on.
    Open(Frame),
}

/// What is looked at: the trail, which of its literals are used, and where its root ends.
#[derive(Clone, Copy)]
struct View<'a> {
    trail: &'a [Entry],
    roles: &'a [Role],
    root: usize,
    guide: &'a Guide,
}

pub struct Redundancy {
    memos: Vec<Memo>,
    /// the places that have a memo
    noted: Vec<usize>,
    /// from the literal that is asked for to the one that is looked at
    stack: Vec<Frame>,
    /// a bit for each level, modulo 64, on which the clause has a literal
    levels: u64,
    /// how many reasons were looked at
    work: u32,
}

impl Drop for Redundancy {
    fn drop(self) {
        let Redundancy {
            memos,
            noted,
            stack,
            levels: _,
            work: _,
        } = self;
        drop(memos);
        drop(noted);
        drop(stack);
    }
}

fn is_used(roles: &[Role], place: usize) -> bool {
    match roles.get(place) {
        Some(role) => *role != Role::Unused,
        None => false,
    }
}

// The bit of the literal's level.
fn level_bit(guide: &Guide, entry: &Entry) -> u64 {
    let level = guide.level(entry.number).unwrap_or(0);
    1u64.wrapping_shl((level % 64) as u32)
}

impl Redundancy {
    pub fn new(alloc: Global) -> Self {
        Redundancy {
            memos: Vec::new(alloc),
            noted: Vec::new(alloc),
            stack: Vec::new(alloc),
            levels: 0,
            work: 0,
        }
    }

    /// Before another clause, over a trail of so many literals.
    pub fn begin(&mut self, count: usize) -> Result<(), AllocError> {
        for place in &self.noted {
            if let Some(memo) = self.memos.get_mut(*place) {
                *memo = Memo::Unknown;
            }
        }
        self.noted.truncate(0);
        self.stack.truncate(0);
        self.levels = 0;
        self.work = 0;
        for _place in self.memos.len()..count {
            self.memos.push(Memo::Unknown)?;
        }
        Ok(())
    }

    /// Whether it was told no level yet.
    pub fn has_no_level(&self) -> bool {
        self.levels == 0
    }

    /// The clause has this literal.
    pub fn add_level(&mut self, guide: &Guide, entry: &Entry) {
        self.levels |= level_bit(guide, entry);
    }

    fn memo(&self, place: usize) -> Memo {
        match self.memos.get(place) {
            Some(memo) => *memo,
            None => Memo::Needed,
        }
    }

    /// Whether the literal at the place wasn't used when it was found to follow from those that were.
    pub fn is_inner(&self, place: usize) -> bool {
        self.memo(place) == Memo::Redundant
    }

    fn note(&mut self, roles: &[Role], place: usize, memo: Memo) -> Result<(), AllocError> {
        if is_used(roles, place) {
            return Ok(());
        }
        if let Some(slot) = self.memos.get_mut(place) {
            *slot = memo;
        }
        self.noted.push(place)?;
        Ok(())
    }

    // What a literal means for one that follows from it, behind which the reason has those from `next` on.
    fn look(&self, view: View<'_>, place: Option<usize>, next: usize) -> Verdict {
        let Some(place) = place else {
            return Verdict::Bad;
        };
        if place < view.root || is_used(view.roles, place) {
            return Verdict::Fine;
        }
        match (self.memo(place), view.trail.get(place)) {
            (Memo::Redundant, _) => Verdict::Fine,
            (Memo::Unknown, Some(entry)) if level_bit(view.guide, entry) & self.levels != 0 =>
                Verdict::Open(Frame { place, next }),
            _ => Verdict::Bad,
        }
    }

    // What the clause's literals from the place `from` on mean for the one at its own place.
    fn look_at_clause(
        &self,
        view: View<'_>,
        numbers: &[LiteralNumber],
        own: usize,
        from: usize,
    ) -> Verdict {
        if numbers.is_empty() {
            return Verdict::Bad;
        }
        for q in from..numbers.len() {
            if q != own {
                let verdict = self.look(view, denial_place(view.guide, numbers, q), q + 1);
                if !matches!(verdict, Verdict::Fine) {
                    return verdict;
                }
            }
        }
        Verdict::Fine
    }

    // The same for a cycle that the negation of the literal would close.
    fn look_at_cycle(
        &self,
        view: View<'_>,
        cycle: &[Literal],
        literal: Literal,
        from: usize,
    ) -> Verdict {
        for q in from..cycle.len() {
            if !is_same(cycle[q], negate(literal)) {
                let verdict = self.look(view, literal_place(view.guide, cycle[q]), q + 1);
                if !matches!(verdict, Verdict::Fine) {
                    return verdict;
                }
            }
        }
        Verdict::Fine
    }

    // The same for the reason of the literal at the frame's place.
    fn look_at(&self, view: View<'_>, frame: Frame) -> Verdict {
        let Some(entry) = view.trail.get(frame.place) else {
            return Verdict::Bad;
        };
        match &entry.reason {
            Reason::Given => Verdict::Bad,
            Reason::Decision => Verdict::Bad,
            Reason::Clause(source, own) => {
                let numbers = numbers_of(view.guide, *source);
                self.look_at_clause(view, numbers, *own, frame.next)
            }
            Reason::Pair(tighter) if frame.next == 0 => {
                self.look(view, literal_place(view.guide, *tighter), 1)
            }
            Reason::Pair(_) => Verdict::Fine,
            Reason::Cycle(cycle) => {
                self.look_at_cycle(view, cycle.as_slice(), entry.literal, frame.next)
            }
        }
    }

    // None of the literals on the stack follows, nor does this one.
    fn fail(&mut self, roles: &[Role], place: usize) -> Result<bool, AllocError> {
        self.note(roles, place, Memo::Needed)?;
        for _turn in 0..self.stack.len() {
            if let Some(frame) = self.stack.pop() {
                self.note(roles, frame.place, Memo::Needed)?;
            }
        }
        Ok(false)
    }

    // A step: the reason's literals up to one whose own reason is to be looked at. It answers no where that ends
    // the look.
    fn step(&mut self, view: View<'_>, frame: Frame) -> Result<bool, AllocError> {
        match self.look_at(view, frame) {
            Verdict::Fine => self.note(view.roles, frame.place, Memo::Redundant)?,
            Verdict::Bad => return self.fail(view.roles, frame.place),
            Verdict::Open(Frame { place, next }) => {
                let rest = Frame {
                    place: frame.place,
                    next,
                };
                self.stack.push(rest)?;
                self.stack.push(Frame { place, next: 0 })?;
            }
        }
        Ok(true)
    }

    /// Whether the literal at the place, which is used, follows from other used literals and the root's.
    pub fn is_redundant(
        &mut self,
        trail: &[Entry],
        roles: &[Role],
        root: usize,
        guide: &Guide,
        place: usize,
    ) -> Result<bool, AllocError> {
        if !guide.policy().minimization {
            return Ok(false);
        }
        match self.memo(place) {
            Memo::Redundant => return Ok(true),
            Memo::Needed => return Ok(false),
            Memo::Unknown => {}
        }
        let view = View {
            trail,
            roles,
            root,
            guide,
        };
        self.stack.push(Frame { place, next: 0 })?;
        for _turn in self.work..WORK_LIMIT {
            self.work = self.work.saturating_add(1);
            let Some(frame) = self.stack.pop() else {
                return Ok(true);
            };
            if !self.step(view, frame)? {
                return Ok(false);
            }
        }
        self.fail(roles, place)
    }
}
