//! What follows from one more literal where there are too many points for a table: a search forward from its start and
//! one backward from its end find the rows that it brings nearer to each other, and of the literals at those rows the
//! open ones that now follow (Cotton, Maler 2006). Each edge that a search looks at is paid from a purse, into which each
//! literal that follows puts something back: without it the searches cost more than what they find is worth.
use crate::edges::{Bounds, Edges};
use crate::rows::Rows;
use crate::side::Side;
use search_guide::{Guide, LiteralNumber};
use std::alloc::{AllocError, Global};

/// How many edges searches may look at, and how many more for each literal that follows.
const WORK: u64 = 1_000_000;

const WORK_FOR_A_HIT: u64 = 5;

/// An edge, and how long it is.
#[derive(Clone, Copy)]
struct Added {
    from: usize,
    to: usize,
    bound: i64,
    number: LiteralNumber,
}

pub struct Searches {
    rows: Rows,
    edges: Edges,
    leaving: Bounds,
    arriving: Bounds,
    forward: Side,
    backward: Side,
    added: Option<Added>,
    hits: Vec<LiteralNumber>,
    next_hit: usize,
    walk: Vec<usize>,
    back: Vec<usize>,
    work: u64,
}

impl Drop for Searches {
    fn drop(self) {
        let Searches {
            rows,
            edges,
            leaving,
            arriving,
            forward,
            backward,
            added,
            hits,
            next_hit: _,
            walk,
            back,
            work: _,
        } = self;
        drop(rows);
        drop(edges);
        drop(leaving);
        drop(arriving);
        drop(forward);
        drop(backward);
        drop(added);
        drop(hits);
        drop(walk);
        drop(back);
    }
}

impl Searches {
    pub fn new(alloc: Global, guide: &Guide, rows: Rows) -> Result<Self, AllocError> {
        let count = rows.count();
        Ok(Searches {
            edges: Edges::new(alloc, count)?,
            leaving: Bounds::of(alloc, guide, &rows, true)?,
            arriving: Bounds::of(alloc, guide, &rows, false)?,
            rows,
            forward: Side::new(alloc, count)?,
            backward: Side::new(alloc, count)?,
            added: None,
            hits: Vec::new(alloc),
            next_hit: 0,
            walk: Vec::new(alloc),
            back: Vec::new(alloc),
            work: WORK,
        })
    }

    /// The literal stands at this place of the trail, behind those that were added before, and is consistent with
    /// them. What follows is what `next_hit` answers from now on. The one error is want of memory.
    pub fn add(
        &mut self,
        guide: &Guide,
        number: LiteralNumber,
        place: usize,
    ) -> Result<(), AllocError> {
        self.forget();
        let (Some(literal), Some((from, to))) = (
            guide.literal(number),
            self.rows.ends(guide, number),
        ) else {
            return Ok(());
        };
        let bound = literal.c;
        self.edges.add(from, to, bound, number, place)?;
        if self.work == 0 {
            return Ok(());
        }
        let added = Added {
            from,
            to,
            bound,
            number,
        };
        self.forward
            .run(&self.edges, from, number, true, &mut self.work)?;
        if !self.forward.reached().is_empty() {
            self.backward
                .run(&self.edges, to, number, false, &mut self.work)?;
            self.added = Some(added);
            self.look(guide, added)?;
        }
        Ok(())
    }

    fn forget(&mut self) {
        self.added = None;
        self.hits.truncate(0);
        self.next_hit = 0;
    }

    /// Finds what follows, from the side that has fewer literals to look at.
    fn look(&mut self, guide: &Guide, added: Added) -> Result<(), AllocError> {
        let ends = count_of(&self.arriving, self.forward.reached());
        let starts = count_of(&self.leaving, self.backward.reached());
        self.work = self.work.saturating_sub(ends.min(starts) as u64);
        let is_forward = ends < starts;
        let count = self.reached(is_forward).len();
        for k in 0..count {
            if let Some(row) = self.reached(is_forward).get(k).copied() {
                self.look_at(guide, added, row, is_forward)?;
            }
        }
        Ok(())
    }

    fn reached(&self, is_forward: bool) -> &[usize] {
        if is_forward {
            self.forward.reached()
        } else {
            self.backward.reached()
        }
    }

    /// The literals that end at the row, or that begin there.
    fn literals_at(&self, row: usize, ending: bool) -> &[LiteralNumber] {
        if ending {
            self.arriving.at(row)
        } else {
            self.leaving.at(row)
        }
    }

    /// Of the literals of one row those that follow: of those on the same rows the least.
    fn look_at(
        &mut self,
        guide: &Guide,
        added: Added,
        row: usize,
        is_forward: bool,
    ) -> Result<(), AllocError> {
        let mut done = None;
        for k in 0..self.literals_at(row, is_forward).len() {
            let Some(number) = self.literals_at(row, is_forward).get(k).copied() else {
                return Ok(());
            };
            let (Some(literal), Some((from, to))) = (
                guide.literal(number),
                self.rows.ends(guide, number),
            ) else {
                continue;
            };
            let other = if is_forward { from } else { to };
            if done == Some(other) {
                continue;
            }
            match self.length(added, from, to) {
                Some(length) if length <= literal.c => {
                    done = Some(other);
                    self.note(guide, number)?;
                }
                Some(_) => {}
                None => done = Some(other),
            }
        }
        Ok(())
    }

    /// The literal follows, if it is open.
    fn note(&mut self, guide: &Guide, number: LiteralNumber) -> Result<(), AllocError> {
        if is_open(guide, number) {
            self.work = self.work.saturating_add(WORK_FOR_A_HIT);
            self.hits.push(number)?;
        }
        Ok(())
    }

    /// The length of the shortest path by the edge, where both rows are brought nearer to it.
    fn length(&self, added: Added, from: usize, to: usize) -> Option<i64> {
        let behind = self.forward.distance(to)?;
        let before = self.backward.distance(from)?;
        let behind = behind
            .saturating_add(self.edges.potential(to))
            .saturating_sub(self.edges.potential(added.from));
        let before = before
            .saturating_add(self.edges.potential(added.to))
            .saturating_sub(self.edges.potential(from));
        Some(behind.saturating_add(before).saturating_sub(added.bound))
    }

    /// The next open literal that follows from the last one that was added, with `path` as its reason.
    pub fn next_hit(&mut self, guide: &Guide) -> Option<LiteralNumber> {
        for k in self.next_hit..self.hits.len() {
            self.next_hit = k + 1;
            let number = self.hits.get(k).copied()?;
            if is_open(guide, number) {
                return Some(number);
            }
        }
        None
    }

    /// The places on the trail of the literals of a path that explains the one with the number, the last edge first.
    /// Where the last searches don't lead from end to end, what it answers is no path. The one error is want of memory.
    pub fn path(&mut self, guide: &Guide, number: LiteralNumber) -> Result<&[usize], AllocError> {
        self.walk.truncate(0);
        if let (Some(added), Some((from, to))) = (self.added, self.rows.ends(guide, number)) {
            self.walk_back(guide, to, added)?;
            self.walk_on(guide, from, added)?;
        }
        Ok(&self.walk)
    }

    /// From a row back to the edge, which is the last one.
    fn walk_back(&mut self, guide: &Guide, to: usize, added: Added) -> Result<(), AllocError> {
        let mut row = to;
        for _turn in 0..self.rows.count() {
            let Some(by) = self.forward.by(row) else {
                return Ok(());
            };
            let Some(place) = guide.place(by) else {
                return Ok(());
            };
            self.walk.push(place)?;
            if by == added.number {
                return Ok(());
            }
            let Some((before, _)) = self.rows.ends(guide, by) else {
                return Ok(());
            };
            row = before;
        }
        Ok(())
    }

    /// From a row on to the edge, without it, turned round.
    fn walk_on(&mut self, guide: &Guide, from: usize, added: Added) -> Result<(), AllocError> {
        self.back.truncate(0);
        let mut row = from;
        for _turn in 0..self.rows.count() {
            if row == added.from {
                break;
            }
            let Some(by) = self.backward.by(row) else {
                return Ok(());
            };
            let Some(place) = guide.place(by) else {
                return Ok(());
            };
            self.back.push(place)?;
            let Some((_, behind)) = self.rows.ends(guide, by) else {
                return Ok(());
            };
            row = behind;
        }
        for place in self.back.iter().rev() {
            self.walk.push(*place)?;
        }
        Ok(())
    }

    /// The literals at this place of the trail and beyond leave it. It takes no memory.
    pub fn retract(&mut self, place: usize) {
        self.forget();
        self.edges.retract(place);
    }
}

fn count_of(bounds: &Bounds, rows: &[usize]) -> usize {
    let mut count = 0usize;
    for row in rows {
        count = count.saturating_add(bounds.at(*row).len());
    }
    count
}

fn is_open(guide: &Guide, number: LiteralNumber) -> bool {
    guide.place(number).is_none() && guide.place(Guide::negated(number)).is_none()
}
