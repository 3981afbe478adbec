//! Distances: for each pair of points the least bound on their difference that follows from the literals.
//! They are kept from literal to literal: one more edge lowers only the entries from points that now reach
//! its end sooner to points that are now reached sooner from its start (the incremental step of Floyd and
//! Warshall). An entry that comes down to a bound of one of its pair's literals is a hit: that literal
//! follows. Each hit so costs one comparison, and its path is read off the table. Searches by Dijkstra after
//! each literal in place of the table took 2.3 times as long, and no propagation at all 4 times.
//!
//! The table has an entry of 32 bytes for each pair, 32 MB for 1,000 points. Beyond 400 points it still pays:
//! open shops and random problems that took over 15 s without it take 1 to 7 s.
use crate::later::Added;
use crate::rows::{Rows, literal_of};
use crate::rungs::{Rung, Rungs};
use crate::tree::{StepNumber, Tree};
use search_guide::{Guide, LiteralNumber};
use std::alloc::{AllocError, Global};

/// The distance of points between which there is no path.
const FAR: i64 = 1 << 61;

/// A distance, and the last step of a path that is so long.
#[derive(Clone, Copy)]
struct Entry {
    distance: i64,
    last: StepNumber,
}

/// An entry as it was before a literal lowered it.
#[derive(Clone, Copy)]
struct Change {
    distance: i64,
    last: StepNumber,
    pair: u32,
}

/// A literal that lowered entries.
#[derive(Clone, Copy)]
struct Step {
    /// its place on the trail
    place: usize,
    /// the row at which its edge begins
    from: usize,
    /// how many changes there were before it
    changes: usize,
}

/// A row, and the distance from it to an edge's start.
#[derive(Clone, Copy)]
struct Origin {
    row: usize,
    distance: i64,
}

/// Distances between points, of which those that only pure literals name are left out.
pub struct Table {
    rows: Rows,
    /// for the pair of a row and another, in this order, the least bound on the second less the first
    entries: Vec<Entry>,
    /// the greatest bound of a literal on the pair
    greatest: Vec<i64>,
    rungs: Rungs,
    /// the changes since the first literal that was decided, and all literals that lowered entries
    changes: Vec<Change>,
    steps: Vec<Step>,
    /// whether literals of the root lowered entries, which can't be taken back one by one
    has_root: bool,
    /// the pairs whose literals follow
    hits: Vec<u32>,
    next_hit: usize,
    forward: Tree,
    backward: Vec<Origin>,
    walk: Vec<usize>,
}

impl Drop for Table {
    fn drop(self) {
        let Table {
            rows,
            entries,
            greatest,
            rungs,
            changes,
            steps,
            has_root: _,
            hits,
            next_hit: _,
            forward,
            backward,
            walk,
        } = self;
        drop(rows);
        drop(entries);
        drop(greatest);
        drop(rungs);
        drop(changes);
        drop(steps);
        drop(hits);
        drop(forward);
        drop(backward);
        drop(walk);
    }
}

/// The pairs' literals, and for each pair the greatest bound.
fn read_rungs(
    alloc: Global,
    guide: &Guide,
    rows: &Rows,
    greatest: &mut [i64],
) -> Result<Vec<Rung>, AllocError> {
    let mut rungs = Vec::new(alloc);
    for number in 0..guide.literals() {
        let Some((number, literal)) = literal_of(guide, number) else {
            continue;
        };
        let Some((from, to)) = rows.ends_of(literal) else {
            continue;
        };
        let pair = pair_of(rows.count(), from, to);
        rungs.push(Rung {
            pair,
            bound: literal.c,
            number,
        })?;
        if let Some(slot) = greatest.get_mut(pair) {
            *slot = (*slot).max(literal.c);
        }
    }
    Ok(rungs)
}

fn pair_of(rows: usize, from: usize, to: usize) -> usize {
    from.wrapping_mul(rows).wrapping_add(to)
}

/// No distance but those from rows to themselves.
fn start(entries: &mut [Entry], rows: usize) {
    for entry in entries.iter_mut() {
        entry.distance = FAR;
    }
    for row in 0..rows {
        if let Some(entry) = entries.get_mut(pair_of(rows, row, row)) {
            entry.distance = 0;
        }
    }
}

/// The entries from a row.
fn entries_from(entries: &[Entry], rows: usize, row: usize) -> &[Entry] {
    let first = pair_of(rows, row, 0);
    match entries.get(first..first.saturating_add(rows)) {
        Some(entries) => entries,
        None => &[],
    }
}

impl Table {
    /// The distances where no literal is in the net, over these rows. The one error is want of memory.
    pub fn new(alloc: Global, guide: &Guide, rows: Rows) -> Result<Self, AllocError> {
        let count = rows.count();
        let pairs = count.wrapping_mul(count);
        let mut greatest = vec![in alloc; i64::MIN; pairs]?;
        let rungs = read_rungs(alloc, guide, &rows, &mut greatest)?;
        let far = Entry {
            distance: FAR,
            last: 0,
        };
        let mut entries = vec![in alloc; far; pairs]?;
        start(&mut entries, count);
        Ok(Table {
            rows,
            entries,
            greatest,
            rungs: Rungs::start(alloc, pairs, rungs)?,
            changes: Vec::new(alloc),
            steps: Vec::new(alloc),
            has_root: false,
            hits: Vec::new(alloc),
            next_hit: 0,
            forward: Tree::new(alloc, count)?,
            backward: Vec::new(alloc),
            walk: Vec::new(alloc),
        })
    }

    fn distance(&self, from: usize, to: usize) -> i64 {
        match self.entries.get(pair_of(self.rows.count(), from, to)) {
            Some(entry) => entry.distance,
            None => FAR,
        }
    }

    /// The literal stands at this place of the trail, behind those that were added before, and is consistent
    /// with them. Its hits are those that `next_hit` answers from now on. The one error is want of memory.
    pub fn add(
        &mut self,
        guide: &Guide,
        number: LiteralNumber,
        place: usize,
    ) -> Result<(), AllocError> {
        self.hits.truncate(0);
        self.next_hit = 0;
        let Some(literal) = guide.literal(number) else {
            return Ok(());
        };
        let Some((from, to)) = self.rows.ends_of(literal) else {
            return Ok(());
        };
        let Ok(step) = StepNumber::try_from(self.steps.len()) else {
            return Ok(());
        };
        if self.distance(from, to) <= literal.c {
            return Ok(());
        }
        let is_root = guide.level(number) == Some(0);
        self.has_root = self.has_root || is_root;
        self.steps.push(Step {
            place,
            from,
            changes: self.changes.len(),
        })?;
        self.reach_forward(from, to, literal.c, step)?;
        self.reach_backward(from, to, literal.c)?;
        for k in 0..self.backward.len() {
            if let Some(start) = self.backward.get(k).copied() {
                self.lower_row(start, is_root)?;
            }
        }
        self.hits.sort_unstable();
        Ok(())
    }

    /// These literals of the trail are all that are in the net. The hits are all literals that follow from them. The one
    /// error is want of memory.
    pub fn fill(&mut self, guide: &Guide, literals: &[Added]) -> Result<(), AllocError> {
        for literal in literals {
            self.add(guide, literal.number, literal.place)?;
        }
        self.hits.truncate(0);
        self.next_hit = 0;
        for (pair, (entry, greatest)) in self.entries.iter().zip(self.greatest.iter()).enumerate() {
            if entry.distance <= *greatest {
                if let Ok(pair) = u32::try_from(pair) {
                    self.hits.push(pair)?;
                }
            }
        }
        Ok(())
    }

    /// The rows that are reached sooner by the edge, with their distances from its start by it.
    fn reach_forward(
        &mut self,
        from: usize,
        to: usize,
        bound: i64,
        step: StepNumber,
    ) -> Result<(), AllocError> {
        self.forward.clear();
        let count = self.rows.count();
        let near = entries_from(&self.entries, count, from);
        let far = entries_from(&self.entries, count, to);
        for (row, (old, behind)) in near.iter().zip(far.iter()).enumerate() {
            let distance = behind.distance.wrapping_add(bound);
            if behind.distance < FAR && distance < old.distance {
                let last = if row == to { step } else { behind.last };
                self.forward.find(row, distance, last)?;
            }
        }
        self.hang_forward();
        self.forward.write(to)
    }

    /// Each of them behind the one before it on its path.
    fn hang_forward(&mut self) {
        for k in 0..self.forward.found().len() {
            let Some(row) = self.forward.found().get(k).copied() else {
                return;
            };
            let Some(last) = self.forward.last(row) else {
                return;
            };
            if let Some(step) = self.steps.get(last as usize) {
                self.forward.hang(row, step.from);
            }
        }
    }

    /// The rows that reach the edge's end sooner, with their distances to its start.
    fn reach_backward(&mut self, from: usize, to: usize, bound: i64) -> Result<(), AllocError> {
        self.backward.truncate(0);
        for row in 0..self.rows.count() {
            let distance = self.distance(row, from);
            if distance < FAR && distance.wrapping_add(bound) < self.distance(row, to) {
                self.backward.push(Origin { row, distance })?;
            }
        }
        Ok(())
    }

    /// Lowers the entries from one row.
    fn lower_row(&mut self, start: Origin, is_root: bool) -> Result<(), AllocError> {
        let order = self.forward.order();
        let Ok(first) = u32::try_from(pair_of(self.rows.count(), start.row, 0)) else {
            return Ok(());
        };
        let mut place = 0;
        for _turn in 0..order.len() {
            let Some(reach) = order.get(place).copied() else {
                return Ok(());
            };
            let pair = first.wrapping_add(reach.row);
            let Some(entry) = self.entries.get_mut(pair as usize) else {
                return Ok(());
            };
            let distance = start.distance.wrapping_add(reach.distance);
            if distance >= entry.distance {
                place = reach.end;
                continue;
            }
            place = place.saturating_add(1);
            if !is_root {
                self.changes.push(Change {
                    distance: entry.distance,
                    last: entry.last,
                    pair,
                })?;
            }
            *entry = Entry {
                distance,
                last: reach.last,
            };
            if let Some(greatest) = self.greatest.get(pair as usize) {
                if distance <= *greatest {
                    self.hits.push(pair)?;
                }
            }
        }
        Ok(())
    }

    /// The places on the trail of the literals of a path that explains the one with the number, the last edge first: so
    /// its negation, followed by them, goes around. Where the table doesn't lead from end to end, what it answers is no
    /// path. The one error is want of memory.
    pub fn path(&mut self, guide: &Guide, number: LiteralNumber) -> Result<&[usize], AllocError> {
        self.walk.truncate(0);
        if let Some((from, to)) = self.rows.ends(guide, number) {
            self.walk_back(from, to)?;
        }
        Ok(&self.walk)
    }

    /// From the second row back to the first, step by step.
    fn walk_back(&mut self, from: usize, to: usize) -> Result<(), AllocError> {
        let entries = entries_from(&self.entries, self.rows.count(), from);
        let mut row = to;
        for _turn in 0..entries.len() {
            if row == from {
                return Ok(());
            }
            let Some(entry) = entries.get(row) else {
                return Ok(());
            };
            let Some(step) = self.steps.get(entry.last as usize) else {
                return Ok(());
            };
            self.walk.push(step.place)?;
            row = step.from;
        }
        Ok(())
    }

    /// The next open literal that follows from the last one that was added, with `path` as its reason.
    pub fn next_hit(&mut self, guide: &Guide) -> Option<LiteralNumber> {
        for k in self.next_hit..self.hits.len() {
            self.next_hit = k + 1;
            let pair = self.hits.get(k).copied()? as usize;
            let distance = self.entries.get(pair)?.distance;
            if let Some(number) = self.rungs.least(pair, distance) {
                if guide.place(number).is_none() && guide.place(Guide::negated(number)).is_none() {
                    return Some(number);
                }
            }
        }
        None
    }

    /// The literals at this place of the trail and beyond leave it: all, or those from one that was decided on.
    /// It takes no memory.
    pub fn retract(&mut self, place: usize) {
        self.hits.truncate(0);
        if place == 0 && self.has_root {
            self.has_root = false;
            self.changes.truncate(0);
            self.steps.truncate(0);
            start(&mut self.entries, self.rows.count());
            return;
        }
        for _step in 0..self.steps.len() {
            match self.steps.last().copied() {
                Some(step) if step.place >= place => {
                    self.take_back(step.changes);
                    self.steps.pop();
                }
                _ => return,
            }
        }
    }

    /// The entries are as they were when there were so many changes.
    fn take_back(&mut self, count: usize) {
        for _change in count..self.changes.len() {
            let Some(change) = self.changes.pop() else {
                return;
            };
            if let Some(entry) = self.entries.get_mut(change.pair as usize) {
                *entry = Entry {
                    distance: change.distance,
                    last: change.last,
                };
            }
        }
    }
}
