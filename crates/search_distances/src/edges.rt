//! The literals of the net as edges between rows, with potentials: values of the rows on which all hold.
use crate::rows::Rows;
use search_guide::{Guide, LiteralNumber};
use std::alloc::{AllocError, Global};
use std::collections::BinaryHeap;

/// An edge to a row, or from one, as the list says in which it stands.
#[derive(Clone, Copy)]
pub struct Edge {
    pub row: usize,
    pub bound: i64,
    pub number: LiteralNumber,
}

/// A row whose potential is too great by so much.
#[derive(Clone, Copy, PartialEq, Eq, PartialOrd, Ord)]
struct Fall {
    by: i64,
    row: usize,
}

/// The place on the trail of a literal, and its edge's ends.
#[derive(Clone, Copy)]
struct Step {
    place: usize,
    from: usize,
    to: usize,
}

pub struct Edges {
    leaving: Vec<Vec<Edge>>,
    arriving: Vec<Vec<Edge>>,
    steps: Vec<Step>,
    potentials: Vec<i64>,
    falls: BinaryHeap<Fall>,
    /// the number of the change in which a row's potential fell last
    fallen: Vec<u64>,
    change: u64,
}

impl Drop for Edges {
    fn drop(self) {
        let Edges {
            leaving,
            arriving,
            steps,
            potentials,
            falls,
            fallen,
            change: _,
        } = self;
        drop(leaving);
        drop(arriving);
        drop(steps);
        drop(potentials);
        drop(falls);
        drop(fallen);
    }
}

fn empty(alloc: Global, rows: usize) -> Result<Vec<Vec<Edge>>, AllocError> {
    let mut lists = Vec::with_capacity(alloc, rows)?;
    for _row in 0..rows {
        lists.push(Vec::new(alloc))?;
    }
    Ok(lists)
}

fn push(lists: &mut [Vec<Edge>], row: usize, edge: Edge) -> Result<(), AllocError> {
    match lists.get_mut(row) {
        Some(list) => Ok(list.push(edge)?),
        None => Ok(()),
    }
}

fn pop(lists: &mut [Vec<Edge>], row: usize) {
    if let Some(list) = lists.get_mut(row) {
        list.pop();
    }
}

impl Edges {
    pub fn new(alloc: Global, rows: usize) -> Result<Self, AllocError> {
        Ok(Edges {
            leaving: empty(alloc, rows)?,
            arriving: empty(alloc, rows)?,
            steps: Vec::new(alloc),
            potentials: vec![in alloc; 0; rows]?,
            falls: BinaryHeap::new(alloc),
            fallen: vec![in alloc; 0; rows]?,
            change: 0,
        })
    }

    /// The edges that leave the row, or those that arrive there.
    pub fn of(&self, row: usize, leaving: bool) -> &[Edge] {
        let lists = if leaving {
            &self.leaving
        } else {
            &self.arriving
        };
        match lists.get(row) {
            Some(list) => list.as_slice(),
            None => &[],
        }
    }

    pub fn potential(&self, row: usize) -> i64 {
        match self.potentials.get(row) {
            Some(potential) => *potential,
            None => 0,
        }
    }

    /// The bound of an edge at the row, less by what the potentials differ: at least 0.
    pub fn reduced(&self, row: usize, edge: Edge, leaving: bool) -> i64 {
        let (from, to) = if leaving {
            (row, edge.row)
        } else {
            (edge.row, row)
        };
        let sum = self.potential(from).saturating_add(edge.bound);
        sum.saturating_sub(self.potential(to)).max(0)
    }

    /// The literal stands at this place of the trail, behind those that were added before, and is consistent with
    /// them. The one error is want of memory.
    pub fn add(
        &mut self,
        from: usize,
        to: usize,
        bound: i64,
        number: LiteralNumber,
        place: usize,
    ) -> Result<(), AllocError> {
        self.steps.push(Step { place, from, to })?;
        push(
            &mut self.leaving,
            from,
            Edge {
                row: to,
                bound,
                number,
            },
        )?;
        push(
            &mut self.arriving,
            to,
            Edge {
                row: from,
                bound,
                number,
            },
        )?;
        self.change = self.change.saturating_add(1);
        self.falls.clear();
        self.lower(from, to, bound)?;
        self.fall_on()
    }

    /// Notes by how much the edge wants its end's potential lower.
    fn lower(&mut self, from: usize, to: usize, bound: i64) -> Result<(), AllocError> {
        let most = self.potential(from).saturating_add(bound);
        let by = self.potential(to).saturating_sub(most);
        if by > 0
            && self
                .fallen
                .get(to)
                .is_some_and(|change| *change < self.change)
        {
            self.falls.push(Fall { by, row: to })?;
        }
        Ok(())
    }

    /// Lowers what has to fall, the greatest fall first: so each row falls once (Cotton, Maler 2006).
    fn fall_on(&mut self) -> Result<(), AllocError> {
        for _turn in 0..usize::MAX {
            let Some(fall) = self.falls.pop() else {
                return Ok(());
            };
            if !self.falls_now(fall) {
                continue;
            }
            for k in 0..self.of(fall.row, true).len() {
                if let Some(edge) = self.of(fall.row, true).get(k).copied() {
                    self.lower(fall.row, edge.row, edge.bound)?;
                }
            }
        }
        Ok(())
    }

    /// Whether the row's potential falls only now.
    fn falls_now(&mut self, fall: Fall) -> bool {
        let (Some(change), Some(potential)) = (
            self.fallen.get_mut(fall.row),
            self.potentials.get_mut(fall.row),
        ) else {
            return false;
        };
        if *change >= self.change {
            return false;
        }
        *change = self.change;
        *potential = potential.saturating_sub(fall.by);
        true
    }

    /// The literals at this place of the trail and beyond leave it. It takes no memory.
    pub fn retract(&mut self, place: usize) {
        for _step in 0..self.steps.len() {
            match self.steps.last().copied() {
                Some(step) if step.place >= place => {
                    pop(&mut self.leaving, step.from);
                    pop(&mut self.arriving, step.to);
                    self.steps.pop();
                }
                _ => return,
            }
        }
    }
}

/// The numbers of the literals that lead from each row, or to each, with the weaker of two on the same rows behind.
pub struct Bounds {
    numbers: Vec<LiteralNumber>,
    starts: Vec<usize>,
}

impl Drop for Bounds {
    fn drop(self) {
        let Bounds { numbers, starts } = self;
        drop(numbers);
        drop(starts);
    }
}

/// A literal among those of its row.
#[derive(Clone, Copy, PartialEq, Eq, PartialOrd, Ord)]
struct Entry {
    row: usize,
    other: usize,
    bound: i64,
    number: LiteralNumber,
}

fn entries(
    alloc: Global,
    guide: &Guide,
    rows: &Rows,
    leaving: bool,
) -> Result<Vec<Entry>, AllocError> {
    let mut entries = Vec::new(alloc);
    for number in 0..guide.literals() {
        let Some((number, literal)) = crate::rows::literal_of(guide, number) else {
            continue;
        };
        if let Some((from, to)) = rows.ends_of(literal) {
            let (row, other) = if leaving { (from, to) } else { (to, from) };
            entries.push(Entry {
                row,
                other,
                bound: literal.c,
                number,
            })?;
        }
    }
    entries.sort_unstable();
    Ok(entries)
}

impl Bounds {
    pub fn of(
        alloc: Global,
        guide: &Guide,
        rows: &Rows,
        leaving: bool,
    ) -> Result<Self, AllocError> {
        let entries = entries(alloc, guide, rows, leaving)?;
        let mut starts = vec![in alloc; entries.len(); rows.count().saturating_add(1)]?;
        let mut numbers = Vec::with_capacity(alloc, entries.len())?;
        let mut next = 0;
        for (place, entry) in entries.iter().enumerate() {
            for row in next..entry.row.saturating_add(1) {
                if let Some(start) = starts.get_mut(row) {
                    *start = place;
                }
            }
            next = entry.row.saturating_add(1);
            numbers.push(entry.number)?;
        }
        Ok(Bounds { numbers, starts })
    }

    fn start_of(&self, row: usize) -> usize {
        match self.starts.get(row) {
            Some(start) => *start,
            None => self.numbers.len(),
        }
    }

    pub fn at(&self, row: usize) -> &[LiteralNumber] {
        let low = self.start_of(row);
        let high = self.start_of(row.saturating_add(1));
        match self.numbers.get(low..high) {
            Some(numbers) => numbers,
            None => &[],
        }
    }
}
