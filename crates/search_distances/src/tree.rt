//! The rows that an edge brings nearer to its start, as the tree of the shortest paths from its end. A row before the
//! edge that isn't brought nearer to one of them isn't to those behind that one either: a walk over the tree leaves
//! these out, so that it looks at few entries that stay.
use std::alloc::{AllocError, Global};

/// The number of a literal among those that lowered entries.
pub type StepNumber = u32;

/// A row that is reached sooner by the edge.
#[derive(Clone, Copy)]
pub struct Reach {
    pub row: u32,
    /// the last step of the path
    pub last: StepNumber,
    /// the distance from the edge's start
    pub distance: i64,
    /// the place behind all rows behind it
    pub end: usize,
}

/// How a row hangs in the tree.
#[derive(Clone, Copy)]
struct Link {
    distance: i64,
    last: StepNumber,
    /// the first row next behind it
    child: Option<usize>,
    /// the next one behind the same row
    sibling: Option<usize>,
}

const UNLINKED: Link = Link {
    distance: 0,
    last: 0,
    child: None,
    sibling: None,
};

/// What of the tree is still to be written.
#[derive(Clone, Copy)]
enum Open {
    /// the row, and those behind it
    Row(usize),
    /// the end of the rows behind the one at the place
    End(usize),
}

pub struct Tree {
    /// each row before those behind it
    order: Vec<Reach>,
    links: Vec<Link>,
    /// the rows in the order in which they were found
    found: Vec<usize>,
    open: Vec<Open>,
}

impl Drop for Tree {
    fn drop(self) {
        let Tree {
            order,
            links,
            found,
            open,
        } = self;
        drop(order);
        drop(links);
        drop(found);
        drop(open);
    }
}

impl Tree {
    pub fn new(alloc: Global, rows: usize) -> Result<Self, AllocError> {
        Ok(Tree {
            order: Vec::new(alloc),
            links: vec![in alloc; UNLINKED; rows]?,
            found: Vec::new(alloc),
            open: Vec::new(alloc),
        })
    }

    /// Each row before those behind it.
    pub fn order(&self) -> &[Reach] {
        &self.order
    }

    /// The rows that were found.
    pub fn found(&self) -> &[usize] {
        &self.found
    }

    /// No row is found.
    pub fn clear(&mut self) {
        self.found.truncate(0);
    }

    /// The row is reached sooner.
    pub fn find(&mut self, row: usize, distance: i64, last: StepNumber) -> Result<(), AllocError> {
        let Some(link) = self.links.get_mut(row) else {
            return Ok(());
        };
        *link = Link {
            distance,
            last,
            ..UNLINKED
        };
        Ok(self.found.push(row)?)
    }

    /// The last step to a row that was found.
    pub fn last(&self, row: usize) -> Option<StepNumber> {
        match self.links.get(row) {
            Some(link) => Some(link.last),
            None => None,
        }
    }

    /// The row hangs behind another.
    pub fn hang(&mut self, row: usize, before: usize) {
        let Some(parent) = self.links.get_mut(before) else {
            return;
        };
        let sibling = parent.child;
        parent.child = Some(row);
        if let Some(link) = self.links.get_mut(row) {
            link.sibling = sibling;
        }
    }

    /// Writes the order of the rows that hang from a root, itself with them.
    pub fn write(&mut self, root: usize) -> Result<(), AllocError> {
        self.order.truncate(0);
        self.open.truncate(0);
        self.open.push(Open::Row(root))?;
        for _turn in 0..self.found.len().saturating_mul(2) {
            match self.open.pop() {
                Some(Open::Row(row)) => self.write_row(row)?,
                Some(Open::End(place)) => self.end_row(place),
                None => return Ok(()),
            }
        }
        Ok(())
    }

    fn write_row(&mut self, row: usize) -> Result<(), AllocError> {
        let (Some(link), Ok(number)) = (self.links.get(row).copied(), u32::try_from(row)) else {
            return Ok(());
        };
        let place = self.order.len();
        self.order.push(Reach {
            row: number,
            last: link.last,
            distance: link.distance,
            end: place.saturating_add(1),
        })?;
        if link.child.is_none() {
            return Ok(());
        }
        self.open.push(Open::End(place))?;
        let mut next = link.child;
        for _child in 0..self.found.len() {
            let Some(child) = next else {
                return Ok(());
            };
            self.open.push(Open::Row(child))?;
            next = match self.links.get(child) {
                Some(link) => link.sibling,
                None => None,
            };
        }
        Ok(())
    }

    fn end_row(&mut self, place: usize) {
        let end = self.order.len();
        if let Some(reach) = self.order.get_mut(place) {
            reach.end = end;
        }
    }
}
