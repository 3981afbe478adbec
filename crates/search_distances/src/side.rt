//! A search from one end of an edge: which rows are reached sooner by it than without it (Dijkstra 1959, over
//! bounds that potentials make positive; Johnson 1977).
use crate::edges::Edges;
use search_guide::LiteralNumber;
use std::alloc::{AllocError, Global};
use std::collections::BinaryHeap;

/// A row that may be reached next, the nearest one first, and without the edge before with it.
#[derive(Clone, Copy, PartialEq, Eq, PartialOrd, Ord)]
struct Open {
    /// the distance by positive bounds, its sign turned
    nearness: i64,
    is_old: bool,
    row: usize,
    by: LiteralNumber,
}

/// What is known of a row in this search.
#[derive(Clone, Copy)]
struct Mark {
    /// the number of the search in which the rest was found
    search: u64,
    nearness: i64,
    is_settled: bool,
    is_old: bool,
    by: LiteralNumber,
}

const UNMARKED: Mark = Mark {
    search: 0,
    nearness: i64::MIN,
    is_settled: false,
    is_old: false,
    by: 0,
};

/// A search forward along edges, or backward.
pub struct Side {
    heap: BinaryHeap<Open>,
    marks: Vec<Mark>,
    search: u64,
    /// how many rows that were reached by the edge are still in the heap
    waiting: usize,
    /// the rows that are reached sooner by the edge
    reached: Vec<usize>,
}

impl Drop for Side {
    fn drop(self) {
        let Side {
            heap,
            marks,
            search: _,
            waiting: _,
            reached,
        } = self;
        drop(heap);
        drop(marks);
        drop(reached);
    }
}

impl Side {
    pub fn new(alloc: Global, rows: usize) -> Result<Self, AllocError> {
        Ok(Side {
            heap: BinaryHeap::new(alloc),
            marks: vec![in alloc; UNMARKED; rows]?,
            search: 0,
            waiting: 0,
            reached: Vec::new(alloc),
        })
    }

    pub fn reached(&self) -> &[usize] {
        &self.reached
    }

    /// The distance by positive bounds to a row that is reached sooner by the edge.
    pub fn distance(&self, row: usize) -> Option<i64> {
        match self.marks.get(row) {
            Some(mark) if mark.search == self.search && mark.is_settled && !mark.is_old => {
                Some(mark.nearness.wrapping_neg())
            }
            _ => None,
        }
    }

    /// The edge by which the search came to the row.
    pub fn by(&self, row: usize) -> Option<LiteralNumber> {
        match self.marks.get(row) {
            Some(mark) if mark.search == self.search && mark.is_settled => Some(mark.by),
            _ => None,
        }
    }

    /// Nothing is reached.
    pub fn clear(&mut self) {
        self.search = self.search.saturating_add(1);
        self.heap.clear();
        self.waiting = 0;
        self.reached.truncate(0);
    }

    /// Searches from the row at which the edge with the number begins, in this search's direction, as long as rows are
    /// reached by that edge. Each edge that is looked at takes one of `work`; where none is left, nothing is reached.
    pub fn run(
        &mut self,
        edges: &Edges,
        from: usize,
        edge: LiteralNumber,
        forward: bool,
        work: &mut u64,
    ) -> Result<(), AllocError> {
        self.clear();
        self.offer(Open {
            nearness: 0,
            is_old: true,
            row: from,
            by: edge,
        })?;
        for _turn in 0..usize::MAX {
            let Some(open) = self.heap.pop() else {
                return Ok(());
            };
            if !open.is_old {
                self.waiting = self.waiting.saturating_sub(1);
            }
            if self.settle(open)? && !self.go_on(edges, open, edge, forward, work)? {
                self.clear();
                return Ok(());
            }
            if self.waiting == 0 && open.row != from {
                return Ok(());
            }
        }
        Ok(())
    }

    /// Whether the row is settled only now.
    fn settle(&mut self, open: Open) -> Result<bool, AllocError> {
        let Some(mark) = self.marks.get_mut(open.row) else {
            return Ok(false);
        };
        if mark.is_settled {
            return Ok(false);
        }
        mark.is_settled = true;
        mark.nearness = open.nearness;
        mark.is_old = open.is_old;
        mark.by = open.by;
        if !open.is_old {
            self.reached.push(open.row)?;
        }
        Ok(true)
    }

    /// Goes on along the edges of a row; says whether there was work left for it.
    fn go_on(
        &mut self,
        edges: &Edges,
        open: Open,
        edge: LiteralNumber,
        forward: bool,
        work: &mut u64,
    ) -> Result<bool, AllocError> {
        for next in edges.of(open.row, forward) {
            let Some(left) = work.checked_sub(1) else {
                return Ok(false);
            };
            *work = left;
            let step = edges.reduced(open.row, *next, forward);
            self.offer(Open {
                nearness: open.nearness.saturating_sub(step),
                is_old: open.is_old && next.number != edge,
                row: next.row,
                by: next.number,
            })?;
        }
        Ok(true)
    }

    /// Takes in a row that may be reached next, unless it is reached as well already.
    fn offer(&mut self, open: Open) -> Result<(), AllocError> {
        let Some(mark) = self.marks.get_mut(open.row) else {
            return Ok(());
        };
        if mark.search != self.search {
            *mark = Mark {
                search: self.search,
                ..UNMARKED
            };
        }
        let is_nearer = open.nearness > mark.nearness
            || (open.nearness == mark.nearness && open.is_old && !mark.is_old);
        if mark.is_settled || !is_nearer {
            return Ok(());
        }
        mark.nearness = open.nearness;
        mark.is_old = open.is_old;
        if !open.is_old {
            self.waiting = self.waiting.saturating_add(1);
        }
        self.heap.push(open)?;
        Ok(())
    }
}
