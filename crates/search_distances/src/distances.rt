//! Which literals follow by the distances between points: by a table for as many points as the guide's policy says, else by
//! a search for each literal.
//!
//! Of a large table each literal may lower many entries, and these are kept as they were for the way back. A search that ends in
//! a few descents is over sooner without it. So a large one is made only when the search has gone back some times, and the later where
//! there are very many literals, where descents are long and the table would be most of the time and the memory. A small one is made at
//! once: random problems need it from their first conflict on.
use crate::later::Later;
use crate::rows::Rows;
use crate::searches::Searches;
use crate::table::Table;
use search_guide::{Guide, LiteralNumber};
use std::alloc::{AllocError, Global};

/// An absolute value of distances is below this.
const DISTANCE_LIMIT: u64 = 1 << 60;

/// A table of at most so many rows is small.
const FEW_ROWS: usize = 400;

#[derive(Drop)]
enum Way {
    /// There is no table yet.
    Later(Later),
    Table(Table),
    Searches(Searches),
}

/// Distances between points, of which those that only pure literals name are left out.
pub struct Distances {
    alloc: Global,
    points: u32,
    way: Way,
}

impl Drop for Distances {
    fn drop(self) {
        let Distances {
            alloc: _,
            points: _,
            way,
        } = self;
        drop(way);
    }
}

impl Distances {
    /// The distances where no literal is in the net, over the points of the guide's literals that aren't pure. There
    /// are none where a distance might leave 60 bits, or where the policy wants none. The one error is want of memory.
    pub fn new(alloc: Global, guide: &Guide, points: u32) -> Result<Option<Self>, AllocError> {
        let rows = Rows::of(alloc, guide, points)?;
        let most = guide.policy().most_rows;
        if rows.count() == 0 || most == 0 || rows.longest() >= DISTANCE_LIMIT {
            return Ok(None);
        }
        let way = if rows.count() > most {
            Way::Searches(Searches::new(alloc, guide, rows)?)
        } else if rows.count() <= FEW_ROWS || guide.has_plan() {
            Way::Table(Table::new(alloc, guide, rows)?)
        } else {
            Way::Later(Later::new(alloc, rows.count(), guide.is_vast()))
        };
        Ok(Some(Distances { alloc, points, way }))
    }

    /// The literal stands at this place of the trail, behind those that were added before, and is consistent
    /// with them. Its hits are those that `next_hit` answers from now on. The one error is want of memory.
    pub fn add(
        &mut self,
        guide: &Guide,
        number: LiteralNumber,
        place: usize,
    ) -> Result<(), AllocError> {
        let is_due = match &mut self.way {
            Way::Later(later) => later.add(number, place)?,
            Way::Table(table) => return table.add(guide, number, place),
            Way::Searches(searches) => return searches.add(guide, number, place),
        };
        if is_due {
            self.make_table(guide)?;
        }
        Ok(())
    }

    /// Makes the table, with all literals that are in the net; none where a distance might leave 60 bits by a literal
    /// that is new since the start.
    fn make_table(&mut self, guide: &Guide) -> Result<(), AllocError> {
        let Way::Later(later) = &self.way else {
            return Ok(());
        };
        let rows = Rows::of(self.alloc, guide, self.points)?;
        if rows.longest() < DISTANCE_LIMIT {
            let mut table = Table::new(self.alloc, guide, rows)?;
            table.fill(guide, later.added())?;
            self.way = Way::Table(table);
        }
        Ok(())
    }

    /// The next open literal that follows from the last one that was added, with `path` as its reason.
    pub fn next_hit(&mut self, guide: &Guide) -> Option<LiteralNumber> {
        match &mut self.way {
            Way::Later(_) => None,
            Way::Table(table) => table.next_hit(guide),
            Way::Searches(searches) => searches.next_hit(guide),
        }
    }

    /// The places on the trail of the literals of a path that explains the one with the number, the last edge first: so
    /// its negation, followed by them, goes around. Where the distances don't lead from end to end, what it answers is
    /// no path. The one error is want of memory.
    pub fn path(&mut self, guide: &Guide, number: LiteralNumber) -> Result<&[usize], AllocError> {
        match &mut self.way {
            Way::Later(_) => Ok(&[]),
            Way::Table(table) => table.path(guide, number),
            Way::Searches(searches) => searches.path(guide, number),
        }
    }

    /// The literals at this place of the trail and beyond leave it: all, or those from one that was decided on.
    /// It takes no memory.
    pub fn retract(&mut self, place: usize) {
        match &mut self.way {
            Way::Later(later) => later.retract(place),
            Way::Table(table) => table.retract(place),
            Way::Searches(searches) => searches.retract(place),
        }
    }
}
