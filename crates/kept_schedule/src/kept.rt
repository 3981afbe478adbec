//! The schedule that is kept.
ghost use Rattle.std.specs.Prelude.{◌+◌, ◌≡◌, length, IfOk, IfSome, OnOk};
ghost use Rattle.idl_node.specs.Tables.{IsTableOver};
ghost use Rattle.kept_schedule.specs.Satisfying.{IsScheduleOf};

use crate::guessing::{guess, newest_fail};
use crate::naming::{guess_of, named_by, settle_zero};
use crate::raising::Known;
use crate::sweeping::Sweeper;
use crate::testing::are_true;
use crate::wanting::Wanted;
use idl_node::{Nodes, Sort};
use std::alloc::{AllocError, Global};
use std::mem::swap;
use stn_core::{NamedValue, NamedValues};

/// How often literals are chosen anew.
const ROUNDS: u32 = 4;

/// Values of the time points that an earlier question left, and room for what is tried of them.
pub struct KeptSchedule {
    alloc: Global,
    // the zero point's first, which is 0; none where nothing is kept
    values: Vec<i64>,
    // the same, changed
    tried: Vec<i64>,
    marks: Vec<bool>,
    wanted: Wanted,
    sweeper: Sweeper,
    known: Known,
}

impl Drop for KeptSchedule {
    fn drop(self) {
        let KeptSchedule {
            alloc: _,
            values,
            tried,
            marks,
            wanted,
            sweeper,
            known,
        } = self;
        drop(values);
        drop(tried);
        drop(marks);
        drop(wanted);
        drop(sweeper);
        drop(known);
    }
}

impl KeptSchedule {
    /// Nothing is kept. It takes no memory yet.
    pub fn new(alloc: Global) -> Self {
        KeptSchedule {
            alloc,
            values: Vec::new(alloc),
            tried: Vec::new(alloc),
            marks: Vec::new(alloc),
            wanted: Wanted::new(alloc),
            sweeper: Sweeper::new(alloc),
            known: Known::new(alloc),
        }
    }

    /// Whether nothing is kept.
    pub fn is_empty(&self) -> bool {
        self.values.is_empty()
    }

    /// Keeps this schedule in place of what was kept.
    pub fn keep(&mut self, schedule: &[NamedValue]) -> Result<(), AllocError> {
        self.values.clear();
        self.values.push(0)?;
        for named in schedule {
            self.values.push(guess_of(*named))?;
        }
        Ok(())
    }

    /// The values that are kept, the zero point's first; none where nothing is kept.
    pub fn values(&self) -> &[i64] {
        &self.values
    }

    /// Where the last look for a schedule ended with points that lowered one another in a ring: for each of them by which one it was. The literals
    /// between them have no schedule.
    pub fn noted(&self) -> &[u32] {
        self.sweeper.noted()
    }

    /// Begins with the values that are kept, one for each point, and with a mark for each node.
    fn begin(&mut self, points: usize, nodes: usize) -> Result<(), AllocError>
        ensures { OnOk result (length self.new.marks.items ≡ nodes) }
    {
        self.tried.clear();
        self.tried.extend_from_slice(&self.values)?;
        self.tried.resize(points, 0)?;
        self.marks.resize(nodes, false)?;
        self.sweeper.forget();
        Ok(())
    }

    /// A schedule on which the roots are true, where a few steps lead to one from what is kept: points are lowered along the
    /// atoms that fail. It takes time and memory of the order of the table for each of a few rounds. Whatever it gives was tested, and is kept.
    pub fn satisfying(
        &mut self,
        nodes: &Nodes,
        roots: &[u32],
        sorts: &[Sort],
    ) -> Result<Option<NamedValues>, AllocError>
        requires { IsTableOver (length sorts.now + 1) nodes.now }
        ensures { IfOk result (λ found. IfSome found (IsScheduleOf nodes.now roots.now sorts.now)) }
    {
        let table = nodes.as_slice();
        self.begin(sorts.len() + 1, table.len())?;
        let mut fails = newest_fail(table, roots, &self.tried)
            && !self.known.raise_newest(table, roots, &mut self.tried);
        for _round in 0..ROUNDS {
            if fails {
                guess(table, &self.tried, &mut self.marks);
                fails = false;
            } else {
                let named = named_by(self.alloc, &self.tried, sorts)?;
                if are_true(nodes, roots, &named, &mut self.marks) {
                    swap(&mut self.values, &mut self.tried);
                    return Ok(Some(named));
                }
            }
            self.wanted.want(table, roots, &self.marks)?;
            self.known.learn(sorts.len() + 1, &self.wanted.literals)?;
            if !self.sweeper.settle(&mut self.tried, &self.wanted.literals)? {
                return Ok(None);
            }
            settle_zero(&mut self.tried);
        }
        Ok(None)
    }
}
