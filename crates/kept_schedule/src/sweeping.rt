//! Time points lowered along literals that fail.
use crate::naming::value_at;
use std::alloc::{AllocError, Global};
use stn_core::Literal;

/// How often the literals are gone over at most.
const SWEEPS: u32 = 40;

/// How often they are gone over before it is noted by which point each was lowered.
const PLAIN_SWEEPS: u32 = 2;

/// No point.
const NONE: u32 = u32::MAX;

/// What is gone over until all of it holds, and by which point each one was lowered last.
pub struct Sweeper {
    lowered_by: Vec<u32>,
    // on which way from point to point each one was met, from 1
    met: Vec<usize>,
    // the ring of these, where one was found, else all of them
    noted: Vec<u32>,
}

impl Drop for Sweeper {
    fn drop(self) {
        let Sweeper {
            lowered_by,
            met,
            noted,
        } = self;
        drop(lowered_by);
        drop(met);
        drop(noted);
    }
}

/// Lowers the literal's first point to where the literal holds, where it fails, and says whether it did.
fn lower(values: &mut [i64], literal: Literal) -> bool {
    let most = value_at(values, literal.y as usize).saturating_add(literal.c);
    match values.get_mut(literal.x as usize) {
        Some(slot) if *slot > most => {
            *slot = most;
            true
        }
        _ => false,
    }
}

/// Goes over all of them, and says whether one failed.
fn sweep(values: &mut [i64], literals: &[Literal], backwards: bool) -> bool {
    let mut failed = false;
    for k in 0..literals.len() {
        let place = if backwards { literals.len() - 1 - k } else { k };
        if lower(values, literals[place]) {
            failed = true;
        }
    }
    failed
}

impl Sweeper {
    /// It takes no memory yet.
    pub fn new(alloc: Global) -> Self {
        Sweeper {
            lowered_by: Vec::new(alloc),
            met: Vec::new(alloc),
            noted: Vec::new(alloc),
        }
    }

    /// Nothing is noted any more.
    pub fn forget(&mut self) {
        self.noted.clear();
    }

    /// Where points lowered one another in a ring: for each of them by which one it was.
    pub fn noted(&self) -> &[u32] {
        self.noted.as_slice()
    }

    /// The same, and it is noted by which point each was lowered.
    fn noted_sweep(&mut self, values: &mut [i64], literals: &[Literal], backwards: bool) -> bool {
        let mut failed = false;
        for k in 0..literals.len() {
            let place = if backwards { literals.len() - 1 - k } else { k };
            let literal = literals[place];
            if lower(values, literal) {
                failed = true;
                if let Some(slot) = self.lowered_by.get_mut(literal.x as usize) {
                    *slot = literal.y;
                }
            }
        }
        failed
    }

    /// The way from this point to what lowered it, and on: a point of the ring, where it comes back to itself.
    fn ring_from(&mut self, start: usize) -> Option<usize> {
        let way = start.saturating_add(1);
        let mut point = start;
        for _step in 0..self.lowered_by.len() {
            match self.met.get_mut(point) {
                Some(slot) if *slot == 0 => *slot = way,
                Some(slot) if *slot == way => return Some(point),
                _ => return None,
            }
            match self.lowered_by.get(point) {
                Some(next) if *next != NONE => point = *next as usize,
                _ => return None,
            }
        }
        None
    }

    /// Notes the ring that this point is of.
    fn note(&mut self, start: usize) -> Result<(), AllocError> {
        self.noted.resize(self.lowered_by.len(), NONE)?;
        let mut point = start;
        for _step in 0..self.lowered_by.len() {
            let (Some(slot), Some(next)) = (self.noted.get_mut(point), self.lowered_by.get(point))
            else {
                return Ok(());
            };
            if *slot == *next {
                return Ok(());
            }
            *slot = *next;
            point = *next as usize;
        }
        Ok(())
    }

    /// Whether some points lowered one another in a ring, which is noted then: no values make all literals hold.
    fn is_ringed(&mut self) -> Result<bool, AllocError> {
        self.met.clear();
        self.met.resize(self.lowered_by.len(), 0)?;
        for start in 0..self.lowered_by.len() {
            if let Some(point) = self.ring_from(start) {
                self.note(point)?;
                return Ok(true);
            }
        }
        Ok(false)
    }

    /// Goes over the literals forth and back until all hold, and says whether they do; it gives up where points lower one another in a
    /// ring, and where that was often enough.
    pub fn settle(&mut self, values: &mut [i64], literals: &[Literal]) -> Result<bool, AllocError> {
        for turn in 0..PLAIN_SWEEPS {
            if !sweep(values, literals, turn % 2 == 1) {
                return Ok(true);
            }
        }
        self.lowered_by.clear();
        self.lowered_by.resize(values.len(), NONE)?;
        for turn in PLAIN_SWEEPS..SWEEPS {
            if !self.noted_sweep(values, literals, turn % 2 == 1) {
                return Ok(true);
            }
            if self.is_ringed()? {
                return Ok(false);
            }
        }
        Ok(false)
    }
}
