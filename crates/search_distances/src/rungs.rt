//! For each pair of rows the literals that bound their difference, by their bounds.
use search_guide::LiteralNumber;
use std::alloc::{AllocError, Global};

/// A literal that bounds the difference of the pair of this number.
#[derive(Clone, Copy, PartialEq, Eq, PartialOrd, Ord)]
pub struct Rung {
    pub pair: usize,
    pub bound: i64,
    pub number: LiteralNumber,
}

pub struct Rungs {
    /// by pairs and bounds
    rungs: Vec<Rung>,
    /// for each pair where its rungs begin
    starts: Vec<usize>,
}

impl Drop for Rungs {
    fn drop(self) {
        let Rungs { rungs, starts } = self;
        drop(rungs);
        drop(starts);
    }
}

impl Rungs {
    /// The rungs of so many pairs.
    pub fn start(alloc: Global, pairs: usize, rungs: Vec<Rung>) -> Result<Self, AllocError> {
        let mut rungs = rungs;
        rungs.sort_unstable();
        let mut starts = vec![in alloc; rungs.len(); pairs.saturating_add(1)]?;
        let mut next = 0;
        for (place, rung) in rungs.iter().enumerate() {
            for pair in next..rung.pair.saturating_add(1) {
                if let Some(start) = starts.get_mut(pair) {
                    *start = place;
                }
            }
            next = rung.pair.saturating_add(1);
        }
        Ok(Rungs { rungs, starts })
    }

    fn start_of(&self, pair: usize) -> usize {
        match self.starts.get(pair) {
            Some(start) => *start,
            None => self.rungs.len(),
        }
    }

    /// The literal with the least bound of the pair that is at least so great.
    pub fn least(&self, pair: usize, distance: i64) -> Option<LiteralNumber> {
        let mut low = self.start_of(pair);
        let mut high = self.start_of(pair.saturating_add(1));
        for _turn in 0..usize::BITS {
            if low >= high {
                break;
            }
            let middle = low + (high - low) / 2;
            match self.rungs.get(middle) {
                Some(rung) if rung.bound < distance => low = middle + 1,
                _ => high = middle,
            }
        }
        match self.rungs.get(low) {
            Some(rung) if rung.pair == pair && rung.bound >= distance => Some(rung.number),
            _ => None,
        }
    }
}
