//! New indices of clauses, where some of the last ones go and the others close up.
use crate::numbers::narrow;
use std::alloc::{AllocError, Global};

pub struct Closing {
    first: usize,
    /// for each clause from the first on its index then, if it stays
    places: Vec<Option<u32>>,
}

impl Drop for Closing {
    fn drop(self) {
        let Closing { first: _, places } = self;
        drop(places);
    }
}

impl Closing {
    /// From the first clause on those stay that are kept.
    pub fn new(alloc: Global, first: usize, kept: &[bool]) -> Result<Self, AllocError> {
        let mut places = Vec::with_capacity(alloc, kept.len())?;
        let mut next = first;
        for is_kept in kept {
            if *is_kept {
                places.push(Some(narrow(next)))?;
                next = next.saturating_add(1);
            } else {
                places.push(None)?;
            }
        }
        Ok(Closing { first, places })
    }

    /// The clause's index then.
    pub fn place(&self, clause: u32) -> Option<u32> {
        let index = clause as usize;
        if index < self.first {
            return Some(clause);
        }
        match self.places.get(index - self.first) {
            Some(place) => *place,
            None => None,
        }
    }
}
