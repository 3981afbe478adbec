//! The clauses that don't hold, as a set from which one is drawn, and what each clause weighs.
use crate::clauses::narrow;
use std::alloc::{AllocError, Global};

/// Where a clause stands that holds.
const NOWHERE: u32 = u32::MAX;

pub struct Violated {
    /// those that don't hold, in any order
    clauses: Vec<u32>,
    /// for each clause its place among them
    places: Vec<u32>,
    weights: Vec<u32>,
}

impl Drop for Violated {
    fn drop(self) {
        let Violated {
            clauses,
            places,
            weights,
        } = self;
        drop(clauses);
        drop(places);
        drop(weights);
    }
}

impl Violated {
    /// None of so many clauses, each of which weighs 1.
    pub fn new(alloc: Global, count: usize) -> Result<Self, AllocError> {
        Ok(Violated {
            clauses: Vec::with_capacity(alloc, count)?,
            places: vec![in alloc; NOWHERE; count]?,
            weights: vec![in alloc; 1u32; count]?,
        })
    }

    /// How many there are.
    pub fn count(&self) -> usize {
        self.clauses.len()
    }

    /// Whether the clause is one of them.
    pub fn has(&self, clause: usize) -> bool {
        match self.places.get(clause) {
            Some(place) => *place != NOWHERE,
            None => false,
        }
    }

    /// What the clause weighs.
    pub fn weight(&self, clause: usize) -> i64 {
        i64::from(self.weights.get(clause).copied().unwrap_or(0))
    }

    /// One of them, by a number that is drawn.
    pub fn drawn(&self, number: u64) -> Option<usize> {
        let count = self.clauses.len() as u64;
        let place = number.checked_rem(count)? as usize;
        let clause = self.clauses.get(place).copied()?;
        Some(clause as usize)
    }

    /// The clause holds from now on, or doesn't.
    pub fn set(&mut self, clause: usize, holds: bool) -> Result<(), AllocError> {
        if holds == !self.has(clause) {
            return Ok(());
        }
        if holds {
            self.remove(clause);
        } else {
            let count = self.clauses.len();
            self.put(clause, narrow(count));
            self.clauses.push(narrow(clause))?;
        }
        Ok(())
    }

    // The clause's place.
    fn put(&mut self, clause: usize, place: u32) {
        if let Some(slot) = self.places.get_mut(clause) {
            *slot = place;
        }
    }

    // The last one takes the clause's place.
    fn remove(&mut self, clause: usize) {
        let place = self.places.get(clause).copied().unwrap_or(NOWHERE);
        self.put(clause, NOWHERE);
        let Some(last) = self.clauses.pop() else {
            return;
        };
        if let Some(slot) = self.clauses.get_mut(place as usize) {
            *slot = last;
            self.put(last as usize, place);
        }
    }

    /// Each of them weighs one more.
    pub fn raise(&mut self) {
        for clause in self.clauses.iter() {
            if let Some(weight) = self.weights.get_mut(*clause as usize) {
                *weight = weight.saturating_add(1);
            }
        }
    }

    /// Each clause that weighs more than 1 weighs one less.
    pub fn lower(&mut self) {
        for weight in self.weights.iter_mut() {
            if *weight > 1 {
                *weight -= 1;
            }
        }
    }
}
