//! The least values of points while some of them are placed.
use crate::shop::Shop;
use std::alloc::{AllocError, Global};

pub(crate) struct Bounds {
    values: Vec<i64>,
    /// whether the point keeps its value
    placed: Vec<bool>,
    /// the points whose values rose
    risen: Vec<usize>,
    /// how many of them may still be looked at
    budget: usize,
}

impl Drop for Bounds {
    fn drop(self) {
        let Bounds {
            values,
            placed,
            risen,
            budget: _,
        } = self;
        drop(values);
        drop(placed);
        drop(risen);
    }
}

impl Bounds {
    /// These values, of which the origin keeps its own.
    pub fn new(alloc: Global, shop: &Shop, values: &[i64]) -> Result<Self, AllocError> {
        let gaps = shop
            .units
            .as_slice()
            .len()
            .saturating_add(shop.pairs.as_slice().len());
        let mut placed = vec![in alloc; false; shop.points]?;
        if let Some(is_placed) = placed.get_mut(shop.origin) {
            *is_placed = true;
        }
        Ok(Bounds {
            values: Vec::from_slice(alloc, values)?,
            placed,
            risen: Vec::new(alloc),
            budget: gaps.saturating_mul(50),
        })
    }

    pub fn value(&self, point: usize) -> i64 {
        self.values.get(point).copied().unwrap_or(0)
    }

    pub fn is_placed(&self, point: usize) -> bool {
        self.placed.get(point).copied().unwrap_or(true)
    }

    /// The point's value is at least this one, unless it is placed.
    fn raise(&mut self, point: usize, value: i64) -> Result<(), AllocError> {
        if self.is_placed(point) {
            return Ok(());
        }
        if let Some(slot) = self.values.get_mut(point) {
            if value > *slot {
                *slot = value;
                self.risen.push(point)?;
            }
        }
        Ok(())
    }

    /// The points behind this one by unit clauses.
    fn push_on(&mut self, shop: &Shop, point: usize) -> Result<(), AllocError> {
        let value = self.value(point);
        for gap in shop.units.behind(point) {
            self.raise(gap.to as usize, value.saturating_add(gap.length))?;
        }
        Ok(())
    }

    /// All that follows from values that rose; whether the budget was enough.
    fn settle(&mut self, shop: &Shop) -> Result<bool, AllocError> {
        for _turn in 0..self.budget {
            let Some(point) = self.risen.pop() else {
                return Ok(true);
            };
            self.budget = self.budget.saturating_sub(1);
            self.push_on(shop, point)?;
        }
        Ok(false)
    }

    /// What follows from unit clauses alone; whether the budget was enough.
    pub fn start(&mut self, shop: &Shop) -> Result<bool, AllocError> {
        for point in 0..shop.points {
            self.risen.push(point)?;
        }
        self.settle(shop)
    }

    /// The point keeps its value, and those that exclude it come behind it; whether the budget was enough.
    pub fn place(&mut self, shop: &Shop, point: usize) -> Result<bool, AllocError> {
        if let Some(is_placed) = self.placed.get_mut(point) {
            *is_placed = true;
        }
        let value = self.value(point);
        for gap in shop.pairs.behind(point) {
            self.raise(gap.to as usize, value.saturating_add(gap.length))?;
        }
        self.push_on(shop, point)?;
        self.settle(shop)
    }

    pub fn into_values(self) -> Vec<i64> {
        let Bounds {
            values,
            placed,
            risen,
            budget: _,
        } = self;
        drop(placed);
        drop(risen);
        values
    }
}
