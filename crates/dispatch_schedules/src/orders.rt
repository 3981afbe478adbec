//! An order of each pair of points that exclude one another, and the earliest and latest values that go with it.
use crate::gaps::{Gap, Gaps};
use crate::shop::Shop;
use std::alloc::{AllocError, Global};

/// No deadline is behind the point.
const FREE: i64 = -(1 << 40);

/// Two points that exclude one another.
#[derive(Clone, Copy)]
struct Pair {
    one: usize,
    other: usize,
    /// how far the other stands behind the one where that is first, and the reverse
    forth: i64,
    back: i64,
    is_forth: bool,
}

/// A point that stands next to another one, by so much.
#[derive(Clone, Copy)]
pub(crate) struct Next {
    pub point: usize,
    pub length: i64,
}

pub(crate) struct Orders<'a> {
    shop: &'a Shop,
    /// the gaps of unit clauses from the points behind
    before: Gaps,
    pairs: Vec<Pair>,
    /// the numbers of each point's pairs, and for each point where they end
    incident: Vec<usize>,
    ends: Vec<usize>,
    /// the earliest value of each point
    pub heads: Vec<i64>,
    /// how much has to come behind each point's value, with the deadlines
    pub tails: Vec<i64>,
    /// how many points each waits for
    waits: Vec<u32>,
    /// points that wait for none that isn't in front of them here
    order: Vec<usize>,
}

impl Drop for Orders<'_> {
    fn drop(self) {
        let Orders {
            shop: _,
            before,
            pairs,
            incident,
            ends,
            heads,
            tails,
            waits,
            order,
        } = self;
        drop(before);
        drop(pairs);
        drop(incident);
        drop(ends);
        drop(heads);
        drop(tails);
        drop(waits);
        drop(order);
    }
}

/// The gaps the other way.
fn reversed(alloc: Global, gaps: &[Gap]) -> Result<Vec<Gap>, AllocError> {
    let mut all = Vec::with_capacity(alloc, gaps.len())?;
    for gap in gaps {
        all.push(Gap {
            from: gap.to,
            to: gap.from,
            length: gap.length,
        })?;
    }
    Ok(all)
}

/// The pairs of the shop, in the order in which the values have them.
fn pairs_of(alloc: Global, shop: &Shop, values: &[i64]) -> Result<Vec<Pair>, AllocError> {
    let mut pairs = Vec::new(alloc);
    for gap in shop.pairs.as_slice() {
        if gap.from < gap.to {
            let (one, other) = (gap.from as usize, gap.to as usize);
            let first = values.get(one).copied().unwrap_or(0);
            let second = values.get(other).copied().unwrap_or(0);
            pairs.push(Pair {
                one,
                other,
                forth: gap.length,
                back: shop.length_of(other, one),
                is_forth: first < second,
            })?;
        }
    }
    Ok(pairs)
}

/// The numbers of each point's pairs, and for each point where they end.
fn incidences(
    alloc: Global,
    pairs: &[Pair],
    points: usize,
) -> Result<(Vec<usize>, Vec<usize>), AllocError> {
    let mut all = Vec::with_capacity(alloc, pairs.len().saturating_mul(2))?;
    for (number, pair) in pairs.iter().enumerate() {
        all.push((pair.one, number))?;
        all.push((pair.other, number))?;
    }
    all.sort_unstable();
    let mut incident = Vec::with_capacity(alloc, all.len())?;
    let mut ends = vec![in alloc; 0usize; points]?;
    for (point, number) in &all {
        incident.push(*number)?;
        if let Some(end) = ends.get_mut(*point) {
            *end = incident.len();
        }
    }
    let mut last = 0;
    for end in ends.iter_mut() {
        last = last.max(*end);
        *end = last;
    }
    Ok((incident, ends))
}

impl<'a> Orders<'a> {
    /// The orders that the values have.
    pub fn new(alloc: Global, shop: &'a Shop, values: &[i64]) -> Result<Self, AllocError> {
        let backward = reversed(alloc, shop.units.as_slice())?;
        let pairs = pairs_of(alloc, shop, values)?;
        let (incident, ends) = incidences(alloc, &pairs, shop.points)?;
        Ok(Orders {
            shop,
            before: Gaps::new(alloc, backward, shop.points)?,
            pairs,
            incident,
            ends,
            heads: vec![in alloc; 0i64; shop.points]?,
            tails: vec![in alloc; 0i64; shop.points]?,
            waits: vec![in alloc; 0u32; shop.points]?,
            order: Vec::with_capacity(alloc, shop.points)?,
        })
    }

    /// How many pairs there are.
    pub fn len(&self) -> usize {
        self.pairs.len()
    }

    pub fn head(&self, point: usize) -> i64 {
        self.heads.get(point).copied().unwrap_or(0)
    }

    fn tail(&self, point: usize) -> i64 {
        self.tails.get(point).copied().unwrap_or(FREE)
    }

    /// The numbers of the point's pairs.
    pub fn pairs_at(&self, point: usize) -> &[usize] {
        let start = match point.checked_sub(1) {
            Some(before) => self.ends.get(before).copied().unwrap_or(0),
            None => 0,
        };
        let end = self.ends.get(point).copied().unwrap_or(0);
        self.incident.get(start..end).unwrap_or(&[])
    }

    /// The first and the second point of the pair, and how far they are apart.
    pub fn ends_of(&self, pair: usize) -> Option<(usize, Next)> {
        let pair = self.pairs.get(pair)?;
        if pair.is_forth {
            let next = Next {
                point: pair.other,
                length: pair.forth,
            };
            Some((pair.one, next))
        } else {
            let next = Next {
                point: pair.one,
                length: pair.back,
            };
            Some((pair.other, next))
        }
    }

    /// Whether the first of the pair has the smaller number.
    pub fn is_forth(&self, pair: usize) -> bool {
        match self.pairs.get(pair) {
            Some(pair) => pair.is_forth,
            None => false,
        }
    }

    /// Turns the pair round.
    pub fn turn(&mut self, pair: usize) {
        if let Some(pair) = self.pairs.get_mut(pair) {
            pair.is_forth = !pair.is_forth;
        }
    }

    /// The point behind this one by the pair, if that is the first.
    fn behind_by(&self, pair: usize, point: usize) -> Option<Next> {
        let (first, next) = self.ends_of(pair)?;
        if first == point { Some(next) } else { None }
    }

    /// The point before this one by the pair, if that is the second.
    fn before_by(&self, pair: usize, point: usize) -> Option<Next> {
        let (first, next) = self.ends_of(pair)?;
        if next.point == point {
            Some(Next {
                point: first,
                length: next.length,
            })
        } else {
            None
        }
    }

    /// The earliest value of the point by those of the others, without the pair.
    pub fn head_without(&self, point: usize, pair: usize) -> i64 {
        let mut head = 0i64;
        for gap in self.before.behind(point) {
            head = head.max(self.head(gap.to as usize).saturating_add(gap.length));
        }
        for number in self.pairs_at(point) {
            if *number != pair {
                if let Some(next) = self.before_by(*number, point) {
                    head = head.max(self.head(next.point).saturating_add(next.length));
                }
            }
        }
        head
    }

    /// How much has to come behind the point by the others, without the pair.
    pub fn tail_without(&self, point: usize, pair: usize) -> i64 {
        let mut tail = FREE;
        for gap in self.shop.units.behind(point) {
            let behind = if gap.to as usize == self.shop.origin {
                0
            } else {
                self.tail(gap.to as usize)
            };
            tail = tail.max(behind.saturating_add(gap.length));
        }
        for number in self.pairs_at(point) {
            if *number != pair {
                if let Some(next) = self.behind_by(*number, point) {
                    tail = tail.max(self.tail(next.point).saturating_add(next.length));
                }
            }
        }
        tail
    }

    /// What comes directly before the point on a longest way, if something does: the point there, and the pair that it comes by.
    pub fn pressing(&self, point: usize) -> Option<(usize, Option<usize>)> {
        let head = self.head(point);
        for number in self.pairs_at(point) {
            if let Some(next) = self.before_by(*number, point) {
                if self.head(next.point).saturating_add(next.length) == head {
                    return Some((next.point, Some(*number)));
                }
            }
        }
        for gap in self.before.behind(point) {
            let before = gap.to as usize;
            if before != self.shop.origin && self.head(before).saturating_add(gap.length) == head {
                return Some((before, None));
            }
        }
        None
    }

    /// Of each point how many it waits for, and first those that wait for none.
    fn count_waits(&mut self) -> Result<(), AllocError> {
        for wait in self.waits.iter_mut() {
            *wait = 0;
        }
        for gap in self.shop.units.as_slice() {
            if gap.from as usize != self.shop.origin {
                if let Some(wait) = self.waits.get_mut(gap.to as usize) {
                    *wait = wait.saturating_add(1);
                }
            }
        }
        for pair in &self.pairs {
            let second = if pair.is_forth { pair.other } else { pair.one };
            if let Some(wait) = self.waits.get_mut(second) {
                *wait = wait.saturating_add(1);
            }
        }
        self.order.clear();
        for (point, wait) in self.waits.iter().enumerate() {
            if *wait == 0 && point != self.shop.origin {
                self.order.push(point)?;
            }
        }
        Ok(())
    }

    /// The point waits for one less.
    fn wait_less(&mut self, point: usize) -> Result<(), AllocError> {
        if let Some(wait) = self.waits.get_mut(point) {
            *wait = wait.saturating_sub(1);
            if *wait == 0 && point != self.shop.origin {
                self.order.push(point)?;
            }
        }
        Ok(())
    }

    /// The points behind this one wait for one less.
    fn pass(&mut self, point: usize) -> Result<(), AllocError> {
        let shop = self.shop;
        for gap in shop.units.behind(point) {
            self.wait_less(gap.to as usize)?;
        }
        for place in 0..self.pairs_at(point).len() {
            let number = self.pairs_at(point).get(place).copied();
            if let Some(number) = number {
                if let Some(next) = self.behind_by(number, point) {
                    self.wait_less(next.point)?;
                }
            }
        }
        Ok(())
    }

    /// Finds heads and tails anew. It answers how late the latest point is, less than 1 where none is late; nothing where points wait for one another.
    pub fn settle(&mut self) -> Result<Option<i64>, AllocError> {
        self.count_waits()?;
        if let Some(head) = self.heads.get_mut(self.shop.origin) {
            *head = 0;
        }
        for place in 0..self.shop.points {
            let Some(point) = self.order.get(place).copied() else {
                break;
            };
            let head = self.head_without(point, usize::MAX);
            if let Some(slot) = self.heads.get_mut(point) {
                *slot = head;
            }
            self.pass(point)?;
        }
        if self.order.len().saturating_add(1) < self.shop.points {
            return Ok(None);
        }
        let mut late = FREE;
        for place in (0..self.order.len()).rev() {
            let Some(point) = self.order.get(place).copied() else {
                continue;
            };
            let tail = self.tail_without(point, usize::MAX);
            if let Some(slot) = self.tails.get_mut(point) {
                *slot = tail;
            }
            late = late.max(self.head(point).saturating_add(tail));
        }
        Ok(Some(late))
    }

    /// The point whose deadline is missed by so much.
    pub fn latest(&self, late: i64) -> Option<usize> {
        for gap in self.before.behind(self.shop.origin) {
            let point = gap.to as usize;
            if self.head(point).saturating_add(gap.length) == late {
                return Some(point);
            }
        }
        None
    }

    /// Whether the two points are a pair.
    pub fn are_pair(&self, one: usize, other: usize) -> bool {
        self.shop.length_of(one, other) > 0
    }
}
