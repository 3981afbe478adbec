//! Orders made better, one pair turned round at a time: one on a longest way to a missed deadline, where it begins or ends a run of points that all exclude
//! one another, since only such turns can shorten the way; and not one that was turned lately.
//!
//! Source: Nowicki and Smutnicki, "A fast taboo search algorithm for the job shop problem", Management Science 42 (1996); what a turn comes to is estimated as in
//! Taillard, "Parallel taboo search techniques for the job shop scheduling problem", ORSA Journal on Computing 6 (1994).
use crate::orders::{Next, Orders};
use crate::shop::Shop;
use std::alloc::{AllocError, Global};

/// So many turns at most, and so many without a better schedule.
const MOST_TURNS: usize = 5_000;

const MOST_IN_VAIN: usize = 500;

/// So much work for all of them, in gaps that are looked at.
const MOST_WORK: usize = 100_000_000;

/// A pair isn't turned back for at least so many turns, and for up to as many more.
const TENURE: usize = 8;

/// A point on a longest way, and the pair by which it follows the one before.
#[derive(Clone, Copy)]
struct Stop {
    point: usize,
    by: Option<usize>,
}

/// The longest way to the point, from its end.
fn way_to(
    alloc: Global,
    orders: &Orders<'_>,
    end: usize,
    points: usize,
) -> Result<Vec<Stop>, AllocError> {
    let mut way = Vec::new(alloc);
    let mut point = end;
    for _turn in 0..points {
        let before = orders.pressing(point);
        let by = match before {
            Some((_, by)) => by,
            None => None,
        };
        way.push(Stop { point, by })?;
        match before {
            Some((before, _)) => point = before,
            None => break,
        }
    }
    Ok(way)
}

/// Whether the stop's pair and the one before it are of points that all exclude one another.
fn runs_on(orders: &Orders<'_>, way: &[Stop], place: usize) -> bool {
    let Some(stop) = way.get(place) else {
        return false;
    };
    let Some(before) = way.get(place.saturating_add(1)) else {
        return false;
    };
    let Some(first) = way.get(place.saturating_add(2)) else {
        return false;
    };
    stop.by.is_some() && before.by.is_some() && orders.are_pair(first.point, stop.point)
}

/// The pairs on the way that begin or end a run.
fn moves_on(alloc: Global, orders: &Orders<'_>, way: &[Stop]) -> Result<Vec<usize>, AllocError> {
    let mut moves = Vec::new(alloc);
    for (place, stop) in way.iter().enumerate() {
        if let Some(pair) = stop.by {
            let is_begun = runs_on(orders, way, place);
            let goes_on = match place.checked_sub(1) {
                Some(behind) => runs_on(orders, way, behind),
                None => false,
            };
            if !is_begun || !goes_on {
                moves.push(pair)?;
            }
        }
    }
    Ok(moves)
}

/// How late its two points would be with the pair turned round.
fn estimate(orders: &Orders<'_>, pair: usize, back: i64) -> i64 {
    let Some(
        (
            first,
            Next {
                point: second,
                length: _,
            },
        ),
    ) = orders.ends_of(pair)
    else {
        return i64::MAX;
    };
    let second_head = orders.head_without(second, pair);
    let first_head = orders
        .head_without(first, pair)
        .max(second_head.saturating_add(back));
    let first_tail = orders.tail_without(first, pair);
    let second_tail = orders
        .tail_without(second, pair)
        .max(first_tail.saturating_add(back));
    second_head
        .saturating_add(second_tail)
        .max(first_head.saturating_add(first_tail))
}

/// Turns that are forbidden for a while.
struct Forbidden {
    /// for each pair and direction up to which turn
    until: Vec<usize>,
}

impl Drop for Forbidden {
    fn drop(self) {
        let Forbidden { until } = self;
        drop(until);
    }
}

/// The place of a pair and whether it is turned to the direction in which the first has the smaller number.
fn place_of(pair: usize, is_forth: bool) -> usize {
    let place = pair.saturating_mul(2);
    if is_forth {
        place.saturating_add(1)
    } else {
        place
    }
}

impl Forbidden {
    fn is_forbidden(&self, pair: usize, is_forth: bool, turn: usize) -> bool {
        match self.until.get(place_of(pair, is_forth)) {
            Some(until) => *until > turn,
            None => false,
        }
    }

    fn forbid(&mut self, pair: usize, is_forth: bool, turn: usize) {
        if let Some(until) = self.until.get_mut(place_of(pair, is_forth)) {
            let more = turn.wrapping_mul(7) % TENURE;
            *until = turn.saturating_add(TENURE).saturating_add(more);
        }
    }
}

/// The turn that comes to the least lateness, without those that are forbidden unless they are better than the best so far.
fn choose(
    shop: &Shop,
    orders: &Orders<'_>,
    forbidden: &Forbidden,
    moves: &[usize],
    turn: usize,
    best: i64,
) -> Option<usize> {
    let mut chosen = None;
    let mut least = i64::MAX;
    for pair in moves {
        let Some((first, next)) = orders.ends_of(*pair) else {
            continue;
        };
        let late = estimate(orders, *pair, shop.length_of(next.point, first));
        let back = !orders.is_forth(*pair);
        if forbidden.is_forbidden(*pair, back, turn) && late >= best {
            continue;
        }
        if late < least {
            least = late;
            chosen = Some(*pair);
        }
    }
    match chosen {
        Some(pair) => Some(pair),
        None => moves.get(turn % moves.len().max(1)).copied(),
    }
}

/// How many turns the work is enough for.
fn turns_for(shop: &Shop) -> usize {
    let pairs = shop.pairs.as_slice().len();
    let units = shop.units.as_slice().len();
    let work = pairs.saturating_add(units).saturating_mul(2).max(1);
    (MOST_WORK / work).min(MOST_TURNS)
}

/// Orders that are made better.
struct Improving<'a> {
    shop: &'a Shop,
    orders: Orders<'a>,
    forbidden: Forbidden,
    /// how late the latest point is, now and at best
    late: i64,
    best: i64,
    /// the values with which it is that, where these aren't those it began with
    found: Option<Vec<i64>>,
    /// how many turns there were since
    in_vain: usize,
}

impl Drop for Improving<'_> {
    fn drop(self) {
        let Improving {
            shop: _,
            orders,
            forbidden,
            late: _,
            best: _,
            found,
            in_vain: _,
        } = self;
        drop(orders);
        drop(forbidden);
        drop(found);
    }
}

impl Improving<'_> {
    /// The pair that is turned next.
    fn next(&self, alloc: Global, turn: usize) -> Result<Option<usize>, AllocError> {
        let Some(end) = self.orders.latest(self.late) else {
            return Ok(None);
        };
        let way = way_to(alloc, &self.orders, end, self.shop.points)?;
        let moves = moves_on(alloc, &self.orders, &way)?;
        Ok(choose(
            self.shop,
            &self.orders,
            &self.forbidden,
            &moves,
            turn,
            self.best,
        ))
    }

    /// Notes the orders as they are now.
    fn note(&mut self, alloc: Global, late: i64) -> Result<(), AllocError> {
        self.late = late;
        self.in_vain = self.in_vain.saturating_add(1);
        if late < self.best {
            self.best = late;
            self.in_vain = 0;
            self.found = Some(Vec::from_slice(alloc, &self.orders.heads)?);
        }
        Ok(())
    }

    /// Turns one pair round; whether there was one.
    fn turn_one(&mut self, alloc: Global, turn: usize) -> Result<bool, AllocError> {
        let Some(pair) = self.next(alloc, turn)? else {
            return Ok(false);
        };
        let is_forth = self.orders.is_forth(pair);
        self.forbidden.forbid(pair, is_forth, turn);
        self.orders.turn(pair);
        let Some(late) = self.orders.settle()? else {
            return Ok(false);
        };
        self.note(alloc, late)?;
        Ok(true)
    }
}

/// Values that miss deadlines by less than these, if some are found.
pub(crate) fn improved(
    alloc: Global,
    shop: &Shop,
    values: &[i64],
) -> Result<Option<Vec<i64>>, AllocError> {
    let mut orders = Orders::new(alloc, shop, values)?;
    let Some(late) = orders.settle()? else {
        return Ok(None);
    };
    let until = vec![in alloc; 0usize; orders.len().saturating_mul(2)]?;
    let mut improving = Improving {
        shop,
        orders,
        forbidden: Forbidden { until },
        late,
        best: late,
        found: None,
        in_vain: 0,
    };
    for turn in 0..turns_for(shop) {
        let is_over = improving.best <= 0 || improving.in_vain > MOST_IN_VAIN;
        if is_over || !improving.turn_one(alloc, turn)? {
            break;
        }
    }
    Ok(improving.found.take())
}
