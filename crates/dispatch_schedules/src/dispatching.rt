//! Points placed one after the other.
use crate::bounds::Bounds;
use crate::shop::Shop;
use std::alloc::{AllocError, Global};

/// Of two points the one with the less of this is placed first: its value, less some hundredths of its urgency, and then the more urgent one.
#[derive(Clone, Copy, PartialEq, Eq, PartialOrd, Ord)]
struct Rank {
    weighed: i64,
    negated_urgency: i64,
}

/// A point with a deadline is more urgent than one without.
const PRESSING: i64 = 1 << 40;

/// How urgent each point is: the work behind it in a chain of unit clauses, and what a deadline at the chain's end presses, those that are sooner more.
pub(crate) fn urgencies(
    alloc: Global,
    shop: &Shop,
    starts: &[i64],
) -> Result<Vec<i64>, AllocError> {
    let mut order = Vec::with_capacity(alloc, shop.points)?;
    for point in 0..shop.points {
        let start = starts.get(point).copied().unwrap_or(0);
        order.push((start, point))?;
    }
    order.sort_unstable();
    let mut urgencies = vec![in alloc; 0i64; shop.points]?;
    for place in (0..order.len()).rev() {
        let Some((_, point)) = order.get(place).copied() else {
            continue;
        };
        let urgency = urgency_of(shop, &urgencies, point);
        if let Some(slot) = urgencies.get_mut(point) {
            *slot = urgency;
        }
    }
    Ok(urgencies)
}

fn urgency_of(shop: &Shop, urgencies: &[i64], point: usize) -> i64 {
    let mut urgency = 0i64;
    for gap in shop.units.behind(point) {
        let next = gap.to as usize;
        if next == shop.origin {
            urgency = urgency.max(PRESSING.saturating_add(gap.length));
        } else if gap.length > 0 {
            let behind = urgencies.get(next).copied().unwrap_or(0);
            urgency = urgency.max(behind.saturating_add(gap.length));
        }
    }
    urgency
}

fn rank_of(bounds: &Bounds, urgencies: &[i64], point: usize, weight: i64) -> Rank {
    let urgency = urgencies.get(point).copied().unwrap_or(0);
    let value = bounds.value(point).saturating_mul(100);
    Rank {
        weighed: value.saturating_sub(urgency.saturating_mul(weight)),
        negated_urgency: 0i64.saturating_sub(urgency),
    }
}

/// The point that is placed next.
fn next_of(shop: &Shop, bounds: &Bounds, urgencies: &[i64], weight: i64) -> Option<usize> {
    let mut next = None;
    let mut least = Rank {
        weighed: i64::MAX,
        negated_urgency: i64::MAX,
    };
    for point in 0..shop.points {
        if !bounds.is_placed(point) {
            let rank = rank_of(bounds, urgencies, point, weight);
            if next.is_none() || rank < least {
                least = rank;
                next = Some(point);
            }
        }
    }
    next
}

/// Values by the rule that weighs urgency so, if there are any before the budget is spent.
pub(crate) fn dispatch(
    alloc: Global,
    shop: &Shop,
    starts: &[i64],
    urgencies: &[i64],
    weight: i64,
) -> Result<Option<Vec<i64>>, AllocError> {
    let mut bounds = Bounds::new(alloc, shop, starts)?;
    for _turn in 0..shop.points {
        let Some(point) = next_of(shop, &bounds, urgencies, weight) else {
            break;
        };
        if !bounds.place(shop, point)? {
            return Ok(None);
        }
    }
    Ok(Some(bounds.into_values()))
}

/// How far the values miss a unit clause at most, 0 where they miss none.
pub(crate) fn lateness(shop: &Shop, values: &[i64]) -> i64 {
    let mut most = 0i64;
    for gap in shop.units.as_slice() {
        let from = values.get(gap.from as usize).copied().unwrap_or(0);
        let to = values.get(gap.to as usize).copied().unwrap_or(0);
        most = most.max(from.saturating_add(gap.length).saturating_sub(to));
    }
    most
}
