//! The best of what some rules give.
use crate::bounds::Bounds;
use crate::dispatching::{dispatch, lateness, urgencies};
use crate::improving::improved;
use crate::shop::{Shop, shop_of};
use std::alloc::{AllocError, Global};
use stn_core::{Problem, Value};

/// By how many hundredths of its urgency a point may go before one that can start first: each rule's weight. Rules are tried as long as they miss a
/// deadline.
const WEIGHTS: [i64; 8] = [0, 2, 5, 10, 15, 20, 30, 50];

/// With fewer points a search takes less time than better orders do.
const LEAST_IMPROVED: usize = 200;

/// The values of the rule that misses unit clauses by the least, if there are any.
fn best(alloc: Global, shop: &Shop) -> Result<Option<Vec<i64>>, AllocError> {
    let zeros = vec![in alloc; 0i64; shop.points]?;
    let mut bounds = Bounds::new(alloc, shop, &zeros)?;
    if !bounds.start(shop)? {
        return Ok(None);
    }
    let starts = bounds.into_values();
    let urgencies = urgencies(alloc, shop, &starts)?;
    let mut best = None;
    let mut least = i64::MAX;
    for weight in WEIGHTS {
        let Some(values) = dispatch(alloc, shop, &starts, &urgencies, weight)? else {
            break;
        };
        let late = lateness(shop, &values);
        if late < least {
            least = late;
            best = Some(values);
        }
        if least == 0 {
            break;
        }
    }
    Ok(best)
}

/// The values less the greatest of them.
fn below_zero(alloc: Global, values: &[i64]) -> Result<Vec<Value>, AllocError> {
    let mut greatest = i64::MIN;
    for value in values {
        greatest = greatest.max(*value);
    }
    let mut below = Vec::with_capacity(alloc, values.len())?;
    for value in values {
        let difference = Value::from(*value).saturating_sub(Value::from(greatest));
        below.push(difference)?;
    }
    Ok(below)
}

/// Values of the problem's points by dispatching, of which the greatest is 0; where they miss deadlines of chains of points, with orders made better. None where its clauses of several literals aren't mostly pairs of points
/// that exclude one another, or there are too many points. It takes time in the square of the points and some
/// fifty times that of the clauses, and for better orders at most a tenth of a second or two.
pub fn dispatched(alloc: Global, problem: &Problem) -> Result<Option<Vec<Value>>, AllocError> {
    let Some(shop) = shop_of(alloc, problem)? else {
        return Ok(None);
    };
    let Some(values) = best(alloc, &shop)? else {
        return Ok(None);
    };
    if shop.points >= LEAST_IMPROVED && shop.has_chains() && lateness(&shop, &values) > 0 {
        if let Some(better) = improved(alloc, &shop, &values)? {
            return Ok(Some(below_zero(alloc, &better)?));
        }
    }
    Ok(Some(below_zero(alloc, &values)?))
}
