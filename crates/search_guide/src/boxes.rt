//! Points that unit clauses bound to an interval, and of which clauses say that one stands before the other. Where
//! more of them than the interval has values are pairwise apart, there is no schedule (Hall 1935).
use std::alloc::{AllocError, Global};
use std::collections::HashMap;
use stn_core::{Clause, Literal, Problem};

/// An interval of more values isn't looked at.
const MOST_RANGE: u32 = 12;

/// Points that are pairwise apart, one more than there are values above the origin for them.
#[derive(Drop)]
pub struct Overfull {
    pub origin: u32,
    /// the least value, and how much more the greatest is
    pub lower: i64,
    pub range: u32,
    pub points: Vec<u32>,
}

/// A point with its bounds above the origin.
#[derive(Clone, Copy, PartialEq, Eq, PartialOrd, Ord)]
struct Boxed {
    lower: i64,
    upper: i64,
    point: u32,
}

/// Two points that are apart, by their places among those with bounds, the smaller one first.
#[derive(Clone, Copy, PartialEq, Eq, PartialOrd, Ord, Hash)]
pub struct Pair {
    pub one: u32,
    pub other: u32,
}

pub fn pair_of(one: u32, other: u32) -> Pair {
    if one < other {
        Pair { one, other }
    } else {
        Pair {
            one: other,
            other: one,
        }
    }
}

/// Such points of the problem, the first ones that are found.
pub fn find(alloc: Global, problem: &Problem) -> Result<Option<Overfull>, AllocError> {
    let clauses = problem.clauses.as_slice();
    let units = units_of(alloc, clauses)?;
    let origin = origin_of(alloc, problem.points, &units)?;
    let boxes = boxes_of(alloc, problem.points, &units, origin)?;
    if boxes.is_empty() {
        return Ok(None);
    }
    let pairs = pairs_of(alloc, clauses, problem.points, &boxes)?;
    match overfull_box(alloc, &boxes, &pairs)? {
        Some((first, points)) => Ok(Some(Overfull {
            origin,
            lower: first.lower,
            range: range_of(first),
            points,
        })),
        None => Ok(None),
    }
}

/// How much the greatest value is more than the least.
fn range_of(boxed: Boxed) -> u32 {
    let range = boxed.upper.saturating_sub(boxed.lower);
    if (0..i64::from(MOST_RANGE)).contains(&range) {
        range as u32
    } else {
        MOST_RANGE
    }
}

/// The literals of clauses that have one alone.
pub fn units_of(alloc: Global, clauses: &[Clause]) -> Result<Vec<Literal>, AllocError> {
    let mut units = Vec::new(alloc);
    for clause in clauses {
        if let [unit] = clause.as_slice() {
            units.push(*unit)?;
        }
    }
    Ok(units)
}

/// The point that most unit clauses name.
pub fn origin_of(alloc: Global, points: u32, units: &[Literal]) -> Result<u32, AllocError> {
    let mut counts = vec![in alloc; 0u32; points as usize]?;
    for unit in units {
        for point in [unit.x, unit.y] {
            if let Some(count) = counts.get_mut(point as usize) {
                *count = count.saturating_add(1);
            }
        }
    }
    let mut origin = 0u32;
    let mut most = 0;
    let mut point = 0u32;
    for count in &counts {
        if *count > most {
            most = *count;
            origin = point;
        }
        point = point.saturating_add(1);
    }
    Ok(origin)
}

/// The points that units bound on both sides to few values, in the order of their bounds.
fn boxes_of(
    alloc: Global,
    points: u32,
    units: &[Literal],
    origin: u32,
) -> Result<Vec<Boxed>, AllocError> {
    let mut lowers = vec![in alloc; i64::MIN; points as usize]?;
    let mut uppers = vec![in alloc; i64::MAX; points as usize]?;
    for unit in units {
        if unit.y == origin {
            if let Some(upper) = uppers.get_mut(unit.x as usize) {
                *upper = unit.c.min(*upper);
            }
        } else if unit.x == origin {
            if let Some(lower) = lowers.get_mut(unit.y as usize) {
                *lower = 0i64.saturating_sub(unit.c).max(*lower);
            }
        }
    }
    let mut boxes = Vec::new(alloc);
    let mut point = 0u32;
    for (lower, upper) in lowers.iter().zip(uppers.iter()) {
        let range = upper.saturating_sub(*lower);
        if 0 <= range && range <= i64::from(MOST_RANGE) {
            boxes.push(Boxed {
                lower: *lower,
                upper: *upper,
                point,
            })?;
        }
        point = point.saturating_add(1);
    }
    boxes.sort_unstable();
    Ok(boxes)
}

/// The pairs of points with bounds of which one stands before the other, by a clause.
fn pairs_of(
    alloc: Global,
    clauses: &[Clause],
    points: u32,
    boxes: &[Boxed],
) -> Result<Vec<Pair>, AllocError> {
    let mut places = vec![in alloc; None; points as usize]?;
    let mut place = 0u32;
    for boxed in boxes {
        if let Some(slot) = places.get_mut(boxed.point as usize) {
            *slot = Some(place);
        }
        place = place.saturating_add(1);
    }
    let mut pairs = Vec::new(alloc);
    for clause in clauses {
        if let [one, other] = clause.as_slice() {
            if one.x == other.y && one.y == other.x && one.c < 0 && other.c < 0 {
                let one_place = places.get(one.x as usize).copied().flatten();
                let other_place = places.get(one.y as usize).copied().flatten();
                if let (Some(one), Some(other)) = (one_place, other_place) {
                    pairs.push(pair_of(one, other))?;
                }
            }
        }
    }
    pairs.sort_unstable();
    Ok(pairs)
}

/// The first box that more points within it than it has values are pairwise apart in, and these points.
fn overfull_box(
    alloc: Global,
    boxes: &[Boxed],
    pairs: &[Pair],
) -> Result<Option<(Boxed, Vec<u32>)>, AllocError> {
    let mut apart = HashMap::new(alloc);
    for pair in pairs {
        apart.insert(*pair, ())?;
    }
    let mut members = Vec::new(alloc);
    let mut start = None;
    for pair in pairs {
        if start != Some(pair.one) {
            start = Some(pair.one);
            members.truncate(0);
            members.push(pair.one)?;
        }
        let first = boxes.get(pair.one as usize).copied();
        let next = boxes.get(pair.other as usize).copied();
        let (Some(first), Some(next)) = (first, next) else {
            continue;
        };
        if next.upper <= first.upper && is_apart(&members, pair.other, &apart) {
            members.push(pair.other)?;
        }
        if members.len() as u64 == u64::from(range_of(first)) + 2 {
            return Ok(Some((first, points_of(alloc, boxes, &members)?)));
        }
    }
    Ok(None)
}

/// Whether the point is apart from each of these.
fn is_apart(members: &[u32], place: u32, apart: &HashMap<Pair, ()>) -> bool {
    members
        .iter()
        .all(|member| apart.get(&pair_of(*member, place)).is_some())
}

fn points_of(alloc: Global, boxes: &[Boxed], members: &[u32]) -> Result<Vec<u32>, AllocError> {
    let mut points = Vec::with_capacity(alloc, members.len())?;
    for place in members {
        if let Some(boxed) = boxes.get(*place as usize) {
            points.push(boxed.point)?;
        }
    }
    Ok(points)
}
