//! Which members of a list are repeated.
ghost use Rattle.std.specs.Prelude.{◌≡◌, ◌<◌, length, slice_get, IfOk, IsTrue};
ghost use Rattle.idl_node.specs.code.Repeats.{place_before, AreBelow, HasRepeats, LeadsBack};

use indexmap::IndexMap;
use std::alloc::{AllocError, Global};

/// The place of the nearest equal item before this one, as far as one was found, or else its own.
pub fn place_before(earlier: &[usize], place: usize) -> usize
    ensures { result ≡ place_before earlier.now place }
{
    if place < earlier.len() {
        earlier[place]
    } else {
        place
    }
}

/// All members are among the first nodes, so many.
fn are_below(members: &[u32], count: usize) -> bool
    ensures { IsTrue result → AreBelow count members.now }
{
    for member in members {
        if *member as usize >= count {
            return false;
        }
    }
    true
}

/// The place of the equal member that may stand there, or else the member's own.
fn place_of_equal(members: &[u32], found: Option<usize>, place: usize) -> usize
    requires { place < length members.now }
    ensures { result < place → slice_get members.now result ≡ slice_get members.now place }
{
    let Some(before) = found else {
        return place;
    };
    if before >= members.len() || members[before] != members[place] {
        return place;
    }
    before
}

/// Of each member the place of the nearest equal one before it, or else its own. None is looked for where there is one pair, or where
/// a member isn't among the first `count` nodes.
pub(crate) fn repeats(
    alloc: Global,
    members: &[u32],
    count: usize,
) -> Result<Vec<usize>, AllocError>
    ensures leads { IfOk result (λ earlier. LeadsBack members.now earlier.items) }
    ensures below { IfOk result (λ earlier. HasRepeats earlier.items → AreBelow count members.now) }
{
    let mut earlier = Vec::new(alloc);
    if members.len() < 3 || !are_below(members, count) {
        return Ok(earlier);
    }
    let mut latest = IndexMap::new(alloc);
    for (i, member) in members.iter().enumerate() {
        let found = latest.insert(*member, i)?;
        earlier.push(place_of_equal(members, found, i))?;
    }
    Ok(earlier)
}
