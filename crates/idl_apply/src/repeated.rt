//! Which of several Int terms are repeated.
ghost use Rattle.std.specs.Prelude.{◌≡◌, ◌<◌, length, map, slice_get, IfOk, IfSome};
ghost use Rattle.idl_node.specs.code.Repeats.{HasRepeats, LeadsBack};
ghost use Rattle.idl_apply.specs.code.Repeats.{AreGuarded};

use idl_cases::{CASES_LIMIT, Cases};
use indexmap::IndexMap;
use std::alloc::{AllocError, Global};

/// A fingerprint of each term. There are none where a guard isn't among the first `count` nodes, or where two terms have too many
/// cases to be compared.
fn fingerprints(
    alloc: Global,
    terms: &[&Cases],
    count: usize,
) -> Result<Option<Vec<u64>>, AllocError>
    ensures { IfOk result (λ found. IfSome found (λ _. AreGuarded count (map (λ t. t.now) terms.now))) }
{
    let mut found = Vec::new(alloc);
    let mut most = 0;
    for term in terms {
        if term.len().saturating_mul(most) > CASES_LIMIT {
            return Ok(None);
        }
        most = term.len().max(most);
        let Some(fingerprint) = term.fingerprint(count) else {
            return Ok(None);
        };
        found.push(fingerprint)?;
    }
    Ok(Some(found))
}

/// The place of the equal term that may stand there, or else the term's own.
fn place_of_equal(terms: &[&Cases], found: Option<usize>, place: usize) -> usize
    requires { place < length terms.now }
    ensures { result < place → slice_get (map (λ t. t.now) terms.now) result ≡ slice_get (map (λ t. t.now) terms.now) place }
{
    let Some(before) = found else {
        return place;
    };
    if before >= terms.len() || !terms[before].is_same(terms[place]) {
        return place;
    }
    before
}

/// Of each term the place of the nearest equal one before it, as far as one is found, or else its own. None is looked for where
/// there is one pair, or where there are no fingerprints.
pub(crate) fn repeats(
    alloc: Global,
    terms: &[&Cases],
    count: usize,
) -> Result<Vec<usize>, AllocError>
    ensures leads { IfOk result (λ earlier. LeadsBack (map (λ t. t.now) terms.now) earlier.items) }
    ensures guarded { IfOk result (λ earlier. HasRepeats earlier.items → AreGuarded count (map (λ t. t.now) terms.now)) }
{
    let mut earlier = Vec::new(alloc);
    if terms.len() < 3 {
        return Ok(earlier);
    }
    let Some(fingerprints) = fingerprints(alloc, terms, count)? else {
        return Ok(earlier);
    };
    let mut latest = IndexMap::new(alloc);
    for i in 0..terms.len().min(fingerprints.len()) {
        let found = latest.insert(fingerprints[i], i)?;
        earlier.push(place_of_equal(terms, found, i))?;
    }
    Ok(earlier)
}
