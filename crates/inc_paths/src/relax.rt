ghost use Rattle.std.specs.Prelude.{◌≡◌, ◌<◌, ◌≤◌, ◌-◌, length, true, false, IfOk, OnOk, IfSome, IfNone};
ghost use Rattle.stn_core.specs.Answer.{IsCycleAmong};
ghost use Rattle.stn_core.specs.Literal.{value_at, literal_at};
ghost use Rattle.stn_core.specs.Schedule.{IsGreatestSchedule};
ghost use Rattle.inc_paths.specs.code.Trails.{entry_at, first_in, point_at};
ghost use Rattle.inc_paths.specs.code.Work.{AreTraced, GoesBack, IsAt, IsClosing, IsPending, IsScanning, IsStart, IsTaken};
ghost use Rattle.inc_paths.specs.code.Work.{Lowers, room};

use crate::arcs::Arcs;
use crate::labels::Labels;
use std::alloc::AllocError;
use stn_core::{Literal, Literals};

/// Looks at a literal that begins at the point of a lowering. Where it does not hold, it lowers its first point, unless
/// the new literal begins there: then the answer is true.
fn look(
    arcs: &Arcs,
    number: usize,
    labels: &mut Labels,
    new: Literal,
    place: usize,
) -> Result<bool, AllocError>
    requires start { IsStart arcs.now.points arcs.now.literals new (first_in labels.old) }
    requires within { labels.old.start ≤ length labels.old.trail }
    requires lowering { Lowers arcs.now new labels.old labels.old }
    requires some { 1 ≤ number }
    requires number { number ≤ length arcs.now.literals }
    requires place { IsAt labels.old place }
    requires point { (literal_at arcs.now.literals (number - 1)).y ≡ point_at labels.old.trail place }
    requires scanning { IsScanning arcs.now.literals labels.old (point_at labels.old.trail place) number }
    ensures start { labels.new.start ≡ labels.old.start }
    ensures kept { GoesBack labels.old labels.new }
    ensures lowering { OnOk result (Lowers arcs.now new labels.old labels.new) }
    ensures place { OnOk result (IsAt labels.new place) }
    ensures entry { OnOk result (entry_at labels.new.trail place ≡ entry_at labels.old.trail place) }
    ensures scanning { IfOk result (λ closes. closes ≡ false
        → IsScanning arcs.now.literals labels.new (point_at labels.old.trail place) (number - 1)) }
    ensures closing { IfOk result (λ closes. closes ≡ true
        → IsClosing arcs.now.literals labels.new new.y place (literal_at arcs.now.literals (number - 1))) }
    ensures room { OnOk result (room labels.new ≤ room labels.old) }
{
    let literal = arcs.at(number - 1);
    if !labels.fails(literal) {
        return Ok(false);
    }
    if literal.x == new.y {
        return Ok(true);
    }
    let parent = labels.number(place);
    labels.lower(literal, parent)?;
    Ok(false)
}

/// Looks at the literals that begin at the point of a lowering that was taken from the queue, the newest first, where
/// its value still stands. The answer is one that would lower the point where the new literal begins.
fn scan(
    arcs: &Arcs,
    labels: &mut Labels,
    new: Literal,
    place: usize,
) -> Result<Option<Literal>, AllocError>
    requires start { IsStart arcs.now.points arcs.now.literals new (first_in labels.old) }
    requires within { labels.old.start ≤ length labels.old.trail }
    requires lowering { Lowers arcs.now new labels.old labels.old }
    requires low { labels.old.start ≤ place }
    requires high { place < length labels.old.trail }
    requires taken { IsTaken arcs.now.literals labels.old place }
    ensures start { labels.new.start ≡ labels.old.start }
    ensures kept { GoesBack labels.old labels.new }
    ensures lowering { OnOk result (Lowers arcs.now new labels.old labels.new) }
    ensures high { OnOk result (place < length labels.new.trail) }
    ensures none { IfOk result (λ last. IfNone last (IsPending arcs.now.literals labels.new)) }
    ensures some { IfOk result (λ last. IfSome last (IsClosing arcs.now.literals labels.new new.y place)) }
    ensures room { OnOk result (room labels.new ≤ room labels.old) }
{
    if !labels.is_current(place) {
        return Ok(None);
    }
    let mut number = arcs.newest(labels.entry(place).literal.x);
    'literals: while number != 0 {
        if look(arcs, number, labels, new, place)? {
            return Ok(Some(arcs.at(number - 1)));
        }
        number = arcs.older(number);
    }
    Ok(None)
}

/// The walk from the last literal, and then back over the lowerings that led to it, to the new literal.
fn way_back(
    arcs: &Arcs,
    labels: &Labels,
    last: Literal,
    place: usize,
) -> Result<Literals, AllocError>
    requires traced { AreTraced arcs.now.literals last.x (value_at labels.now.values last.x) labels.now }
    requires low { labels.now.start ≤ place }
    requires high { place < length labels.now.trail }
    requires closing { IsClosing arcs.now.literals labels.now last.x place last }
    ensures { IfOk result (λ cycle. IsCycleAmong arcs.now.literals cycle) }
{
    let mut walk = Vec::new(arcs.alloc());
    walk.push(last)?;
    let mut number = labels.number(place);
    'back: while number != 0 {
        let entry = labels.entry(number - 1);
        walk.push(entry.literal)?;
        number = entry.parent;
    }
    Ok(Literals::new(walk))
}

/// Lowers values until all literals hold. The answer is a negative cycle, where the point would be lowered at which the
/// new literal begins.
pub fn settle(
    arcs: &Arcs,
    labels: &mut Labels,
    new: Literal,
) -> Result<Option<Literals>, AllocError>
    requires start { IsStart arcs.now.points arcs.now.literals new (first_in labels.old) }
    requires within { labels.old.start ≤ length labels.old.trail }
    requires lowering { Lowers arcs.now new labels.old labels.old }
    requires pending { IsPending arcs.now.literals labels.old }
    ensures start { labels.new.start ≡ labels.old.start }
    ensures kept { GoesBack labels.old labels.new }
    ensures none { IfOk result (λ cycle.
        IfNone cycle (IsGreatestSchedule arcs.now.points arcs.now.literals labels.new.values)) }
    ensures some { IfOk result (λ cycle. IfSome cycle (IsCycleAmong arcs.now.literals)) }
{
    'queue: while let Some((_, place)) = labels.pop() {
        if let Some(last) = scan(arcs, labels, new, place)? {
            return Ok(Some(way_back(arcs, labels, last, place)?));
        }
    }
    Ok(None)
}
