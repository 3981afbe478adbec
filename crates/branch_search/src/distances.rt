//! What follows from the trail's literals by distances between points, each with a negative cycle that shows
//! it. The distances have no contract: each cycle is tested before it is a reason.
ghost use Rattle.std.specs.Prelude.{◌≡◌, ◌<◌, All, length, IfOk, IfSome, OnOk};
ghost use Rattle.conflict_analysis.specs.code.Trails.{Stands, IsByCycle};
ghost use Rattle.branch_search.specs.code.Hits.{IsOnPath};
ghost use Rattle.branch_search.specs.code.Search.{IsState};

use crate::state::State;
use crate::task::Task;
use conflict_analysis::{Entry, Reason, is_over, literal_on};
use refute_tree::Earlier;
use search_guide::LiteralNumber;
use std::alloc::{AllocError, Global};
use stn_core::{Literal, Literals, Net, is_cycle, negate};

// The denied literal, and then those at the places of the trail.
fn path_of(
    alloc: Global,
    entries: &[Entry],
    denied: Literal,
    places: &[usize],
) -> Result<Option<Vec<Literal>>, AllocError>
    ensures { IfOk result (λ found. IfSome found (λ path. All (IsOnPath entries.now denied) path.items)) }
{
    let mut path = Vec::with_capacity(alloc, places.len().saturating_add(1))?;
    path.push(denied)?;
    'edges: for place in places {
        if *place >= entries.len() {
            return Ok(None);
        }
        path.push(literal_on(entries, *place))?;
    }
    Ok(Some(path))
}

// The cycle of the literal's negation and those at the places of the trail, where it is negative.
fn cycle_of(
    alloc: Global,
    entries: &[Entry],
    literal: Literal,
    places: &[usize],
) -> Result<Option<Literals>, AllocError>
    ensures { IfOk result (λ found. IfSome found (IsByCycle (Stands entries.now (length entries.now))
        literal)) }
{
    let Some(path) = path_of(alloc, entries, negate(literal), places)? else {
        return Ok(None);
    };
    if !is_cycle(path.as_slice()) {
        return Ok(None);
    }
    Ok(Some(Literals::new(path)))
}

impl State {
    // The next literal that the distances propose.
    fn next_hit(&mut self) -> Option<LiteralNumber>
        ensures entries { self.new.entries.items ≡ self.old.entries.items }
        ensures levels { self.new.levels.items ≡ self.old.levels.items }
        ensures own { self.new.own.items ≡ self.old.own.items }
    {
        match &mut self.distances {
            Some(distances) => distances.next_hit(&self.guide),
            None => None,
        }
    }

    // Its reason, where there is one.
    fn explain(
        &mut self,
        alloc: Global,
        number: LiteralNumber,
        literal: Literal,
    ) -> Result<Option<Literals>, AllocError>
        ensures entries { self.new.entries.items ≡ self.old.entries.items }
        ensures levels { self.new.levels.items ≡ self.old.levels.items }
        ensures own { self.new.own.items ≡ self.old.own.items }
        ensures cycle { IfOk result (λ found. IfSome found
            (IsByCycle (Stands self.old.entries.items (length self.old.entries.items)) literal)) }
    {
        let Some(distances) = &mut self.distances else {
            return Ok(None);
        };
        let places = distances.path(&self.guide, number)?;
        let cycle = cycle_of(alloc, &self.entries, literal, places)?;
        Ok(cycle)
    }

    // The literal with the number goes on the trail, where it follows.
    fn take_hit<E: Earlier, N: Net>(
        &mut self,
        alloc: Global,
        task: &Task<'_, E>,
        net: &N,
        number: LiteralNumber,
    ) -> Result<(), AllocError>
        requires state { IsState task.now self.old (N.literals_of net.now) }
        ensures levels { self.new.levels.items ≡ self.old.levels.items }
        ensures state { OnOk result (IsState task.now self.new (N.literals_of net.now)) }
    {
        let Some(literal) = self.guide.literal(number) else {
            return Ok(());
        };
        if !is_over(literal, task.problem().points) {
            return Ok(());
        }
        if let Some(cycle) = self.explain(alloc, number, literal)? {
            self.push(literal, number, Reason::Cycle(cycle))?;
        }
        Ok(())
    }

    // The literal at the place of the trail is among the distances from now on.
    fn add_to_distances(&mut self, k: usize) -> Result<(), AllocError>
        requires { k < length self.old.entries.items }
        ensures entries { self.new.entries.items ≡ self.old.entries.items }
        ensures levels { self.new.levels.items ≡ self.old.levels.items }
        ensures own { self.new.own.items ≡ self.old.own.items }
    {
        let number = self.entries[k].number;
        match &mut self.distances {
            Some(distances) => distances.add(&self.guide, number, k),
            None => Ok(()),
        }
    }

    /// Whether no literal of the trail is still to go into the distances: all are in them, or none is open
    /// that could follow.
    pub fn is_measured(&self) -> bool {
        self.distances.is_none() || self.measured >= self.entries.len() || self.guide.is_full()
    }

    /// The next literal of the trail into the distances, and then all that follows by them on the trail. Where the guide
    /// finds them not worth their time, there are none from now on.
    pub fn measure_next<E: Earlier, N: Net>(
        &mut self,
        alloc: Global,
        task: &Task<'_, E>,
        net: &N,
    ) -> Result<(), AllocError>
        requires state { IsState task.now self.old (N.literals_of net.now) }
        ensures levels { self.new.levels.items ≡ self.old.levels.items }
        ensures state { OnOk result (IsState task.now self.new (N.literals_of net.now)) }
    {
        if !self.guide.wants_distances() {
            self.distances = None;
            return Ok(());
        }
        let k = self.measured;
        if k >= self.entries.len() {
            return Ok(());
        }
        self.measured = k + 1;
        if !self.is_for_net(k) {
            return Ok(());
        }
        self.add_to_distances(k)?;
        let limit = self.guide.literals();
        'hits: for _turn in 0..limit {
            let Some(number) = self.next_hit() else {
                return Ok(());
            };
            self.take_hit(alloc, task, net, number)?;
        }
        Ok(())
    }
}
