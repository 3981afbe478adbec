//! Many literals of the trail into the net at once, as at a search's start: in the order of the trail a long
//! chain might lower its points again with each literal.
ghost use Rattle.std.specs.Prelude.{◌≡◌, ◌≤◌, length, min, IfOk, OnOk};
ghost use Rattle.branch_search.specs.code.Search.{IsState, IsAfter, AllStand};
ghost use Rattle.stn_core.specs.Limits.{adds_limit};

use crate::state::State;
use crate::task::Task;
use conflict_analysis::{Conflict, literal_on};
use net_batch::add_all;
use refute_tree::Earlier;
use std::alloc::{AllocError, Global};
use stn_core::{Literal, Net};

/// Fewer literals than these go into the net one by one, since a batch looks at each point.
const MANY: usize = 32;

impl State {
    /// Whether many literals wait for the net, and nothing is decided.
    pub fn has_many_waiting(&self) -> bool {
        self.levels.is_empty() && self.entries.len().saturating_sub(self.netted) >= MANY
    }

    // The literals for the net that stand on the trail from a place on.
    fn literals_waiting(&self, alloc: Global, from: usize) -> Result<Vec<Literal>, AllocError>
        ensures { IfOk result (λ literals. AllStand self.now.entries.items (length self.now.entries.items)
            literals.items) }
    {
        let mut literals = Vec::new(alloc);
        'places: for k in from..self.entries.len() {
            if self.is_for_net(k) {
                literals.push(literal_on(&self.entries, k))?;
            }
        }
        Ok(literals)
    }

    /// All literals that wait for the net, which wait no longer.
    pub fn take_waiting(&mut self, alloc: Global) -> Result<Vec<Literal>, AllocError>
        ensures entries { self.new.entries.items ≡ self.old.entries.items }
        ensures levels { self.new.levels.items ≡ self.old.levels.items }
        ensures own { self.new.own.items ≡ self.old.own.items }
        ensures stand { IfOk result (λ literals. AllStand self.old.entries.items (length self.old.entries.items)
            literals.items) }
    {
        let literals = self.literals_waiting(alloc, self.netted)?;
        self.netted = self.entries.len();
        Ok(literals)
    }

    /// Literals that stand on the trail into the net.
    pub fn net_all<E: Earlier, N: Net>(
        &self,
        alloc: Global,
        task: &Task<'_, E>,
        net: &mut N,
        literals: &[Literal],
    ) -> Result<Option<Conflict>, AllocError>
        requires points { N.points_of net.old ≡ task.now.problem.points }
        requires state { IsState task.now self.now (N.literals_of net.old) }
        requires stand { AllStand self.now.entries.items (length self.now.entries.items) literals.now }
        ensures points { N.points_of net.new ≡ N.points_of net.old }
        ensures after { IfOk result (IsAfter task.now self.now (N.literals_of net.new)) }
        ensures counts { OnOk result (min (N.adds_of net.old) adds_limit ≤ N.adds_of net.new) }
    {
        match add_all(alloc, net, literals)? {
            None => Ok(None),
            Some(cycle) => Ok(Some(Conflict::Cycle(cycle))),
        }
    }
}
