//! What an analysis goes back over.
ghost use Rattle.std.specs.Prelude.{◌≡◌, ◌<◌, ◌↔◌, length, true};
ghost use Rattle.conflict_analysis.specs.code.Graphs.{graph_of};
ghost use Rattle.conflict_analysis.specs.code.Trails.{IsKnown, entry_at, on_trail, source_clause};

use crate::entry::{Entry, Reason, Source};
use crate::reading::{clause_of, is_known, literal_on, reason_on};
use refute_tree::Earlier;
use std::marker::Model;
use stn_core::{Literal, Problem};

/// The implication graph: the trail's literals, and the clauses that their reasons name.
#[derive(Drop)]
pub struct ImplicationGraph<'a, E: Earlier> {
    problem: &'a Problem,
    earlier: &'a E,
    trail: &'a [Entry],
}

impl<'a, E: Earlier> Model for ImplicationGraph<'a, E> {
    ghost use Rattle.conflict_analysis.specs.code.Graphs.{Graph, graph_of};

    ghost Value = { Graph };

    ghost view = { λ g. graph_of g.problem.now (E.clauses g.earlier.now) g.trail.now };
}

impl<'a, E: Earlier> ImplicationGraph<'a, E> {
    pub fn new(problem: &'a Problem, earlier: &'a E, trail: &'a [Entry]) -> Self
        ensures { result ≡ graph_of problem.now (E.clauses earlier.now) trail.now }
    {
        ImplicationGraph {
            problem,
            earlier,
            trail,
        }
    }

    pub fn trail(&self) -> &'a [Entry] {
        self.trail
    }

    /// How many literals stand on the trail.
    pub fn count(&self) -> usize
        ensures { result ≡ length self.now.trail }
    {
        self.trail.len()
    }

    /// The literal at a place of the trail.
    pub fn literal(&self, k: usize) -> Literal
        requires { k < length self.now.trail }
        ensures { result ≡ on_trail self.now.trail k }
    {
        literal_on(self.trail, k)
    }

    /// Why it stands there.
    pub fn reason(&self, k: usize) -> &'a Reason
        requires { k < length self.now.trail }
        ensures { result.now ≡ (entry_at self.now.trail k).reason }
    {
        reason_on(self.trail, k)
    }

    /// Whether there is such a clause.
    pub fn is_known(&self, source: Source) -> bool
        ensures { result ≡ true ↔ IsKnown self.now.inputs self.now.lemmas source }
    {
        is_known(self.problem, self.earlier, source)
    }

    /// The clause that is named.
    pub fn clause(&self, source: Source) -> &'a [Literal]
        requires { IsKnown self.now.inputs self.now.lemmas source }
        ensures { result.now ≡ source_clause self.now.inputs self.now.lemmas source }
    {
        clause_of(self.problem, self.earlier, source)
    }
}
