//! The search itself.
ghost use Rattle.std.specs.Prelude.{◌≡◌, ◌≤◌, ◌<◌, ◌+◌, ◌∷◌, [], ◌++◌, length, map, All, IfOk, OnOk, true};
ghost use Rattle.stn_core.specs.Literal.{Holds, IsOver};
ghost use Rattle.refute_tree.specs.Trees.{stated};
ghost use Rattle.refute_tree.specs.Batches.{AreRefuted, LemmaIsOver};
ghost use Rattle.book_core.specs.Books.{IsOpening, IsShutBy};
ghost use Rattle.book_core.specs.Verdicts.{IsRight};
ghost use Rattle.book_core.specs.declared.verdict.Verdict.TheVariants.{Unsat};
ghost use Rattle.kept_search.specs.Kept.{IsSearchOf, IsReply, IsNext, HasClauseMore};

use crate::closing::{close_by, with_last};
use crate::reply::Reply;
use book_search::Pacing;
use branch_search::{Searcher, Slice};
use inc_paths::Network;
use refute_tree::{Batch, Lemma, Refutation, Steps};
use search_guide::Policy;
use std::alloc::{AllocError, Global};
use std::marker::Model;
use std::mem;
use stn_core::{Literal, Problem, Value, holds};

/// A search of one problem that is kept from question to question: its searcher and net, and its lemmas, of which none rests on
/// what a question assumes. Contracts see the net's points and the lemmas.
pub struct KeptSearch {
    searcher: Searcher,
    net: Network,
    lemmas: Vec<Lemma>,
    pacing: Pacing,
}

impl Drop for KeptSearch {
    fn drop(self) {
        let KeptSearch {
            searcher,
            net,
            lemmas,
            pacing,
        } = self;
        drop(searcher);
        drop(net);
        drop(lemmas);
        drop(pacing);
    }
}

impl Model for KeptSearch {
    ghost use Rattle.std.specs.Prelude.{◌≡◌, []};
    ghost use Rattle.kept_search.specs.Searches.{Searched};

    ghost Value = { Searched };

    ghost view = { λ k. record { points = k.net.points; lemmas = k.lemmas.items } };

    ghost invariant = { λ k. k.net.literals ≡ [] };
}

// The number of a slice's own lemma, where its lemmas stand behind the others.
fn number_of(all: usize, own: usize, j: usize) -> usize
    requires own { own ≤ all }
    requires j { j < own }
    ensures { result + own ≡ all + j }
{
    all - own + j
}

// Whether all literals hold on the values.
fn all_hold(cube: &[Literal], values: &[Value]) -> bool
    requires { All (IsOver (length values.now)) cube.now }
    ensures { result ≡ true → All (Holds values.now) cube.now }
{
    for literal in cube {
        if !holds(*literal, values) {
            return false;
        }
    }
    true
}

impl KeptSearch {
    /// A search before its first question, whose first slice has this budget of literals that it adds to its net. It has these lemmas of the problem
    /// from the start. Literals that were never decided are decided as they hold on these values of the first time points, perhaps none: a hint.
    /// A question's cube may bound a point that the problem has in one literal alone, so that none may stay out of the net.
    pub fn new(
        alloc: Global,
        problem: &Problem,
        opening: Batch,
        phases: &[Value],
        budget: u64,
    ) -> Result<Self, AllocError>
        requires { IsOpening problem.now opening.lemmas }
        ensures { IfOk result (IsSearchOf problem.now) }
    {
        let policy = Policy {
            pure_apart: false,
            shares: false,
            ..Policy::default()
        };
        let mut searcher = Searcher::with_policy(alloc, problem, policy)?;
        searcher.follow(phases);
        Ok(KeptSearch {
            searcher,
            net: Network::new(alloc, problem.points)?,
            lemmas: opening.into_lemmas(),
            pacing: Pacing::alone(budget),
        })
    }

    /// How many lemmas there are.
    pub fn lemma_count(&self) -> usize
        ensures { result ≡ length self.now.lemmas }
    {
        self.lemmas.len()
    }

    // Puts a slice's lemmas behind the others.
    fn keep(&mut self, batch: Batch) -> Result<(), AllocError>
        ensures lemmas { OnOk result (self.new.lemmas ≡ self.old.lemmas ++ batch.lemmas) }
        ensures points { OnOk result (self.new.points ≡ self.old.points) }
    {
        let mut added = batch.into_lemmas();
        self.lemmas.append(&mut added)?;
        Ok(())
    }

    // One slice of search under the cube.
    fn slice(
        &mut self,
        alloc: Global,
        problem: &Problem,
        cube: &[Literal],
    ) -> Result<Reply, AllocError>
        requires of { IsSearchOf problem.now self.old }
        requires over { All (IsOver problem.now.points) cube.now }
        ensures { IfOk result (IsNext problem.now cube.now self.new) }
    {
        stn_core::negation_law();
        refute_tree::joined_law();
        let budget = self.pacing.budget();
        let handed = self.lemmas.as_slice();
        let found = self
            .searcher
            .slice(alloc, problem, &handed, cube, budget, &mut self.net)?;
        match found {
            Slice::Model(schedule, batch) => {
                self.keep(batch)?;
                if all_hold(cube, schedule.as_slice()) {
                    return Ok(Reply::Holds(schedule));
                }
                Ok(Reply::Open)
            }
            Slice::Refuted(batch, j) => {
                let own = batch.lemmas().len();
                self.keep(batch)?;
                Ok(Reply::Denied(number_of(self.lemmas.len(), own, j)))
            }
            Slice::Split(_, batch) => {
                self.keep(batch)?;
                self.pacing.grow(self.searcher.conflicts() > 0);
                Ok(Reply::Open)
            }
        }
    }

    /// What up to so many slices of search find of the cube. A cube whose slice's budget is spent isn't divided: the next slice
    /// goes on with it, and with the lemmas that are there by then. The one error is want of memory.
    pub fn under(
        &mut self,
        alloc: Global,
        problem: &Problem,
        cube: &[Literal],
        slices: u64,
    ) -> Result<Reply, AllocError>
        requires of { IsSearchOf problem.now self.old }
        requires over { All (IsOver problem.now.points) cube.now }
        ensures { IfOk result (IsNext problem.now cube.now self.new) }
    {
        for _turn in 0..slices {
            match self.slice(alloc, problem, cube)? {
                Reply::Open => {}
                reply => return Ok(reply),
            }
        }
        Ok(Reply::Open)
    }

    /// The refutation of the problem by the lemmas, of which the one with this number has no literals. No lemma stays.
    pub fn refutation(
        &mut self,
        alloc: Global,
        problem: &Problem,
        j: usize,
    ) -> Result<Refutation, AllocError>
        requires of { IsSearchOf problem.now self.old }
        requires denied { IsShutBy (map stated self.old.lemmas) [] j }
        ensures { IfOk result (λ r. IsRight problem.now (Unsat r)) }
    {
        let mut steps = Steps::new(alloc);
        close_by(&mut steps, self.lemmas.as_slice(), j)?;
        let lemmas = mem::replace(&mut self.lemmas, Vec::new(alloc));
        let refutation = with_last(alloc, lemmas, steps)?;
        Ok(refutation)
    }

    /// The refutation of the problem with one clause more, the last, of a literal alone, which the lemma with this number denies.
    /// No lemma stays.
    pub fn refutation_with(
        &mut self,
        alloc: Global,
        problem: &Problem,
        asked: &Problem,
        literal: Literal,
        j: usize,
    ) -> Result<Refutation, AllocError>
        requires of { IsSearchOf problem.now self.old }
        requires asked { HasClauseMore problem.now asked.now (literal ∷ []) }
        requires denied { IsShutBy (map stated self.old.lemmas) (literal ∷ []) j }
        ensures { IfOk result (λ r. IsRight asked.now (Unsat r)) }
    {
        more_inputs::more_inputs_law();
        let mut steps = Steps::new(alloc);
        steps.push_input(problem.clauses.as_slice().len())?;
        close_by(&mut steps, self.lemmas.as_slice(), j)?;
        let lemmas = mem::replace(&mut self.lemmas, Vec::new(alloc));
        let refutation = with_last(alloc, lemmas, steps)?;
        Ok(refutation)
    }
}
