//! Lemmas made shorter, where nothing is decided: the guide says which, and in which order their literals are denied.
ghost use Rattle.std.specs.Prelude.{◌≡◌, ◌≤◌, [], length, min, IfOk, IfSome, OnOk, Some};
ghost use Rattle.stn_core.specs.Limits.{adds_limit};
ghost use Rattle.conflict_analysis.specs.declared.entry.Conflict.{Conflict as Found};
ghost use Rattle.branch_search.specs.code.Search.{IsAfter, IsState, IsStuck};

use crate::propagate::Tried;
use crate::state::State;
use crate::task::Task;
use conflict_analysis::{Conflict, Source, numbers_of, source_of};
use refute_tree::Earlier;
use search_guide::Denial;
use std::alloc::{AllocError, Global};
use stn_core::Net;

// From so many literals on that followed no further lemma is looked at.
const MOST_FOLLOWED: usize = 20_000;

// The conflict, if there is one.
fn conflict_in(tried: Tried) -> Option<Conflict>
    ensures is { IfSome result (λ conflict. tried ≡ Tried.Stuck conflict) }
    ensures all { (conflict : Found) → tried ≡ Tried.Stuck conflict → result ≡ Some conflict }
{
    match tried {
        Tried::Stuck(conflict) => Some(conflict),
        Tried::Pushed | Tried::Nothing => None,
    }
}

impl State {
    // Denies the literals of the lemma that the guide looks at, one after the other, up to a conflict by clauses and ladders.
    fn deny_literals<E: Earlier, N: Net>(
        &mut self,
        alloc: Global,
        task: &Task<'_, E>,
        net: &N,
        source: Source,
    ) -> Result<Option<Conflict>, AllocError>
        requires state { IsState task.now self.old (N.literals_of net.now) }
        ensures after { IfOk result (IsAfter task.now self.new (N.literals_of net.now)) }
    {
        let limit = self.guide.literals();
        'denials: for _turn in 0..limit {
            match self.guide.next_denial() {
                Denial::Holds => return Ok(None),
                Denial::All => {
                    let tried = self.take_conflict(task, net, source, 0);
                    return Ok(conflict_in(tried));
                }
                Denial::Deny(number) => {
                    if !self.open_level(task, net, number)? {
                        return Ok(None);
                    }
                    if let Some(conflict) = self.follow_all(alloc, task, net)? {
                        return Ok(Some(conflict));
                    }
                }
            }
        }
        Ok(None)
    }

    // Learns what decided literals alone are in conflict, where that is shorter than so many literals.
    fn learn_shorter<E: Earlier, N: Net>(
        &mut self,
        alloc: Global,
        task: &Task<'_, E>,
        net: &N,
        conflict: &Conflict,
        count: usize,
    ) -> Result<bool, AllocError>
        requires stuck { IsStuck task.now self.old (N.literals_of net.now) conflict.now }
        ensures state { OnOk result (IsState task.now self.new (N.literals_of net.now)) }
    {
        let mut wanted = Vec::new(alloc);
        let lemma = self.lemma_of(alloc, task, net, conflict, true, &mut wanted)?;
        if lemma.clause.as_slice().len() >= count {
            return Ok(false);
        }
        self.guide.add_lemma(lemma.clause.as_slice())?;
        self.guide.take_over();
        self.own.push(lemma)?;
        Ok(true)
    }

    // Back to where nothing is decided.
    fn cut_to_root<E: Earlier, N: Net>(&mut self, task: &Task<'_, E>, net: &mut N)
        requires state { IsState task.now self.old (N.literals_of net.old) }
        ensures points { N.points_of net.new ≡ N.points_of net.old }
        ensures adds { N.adds_of net.new ≡ N.adds_of net.old }
        ensures levels { self.new.levels.items ≡ [] }
        ensures state { IsState task.now self.new (N.literals_of net.new) }
    {
        if !self.levels.is_empty() {
            self.cut(net, 0);
        }
    }

    // Looks at the next lemma; how many literals followed, if there is one.
    fn shorten_next<E: Earlier, N: Net>(
        &mut self,
        alloc: Global,
        task: &Task<'_, E>,
        net: &mut N,
    ) -> Result<Option<usize>, AllocError>
        requires state { IsState task.now self.old (N.literals_of net.old) }
        requires root { self.old.levels.items ≡ [] }
        ensures points { N.points_of net.new ≡ N.points_of net.old }
        ensures adds { N.adds_of net.new ≡ N.adds_of net.old }
        ensures root { OnOk result (self.new.levels.items ≡ []) }
        ensures state { OnOk result (IsState task.now self.new (N.literals_of net.new)) }
    {
        let Some(named) = self.guide.next_to_shorten() else {
            return Ok(None);
        };
        let source = source_of(named);
        let count = numbers_of(&self.guide, source).len();
        let before = self.entries.len();
        let found = self.deny_literals(alloc, task, net, source)?;
        self.guide.end_denials();
        let followed = self.entries.len().saturating_sub(before);
        let j = self.own.len();
        let is_shorter = match &found {
            Some(conflict) => self.learn_shorter(alloc, task, net, conflict, count)?,
            None => false,
        };
        self.cut_to_root(task, net);
        if !is_shorter {
            return Ok(Some(followed));
        }
        self.take_learned(task, net, Source::Lemma(task.count() + j), j)?;
        Ok(Some(followed))
    }

    // Lemma after lemma, as long as few literals followed.
    fn shorten_all<E: Earlier, N: Net>(
        &mut self,
        alloc: Global,
        task: &Task<'_, E>,
        net: &mut N,
    ) -> Result<(), AllocError>
        requires state { IsState task.now self.old (N.literals_of net.old) }
        requires root { self.old.levels.items ≡ [] }
        ensures points { N.points_of net.new ≡ N.points_of net.old }
        ensures adds { N.adds_of net.new ≡ N.adds_of net.old }
        ensures root { OnOk result (self.new.levels.items ≡ []) }
        ensures state { OnOk result (IsState task.now self.new (N.literals_of net.new)) }
    {
        let mut followed = 0usize;
        let limit = self.guide.lemmas();
        'lemmas: for _turn in 0..limit {
            if followed >= MOST_FOLLOWED {
                return Ok(());
            }
            let Some(count) = self.shorten_next(alloc, task, net)? else {
                return Ok(());
            };
            followed = followed.saturating_add(count).saturating_add(1);
        }
        Ok(())
    }

    /// Where nothing is decided and no conflict was found: makes lemmas shorter, if it is time, and then says what follows
    /// once more.
    pub fn vivify<E: Earlier, N: Net>(
        &mut self,
        alloc: Global,
        task: &Task<'_, E>,
        net: &mut N,
        found: Option<Conflict>,
    ) -> Result<Option<Conflict>, AllocError>
        requires points { N.points_of net.old ≡ task.now.problem.points }
        requires after { IsAfter task.now self.old (N.literals_of net.old) found }
        ensures points { N.points_of net.new ≡ N.points_of net.old }
        ensures levels { OnOk result (length self.new.levels.items ≤ length self.old.levels.items) }
        ensures after { IfOk result (IsAfter task.now self.new (N.literals_of net.new)) }
        ensures counts { OnOk result (min (N.adds_of net.old) adds_limit ≤ N.adds_of net.new) }
    {
        if found.is_some() || !self.levels.is_empty() || !self.guide.begins_vivification() {
            return Ok(found);
        }
        self.shorten_all(alloc, task, net)?;
        self.guide.end_vivification();
        self.propagate(alloc, task, net)
    }
}
