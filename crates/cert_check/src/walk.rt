ghost use Rattle.std.specs.Prelude.{◌≡◌, ◌<◌, [], ◌∷◌, true, ◌++◌, length, map, drop, OnOk, IfOk, IfErr, IsOkUnless};
ghost use Rattle.stn_core.specs.Literal.{negation_of};
ghost use Rattle.cert_check.specs.Flaws.{cases_of};
ghost use Rattle.cert_check.specs.declared.walk.WalkError.TheVariants.{OutOfMemory};
ghost use Rattle.cert_check.specs.code.Walks.{clause_in, cases_waiting, cases_open, AreAlike, IsWalk, GoesOn, HasRead, HasFailed, WhereRefused};
ghost use Rattle.refute_tree.specs.code.Views.{step_seen};

use crate::assumptions::Assumptions;
use crate::cases::{Cases, cases_of_step, close_cases};
use crate::flaw::FlawKind;
use refute_tree::{Earlier, Reader, StepView};
use std::alloc::{AllocFailed, Global};
use stn_core::{Literal, Problem, negate};

/// A clause whose cases are being read: the one at `place` now, the later ones when that has been read. Its first
/// assumptions, so many as `base`, are those of the case at `place` but for its literal.
#[derive(Clone, Copy, Drop)]
pub struct Frame<'a> {
    pub cases: Cases<'a>,
    pub place: usize,
    pub base: usize,
}

/// Why a step can't be read.
#[derive(Clone, Copy)]
pub enum WalkError {
    OutOfMemory,
    Refused(FlawKind),
}

impl<T: Drop> From<AllocFailed<T>> for WalkError {
    ghost use Rattle.std.specs.Prelude.{◌≡◌};
    ghost use Rattle.cert_check.specs.declared.walk.WalkError.TheVariants.{OutOfMemory};

    ghost from_gives = { λ _ e. e ≡ OutOfMemory };

    fn from(_failed: AllocFailed<T>) -> Self {
        WalkError::OutOfMemory
    }
}

impl From<FlawKind> for WalkError {
    ghost use Rattle.std.specs.Prelude.{◌≡◌};
    ghost use Rattle.cert_check.specs.declared.walk.WalkError.TheVariants.{Refused};

    ghost from_gives = { λ kind e. e ≡ Refused kind };

    fn from(kind: FlawKind) -> Self {
        WalkError::Refused(kind)
    }
}

/// The way through a tree: what is assumed in the case that is read now, and the clauses with cases that wait, the last
/// opened last.
pub struct Walk<'a> {
    pub assumed: Assumptions,
    pub frames: Vec<Frame<'a>>,
}

impl Drop for Walk<'_> {
    fn drop(self) {
        let Walk { assumed, frames } = self;
        drop(assumed);
        drop(frames);
    }
}

impl<'a> Walk<'a> {
    /// At the root of a lemma's tree, where its literals are denied.
    pub fn new(alloc: Global, clause: &[Literal]) -> Result<Self, WalkError>
        ensures stack { IfOk result IsWalk }
        ensures cases { IfOk result
            (λ walk. AreAlike (cases_open true walk) (map negation_of clause.now ∷ [])) }
        ensures error { IsOkUnless result OutOfMemory }
    {
        let mut assumed = Assumptions::new(alloc);
        for literal in clause {
            assumed.assume(negate(*literal))?;
        }
        let frames = Vec::new(alloc);
        Ok(Walk { assumed, frames })
    }

    /// Goes into the case of the literal at `place`, and leaves those of the later literals waiting.
    fn enter(&mut self, cases: Cases<'a>, place: usize) -> Result<(), WalkError>
        requires stack { IsWalk self.old }
        requires place { place < length (clause_in cases) }
        ensures stack { OnOk result (IsWalk self.new) }
        ensures cases { OnOk result (AreAlike (cases_open true self.new)
            (cases_of self.old.assumed (drop place (clause_in cases.entry)) ++ cases_waiting self.old)) }
        ensures error { IsOkUnless result OutOfMemory }
    {
        let base = self.assumed.len();
        self.frames.push(Frame { cases, place, base })?;
        self.assumed.assume(cases.literal(place))?;
        Ok(())
    }

    /// Goes to the first case that waits and isn't closed at once by what the reader has next, and tells whether there
    /// is one.
    fn advance(&mut self, reader: &mut Reader<'_>) -> Result<bool, WalkError>
        requires { IsWalk self.old }
        ensures stack { OnOk result (IsWalk self.new) }
        ensures cases { IfOk result
            (λ open_. GoesOn (cases_waiting self.old) reader.old (cases_open open_ self.new) reader.new) }
        ensures error { IsOkUnless result OutOfMemory }
    {
        while let Some(frame) = self.frames.pop() {
            self.assumed.cut(frame.base);
            let count = frame.cases.len();
            let next = close_cases(&self.assumed, frame.cases, frame.place + 1, reader);
            if next < count {
                let denied = negate(frame.cases.literal(frame.place));
                self.assumed.assume(denied)?;
                self.enter(frame.cases, next)?;
                return Ok(true);
            }
        }
        Ok(false)
    }

    /// Reads a step in the case that is open, and those of the reader's steps behind it that close cases at once, and
    /// tells whether a case is open then.
    pub fn read<E: Earlier>(
        &mut self,
        problem: &'a Problem,
        earlier: &'a E,
        step: StepView<'_>,
        reader: &mut Reader<'_>,
    ) -> Result<bool, WalkError>
        requires { IsWalk self.old }
        ensures stack { OnOk result (IsWalk self.new) }
        ensures cases { IfOk result (HasRead problem.now (E.clauses earlier.now) self.old (step_seen step.entry)
            reader.old self.new reader.new) }
        ensures fault { IfErr result
            (HasFailed problem.now (E.clauses earlier.now) self.old (step_seen step.entry)) }
        ensures left { IfErr result (WhereRefused (reader.new ≡ reader.old)) }
    {
        let cases = cases_of_step(problem, earlier, &self.assumed, step)?;
        let next = close_cases(&self.assumed, cases, 0, reader);
        if next == cases.len() {
            let open = self.advance(reader)?;
            return Ok(open);
        }
        self.enter(cases, next)?;
        Ok(true)
    }
}
