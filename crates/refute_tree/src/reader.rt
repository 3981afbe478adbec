ghost use Rattle.std.specs.Prelude.{◌≡◌, ◌≤◌, ◌<◌, ◌+◌, ◌∷◌, length, MatchOption};
ghost use Rattle.refute_tree.specs.code.Lists.{SlicesAreWhole, HaveStep, IsBehindStep, parts_of_slices, steps_of_slices};
ghost use Rattle.refute_tree.specs.code.Store.{step_by, first_number, first_path};
ghost use Rattle.refute_tree.specs.code.Paths.{narrow_literal, path_of};
ghost use Rattle.refute_tree.specs.code.Views.{step_seen, ReadsNone};

use crate::cycle::Cycle;
use crate::kind::Kind;
use crate::lists::Slices;
use crate::path::Path;
use std::marker::Model;
use stn_core::Literal;

/// A step as it is read. A pair is the cycle of the literal and its negation.
#[derive(Clone, Copy)]
pub enum StepView<'a> {
    Cycle(Cycle<'a>),
    Pair(Literal),
    Input(usize),
    Lemma(usize),
    Clash(usize),
    Either(Literal),
}

// The literal that is kept as the first points and the first bound.
fn narrow_literal(slices: Slices<'_>) -> Literal
    requires points { 2 ≤ length slices.points.now }
    requires bounds { 1 ≤ length slices.bounds.now }
    ensures { result ≡ narrow_literal slices.entry.points.now slices.entry.bounds.now }
{
    Literal {
        x: u32::from(slices.points[0]),
        y: u32::from(slices.points[1]),
        c: i64::from(slices.bounds[0]),
    }
}

// The cycle that is kept as the first points and bounds.
fn path(slices: Slices<'_>) -> Path<'_>
    requires small { 1 ≤ length slices.small.now }
    requires points { first_number slices.small.now + 1 ≤ length slices.points.now }
    requires bounds { first_number slices.small.now ≤ length slices.bounds.now }
    ensures { path_of result.points.now result.bounds.now
        ≡ first_path slices.entry.small.now slices.entry.points.now slices.entry.bounds.now }
{
    let count = slices.small[0] as usize;
    Path {
        points: &slices.points[..count + 1],
        bounds: &slices.bounds[..count],
    }
}

// The step of the kind whose numbers, points, bounds and literals are the first of these.
fn view<'a>(kind: Kind, slices: Slices<'a>) -> StepView<'a>
    requires { HaveStep kind slices }
    ensures { step_seen result ≡ step_by kind (parts_of_slices slices.entry) }
{
    match kind {
        Kind::Path => StepView::Cycle(Cycle::Path(path(slices))),
        Kind::Cycle => StepView::Cycle(Cycle::Literals(&slices.literals[..slices.large[0]])),
        Kind::Pair => StepView::Pair(narrow_literal(slices)),
        Kind::LargePair => StepView::Pair(slices.literals[0]),
        Kind::Input => StepView::Input(slices.small[0] as usize),
        Kind::LargeInput => StepView::Input(slices.large[0]),
        Kind::Lemma => StepView::Lemma(slices.small[0] as usize),
        Kind::LargeLemma => StepView::Lemma(slices.large[0]),
        Kind::Clash => StepView::Clash(slices.small[0] as usize),
        Kind::LargeClash => StepView::Clash(slices.large[0]),
        Kind::Either => StepView::Either(narrow_literal(slices)),
        Kind::LargeEither => StepView::Either(slices.literals[0]),
    }
}

// What stands behind the first step, which is of this kind.
fn behind<'a>(kind: Kind, slices: Slices<'a>) -> Slices<'a>
    requires some { 0 < length slices.kinds.now }
    requires step { HaveStep kind slices }
    ensures { IsBehindStep kind slices.entry result }
{
    let kinds = &slices.kinds[1..];
    match kind {
        Kind::Input | Kind::Lemma | Kind::Clash => Slices {
            kinds,
            small: &slices.small[1..],
            ..slices
        },
        Kind::Pair | Kind::Either => Slices {
            kinds,
            points: &slices.points[2..],
            bounds: &slices.bounds[1..],
            ..slices
        },
        Kind::Path => {
            let count = slices.small[0] as usize;
            Slices {
                kinds,
                small: &slices.small[1..],
                points: &slices.points[count + 1..],
                bounds: &slices.bounds[count..],
                ..slices
            }
        }
        Kind::Cycle => Slices {
            kinds,
            large: &slices.large[1..],
            literals: &slices.literals[slices.large[0]..],
            ..slices
        },
        Kind::LargePair | Kind::LargeEither => Slices {
            kinds,
            literals: &slices.literals[1..],
            ..slices
        },
        Kind::LargeInput | Kind::LargeLemma | Kind::LargeClash => Slices {
            kinds,
            large: &slices.large[1..],
            ..slices
        },
    }
}

/// What is still to be read of a list of steps.
pub struct Reader<'a> {
    left: Slices<'a>,
}

impl Drop for Reader<'_> {
    fn drop(self) {
        let Reader { left } = self;
        drop(left);
    }
}

impl<'a> Model for Reader<'a> {
    ghost use Rattle.std.specs.Prelude.{List};
    ghost use Rattle.refute_tree.specs.declared.step.Step.{Step};
    ghost use Rattle.refute_tree.specs.code.Lists.{SlicesAreWhole, steps_of_slices};

    ghost Value = { List Step };

    ghost view = { λ r. steps_of_slices r.left };

    ghost invariant = { λ r. SlicesAreWhole r.left };
}

impl<'a> Reader<'a> {
    pub(crate) fn new(left: Slices<'a>) -> Self
        requires { SlicesAreWhole left }
        ensures { result ≡ steps_of_slices left.entry }
    {
        Reader { left }
    }

    /// The next step, which leaves those after it.
    pub fn next(&mut self) -> Option<StepView<'a>>
        ensures { MatchOption result
            (ReadsNone self.old self.new)
            (λ step. self.old ≡ step_seen step ∷ self.new) }
    {
        let left = self.left;
        if left.kinds.is_empty() {
            return None;
        }
        let kind = left.kinds[0];
        self.left = behind(kind, left);
        Some(view(kind, left))
    }

    /// Another reader of the same steps.
    pub fn again(&self) -> Reader<'a>
        ensures { result ≡ self.now }
    {
        Reader { left: self.left }
    }
}
