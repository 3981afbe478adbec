//! Summands in a tree by their time points.
ghost use Rattle.std.specs.Prelude.{◌≡◌, ◌<◌, ◌≤◌, ◌≤ℤ◌, ◌+ℤ◌, ◌++◌, ◌^◌, [], neg_ℤ, pos, length, true, false, IfOk, IfErr};
ghost use Rattle.std.specs.List.{AllByRecursion};
ghost use Rattle.idl_linear.specs.Limits.{coefficient_limit, points_limit};
ghost use Rattle.idl_linear.specs.Linear.{with_summand, is_within};
ghost use Rattle.idl_linear.specs.Forms.{AscendAbove};
ghost use Rattle.idl_linear.specs.code.Steps.{IsRest, Refuses};
ghost use Rattle.idl_linear.specs.code.Trees.{coefficient_at, since, AllFrom, AllUpTo, AllWithin};

use crate::error::LinearError;
use crate::leaf::{count_below, greatest_of, leaf_with};
use crate::summand::Summand;
use std::alloc::{AllocError, Global};
use std::marker::Model;
use std::sync::Arc;

/// The most summands that a leaf has, where its range is longer than one time point.
const LEAF_LIMIT: usize = 32;

/// Half of the range of all time points.
const HALF_RANGE: u32 = 65_536;

/// Summands by ascending time points. Trees share their parts: another coefficient of one time point takes time and memory by the depth,
/// which is at most 18, since each fork halves its range.
#[derive(Drop)]
#[cycle(tree)]
pub(crate) struct Tree {
    part: Part,
}

#[derive(Drop)]
#[cycle(tree)]
pub(crate) enum Part {
    Leaf(Vec<Summand>),
    /// The time points of the left side are below the middle, and no others.
    Fork {
        middle: u32,
        /// How many summands there are, as far as is known.
        count: usize,
        /// No coefficient is beyond this in its absolute value.
        greatest: u64,
        left: Arc<Tree>,
        right: Arc<Tree>,
    },
}

impl Model for Tree {
    ghost use Rattle.idl_linear.specs.code.Trees.{TreeValue};

    ghost Value = { TreeValue };

    ghost use Rattle.idl_linear.specs.code.TreeParts.{tree_in, IsParted};

    ghost view = { λ t. tree_in t.part };

    ghost invariant = { λ t. IsParted t.part };

    ghost size = { λ t. t.height };

    ghost use Rattle.std.proofs.Common.{arith};

    ghost size_decreases = { λ a h. Prim.grind (arith) };
}

/// Some of a tree's summands, one after the other, and from where on the others stand.
#[derive(Clone, Copy)]
pub(crate) struct Piece<'a> {
    pub(crate) items: &'a [Summand],
    pub(crate) next: u32,
}

impl Tree {
    /// How many summands there are, as far as is known.
    pub(crate) fn count(&self) -> usize {
        match &self.part {
            Part::Leaf(items) => items.len(),
            Part::Fork { count, .. } => *count,
        }
    }

    /// No coefficient is beyond this in its absolute value.
    pub(crate) fn greatest(&self) -> u64
        ensures { AllWithin result self.now.summands }
    {
        match &self.part {
            Part::Leaf(items) => greatest_of(items),
            Part::Fork { greatest, .. } => *greatest,
        }
    }

    /// The tree of summands by ascending time points.
    pub(crate) fn new(alloc: Global, items: &[Summand]) -> Result<Tree, AllocError>
        requires { AscendAbove 0 items.now }
        ensures { IfOk result (λ t. t.summands ≡ items.now) }
    {
        let tree = build(alloc, items, 0, HALF_RANGE)?;
        Ok(tree)
    }

    /// The tree with so much more of a time point.
    pub(crate) fn with(&self, alloc: Global, point: u32, more: i128) -> Result<Tree, LinearError>
        requires rest { IsRest self.now.summands }
        requires above { 0 < point }
        requires low { neg_ℤ (pos (2 ^ 100)) ≤ℤ more }
        requires high { more ≤ℤ pos (2 ^ 100) }
        ensures ok { IfOk result (λ t. t.summands ≡ with_summand (record { point = point; coefficient = more }) self.now.summands) }
        ensures limited { IfOk result (λ _. is_within coefficient_limit (coefficient_at point self.now.summands +ℤ more) ≡ true) }
        ensures refused { IfErr result (λ why. Refuses why (is_within coefficient_limit (coefficient_at point self.now.summands +ℤ more))) }
    {
        let tree = with_more(alloc, self, (0, HALF_RANGE), point, more)?;
        Ok(tree)
    }

    /// The first summands from a time point on, all of them below `end`. There are none where no summand is left.
    pub(crate) fn piece(&self, from: u32, end: u32) -> Piece<'_>
        requires ascends { AscendAbove 0 self.now.summands }
        requires over { AllUpTo end self.now.summands }
        requires order { from ≤ end }
        ensures same { since from self.now.summands ≡ result.items.now ++ since result.next self.now.summands }
        ensures none { length result.items.now ≡ 0 → since from self.now.summands ≡ [] }
        ensures low { from ≤ result.next }
        ensures high { result.next ≤ end }
    {
        match &self.part {
            Part::Leaf(items) => {
                let count = count_below(items, from);
                Piece {
                    items: &items[count..],
                    next: end,
                }
            }
            Part::Fork {
                middle,
                left,
                right,
                ..
            } => {
                if from >= *middle {
                    return right.piece(from, end);
                }
                let split = (*middle).min(end);
                let piece = left.piece(from, split);
                if piece.items.is_empty() {
                    right.piece(split, end)
                } else {
                    piece
                }
            }
        }
    }
}

/// Two sides by their middle.
fn fork(alloc: Global, middle: u32, left: Arc<Tree>, right: Arc<Tree>) -> Tree
    requires left { AllUpTo middle left.value.summands }
    requires right { AllFrom middle right.value.summands }
    ensures { result.summands ≡ left.value.summands ++ right.value.summands }
{
    let count = left.count().saturating_add(right.count());
    let greatest = left.greatest().max(right.greatest());
    Tree {
        part: Part::Fork {
            middle,
            count,
            greatest,
            left,
            right,
        },
    }
}

/// The tree of summands by ascending time points, whose range begins there and is twice the half.
fn build(alloc: Global, items: &[Summand], from: u32, half: u32) -> Result<Tree, AllocError>
    requires { AscendAbove 0 items.now }
    ensures { IfOk result (λ t. t.summands ≡ items.now) }
{
    if items.len() <= LEAF_LIMIT || half == 0 {
        let items = Vec::from_slice(alloc, items)?;
        return Ok(Tree {
            part: Part::Leaf(items),
        });
    }
    let middle = from.saturating_add(half);
    let count = count_below(items, middle);
    let left = build(alloc, &items[..count], from, half / 2)?;
    let right = build(alloc, &items[count..], middle, half / 2)?;
    let left = Arc::new(alloc, left)?;
    let right = Arc::new(alloc, right)?;
    Ok(fork(alloc, middle, left, right))
}

/// The tree with so much more of a time point, where its range begins there and is twice the half.
fn with_more(
    alloc: Global,
    tree: &Tree,
    range: (u32, u32),
    point: u32,
    more: i128,
) -> Result<Tree, LinearError>
    requires rest { IsRest tree.now.summands }
    requires above { 0 < point }
    requires low { neg_ℤ (pos (2 ^ 100)) ≤ℤ more }
    requires high { more ≤ℤ pos (2 ^ 100) }
    ensures ok { IfOk result (λ t. t.summands ≡ with_summand (record { point = point; coefficient = more }) tree.now.summands) }
    ensures limited { IfOk result (λ _. is_within coefficient_limit (coefficient_at point tree.now.summands +ℤ more) ≡ true) }
    ensures refused { IfErr result (λ why. Refuses why (is_within coefficient_limit (coefficient_at point tree.now.summands +ℤ more))) }
{
    let (from, half) = range;
    match &tree.part {
        Part::Leaf(items) => {
            let items = leaf_with(alloc, items, point, more)?;
            let tree = build(alloc, &items, from, half)?;
            Ok(tree)
        }
        Part::Fork {
            middle,
            left,
            right,
            ..
        } => {
            if point < *middle {
                let left = with_more(alloc, left, (from, half / 2), point, more)?;
                let left = Arc::new(alloc, left)?;
                let right = Arc::try_clone(right)?;
                Ok(fork(alloc, *middle, left, right))
            } else {
                let right = with_more(alloc, right, (*middle, half / 2), point, more)?;
                let right = Arc::new(alloc, right)?;
                let left = Arc::try_clone(left)?;
                Ok(fork(alloc, *middle, left, right))
            }
        }
    }
}
