ghost use Rattle.std.specs.Prelude.{◌≡◌, IfOk};
ghost use Rattle.idl_linear.specs.code.Held.{held_summands};
ghost use Rattle.idl_linear.specs.code.Steps.{IsRest};
ghost use Rattle.idl_linear.specs.code.Trees.{signed, AllWithin};
ghost use Rattle.idl_linear.specs.code.Branching.{IsBranches};

use crate::cursor::Cursor;
use crate::leaf::greatest_of;
use crate::summand::Summand;
use crate::tree::Tree;
use std::alloc::{AllocError, Global};
use std::slice;
use std::sync::Arc;

/// How many summands a list has at most that no tree is made for.
const FEW: usize = 32;

/// A list of summands that takes no memory for one or two of them, and that many share where it is long.
#[derive(Drop)]
pub(crate) enum Held {
    One(Summand),
    Two([Summand; 2]),
    Many(Vec<Summand>),
    Shared { is_negated: bool, tree: Arc<Tree> },
}

/// A tree, and whether its summands are the negatives of those that are meant.
#[derive(Drop)]
pub(crate) struct Branches {
    pub(crate) is_negated: bool,
    pub(crate) tree: Arc<Tree>,
}

impl Held {
    /// Summands that ascend. Many of them are made into a tree.
    pub(crate) fn new(alloc: Global, summands: Vec<Summand>) -> Result<Self, AllocError>
        requires { IsRest summands.items }
        ensures { IfOk result (λ held. held_summands held ≡ summands.items) }
    {
        if summands.len() <= FEW {
            return Ok(Held::Many(summands));
        }
        let tree = Tree::new(alloc, &summands)?;
        let tree = Arc::new(alloc, tree)?;
        Ok(Held::Shared {
            is_negated: false,
            tree,
        })
    }

    /// A tree of these summands, or of their negatives.
    pub(crate) fn branches(&self, alloc: Global, is_negated: bool) -> Result<Branches, AllocError>
        requires { IsRest (held_summands self.now) }
        ensures { IfOk result (λ b. IsBranches (signed is_negated (held_summands self.now)) b) }
    {
        let items = match self {
            Held::One(summand) => slice::from_ref(summand),
            Held::Two(pair) => pair.as_slice(),
            Held::Many(summands) => summands.as_slice(),
            Held::Shared {
                is_negated: is_tree_negated,
                tree,
            } => {
                let tree = Arc::try_clone(tree)?;
                return Ok(Branches {
                    is_negated: *is_tree_negated != is_negated,
                    tree,
                });
            }
        };
        let tree = Tree::new(alloc, items)?;
        let tree = Arc::new(alloc, tree)?;
        Ok(Branches { is_negated, tree })
    }

    /// How many summands there are, as far as is known.
    pub(crate) fn count(&self) -> usize {
        match self {
            Held::One(_) => 1,
            Held::Two(_) => 2,
            Held::Many(summands) => summands.len(),
            Held::Shared { tree, .. } => tree.count(),
        }
    }

    /// No coefficient is beyond this in its absolute value.
    pub(crate) fn greatest(&self) -> u64
        ensures { AllWithin result (held_summands self.now) }
    {
        match self {
            Held::One(summand) => summand.coefficient.unsigned_abs(),
            Held::Two(pair) => greatest_of(pair.as_slice()),
            Held::Many(summands) => greatest_of(summands),
            Held::Shared { tree, .. } => tree.greatest(),
        }
    }

    /// A walk over the summands or their negatives.
    pub(crate) fn cursor(&self, is_negated: bool) -> Cursor<'_>
        requires { IsRest (held_summands self.now) }
        ensures { result ≡ signed is_negated (held_summands self.entry.now) }
    {
        match self {
            Held::One(summand) => Cursor::of_list(slice::from_ref(summand), is_negated),
            Held::Two(pair) => Cursor::of_list(pair.as_slice(), is_negated),
            Held::Many(summands) => Cursor::of_list(summands.as_slice(), is_negated),
            Held::Shared {
                is_negated: is_tree_negated,
                tree,
            } => Cursor::of_tree(tree, *is_tree_negated != is_negated),
        }
    }

    /// An equal list. It shares a tree, and has other summands in memory of its own.
    pub(crate) fn copy(&self) -> Result<Self, AllocError>
        ensures { IfOk result (λ held. held_summands held ≡ held_summands self.now) }
    {
        match self {
            Held::One(summand) => Ok(Held::One(*summand)),
            Held::Two(pair) => Ok(Held::Two(*pair)),
            Held::Many(summands) => {
                let copied = summands.clone()?;
                Ok(Held::Many(copied))
            }
            Held::Shared { is_negated, tree } => Ok(Held::Shared {
                is_negated: *is_negated,
                tree: Arc::try_clone(tree)?,
            }),
        }
    }
}
