//! Walks over the summands of linear terms.
ghost use Rattle.std.specs.Prelude.{◌≡◌, ◌∷◌, ◌++◌, ◌≤◌, [], drop, length, Option, MatchOption, IfSome};
ghost use Rattle.idl_linear.specs.Limits.{points_limit};
ghost use Rattle.idl_linear.specs.Forms.{AscendAbove};
ghost use Rattle.idl_linear.specs.code.Steps.{IsRest};
ghost use Rattle.idl_linear.specs.code.Trees.{since, signed, tree_list, AllUpTo};

use crate::limits::NAMES_LIMIT;
use crate::summand::Summand;
use crate::tree::{Piece, Tree};
use std::marker::Model;

/// What is left of the summands of a linear term, or of their negatives, by ascending time points.
#[derive(Drop)]
pub struct Cursor<'a> {
    part: &'a [Summand],
    /// The summands behind the part are those of the tree from the next time point on.
    tree: Option<&'a Tree>,
    next: u32,
    is_negated: bool,
}

impl<'a> Model for Cursor<'a> {
    ghost use Rattle.std.specs.Prelude.{List, ◌++◌};
    ghost use Rattle.idl_linear.specs.declared.summand.Summand.{Summand as OneSummand};
    ghost use Rattle.idl_linear.specs.code.Trees.{since, signed, tree_list, IsWalk};

    ghost Value = { List OneSummand };

    ghost view = { λ c. signed c.is_negated (c.part.now ++ since c.next (tree_list c.tree)) };

    ghost invariant = { λ c. IsWalk (c.part.now ++ since c.next (tree_list c.tree)) (tree_list c.tree) c.next };
}

/// The part, or the next one where it is empty.
fn filled<'a>(part: &'a [Summand], tree: Option<&'a Tree>, next: u32) -> Piece<'a>
    requires ascends { AscendAbove 0 (tree_list tree) }
    requires over { AllUpTo points_limit (tree_list tree) }
    requires order { next ≤ points_limit }
    ensures same { part.entry.now ++ since next (tree_list tree.entry) ≡ result.items.now ++ since result.next (tree_list tree.entry) }
    ensures none { length result.items.now ≡ 0 → part.entry.now ++ since next (tree_list tree.entry) ≡ [] }
    ensures high { result.next ≤ points_limit }
{
    if part.is_empty() {
        if let Some(tree) = tree {
            return tree.piece(next, NAMES_LIMIT + 1);
        }
    }
    Piece { items: part, next }
}

impl<'a> Cursor<'a> {
    /// Of summands that stand in a list.
    pub(crate) fn of_list(part: &'a [Summand], is_negated: bool) -> Self
        requires { IsRest part.now }
        ensures { result ≡ signed is_negated part.entry.now }
    {
        Cursor {
            part,
            tree: None,
            next: 0,
            is_negated,
        }
    }

    /// Of a tree's summands.
    pub(crate) fn of_tree(tree: &'a Tree, is_negated: bool) -> Self
        requires { IsRest tree.now.summands }
        ensures { result ≡ signed is_negated tree.entry.now.summands }
    {
        let piece = tree.piece(0, NAMES_LIMIT + 1);
        Cursor {
            part: piece.items,
            tree: Some(tree),
            next: piece.next,
            is_negated,
        }
    }

    /// The next summand, which stays.
    pub(crate) fn peek(&self) -> Option<Summand>
        ensures next { MatchOption result (self.now ≡ []) (λ s. self.now ≡ s ∷ drop 1 self.now) }
        ensures rest { IsRest self.now }
    {
        let piece = filled(self.part, self.tree, self.next);
        let summand = *piece.items.first()?;
        Some(summand.signed(self.is_negated))
    }

    /// The next summand.
    pub fn next(&mut self) -> Option<Summand>
        ensures next { MatchOption result (self.old ≡ []) (λ s. self.old ≡ s ∷ self.new) }
        ensures rest { self.new ≡ drop 1 self.old }
    {
        let piece = filled(self.part, self.tree, self.next);
        self.next = piece.next;
        match piece.items.split_first() {
            Some((summand, rest)) => {
                self.part = rest;
                Some(summand.signed(self.is_negated))
            }
            None => {
                self.part = piece.items;
                None
            }
        }
    }
}
