ghost use Rattle.std.specs.Prelude.{◌≡◌, ◌<◌, ℕ, List, length, map, Some, slice_get};
ghost use Rattle.stn_core.specs.declared.literal.Literal.{Literal as Bound};

use crate::lemma::Lemma;
use std::sync::Arc;
use stn_core::Literal;

/// The lemmas before the one that is looked at, of which the clauses alone count.
pub trait Earlier {
    /// The clauses that the lemmas state, in their order.
    ghost clauses: { Self → List (List Bound) };

    fn count(&self) -> usize
        ensures { result ≡ length (clauses self.now) };

    /// The clause of the lemma with this number, from 0.
    fn clause(&self, j: usize) -> &[Literal]
        requires { j < length (clauses self.now) }
        ensures { slice_get (clauses self.now) j ≡ Some result.now };
}

impl<'a> Earlier for &'a [Lemma] {
    ghost use Rattle.std.specs.Prelude.{map};
    ghost use Rattle.refute_tree.specs.Trees.{stated};

    ghost clauses = { λ lemmas. map stated lemmas.now };

    fn count(&self) -> usize {
        self.len()
    }

    fn clause(&self, j: usize) -> &[Literal] {
        self[j].clause.as_slice()
    }
}

impl<'a> Earlier for &'a [Arc<Lemma>] {
    ghost use Rattle.std.specs.Prelude.{map};
    ghost use Rattle.std.specs.Arc.{arc_value};
    ghost use Rattle.refute_tree.specs.declared.lemma.Lemma.{Lemma as Stated};
    ghost use Rattle.refute_tree.specs.Trees.{stated};

    ghost clauses = { λ lemmas. map (λ a. stated (arc_value {X = Stated} a)) lemmas.now };

    fn count(&self) -> usize {
        self.len()
    }

    fn clause(&self, j: usize) -> &[Literal] {
        self[j].clause.as_slice()
    }
}
