//! A batch in the journal.
ghost use Rattle.std.specs.Prelude.{◌≡◌, IfOk};
ghost use Rattle.book_core.specs.code.Handed.{handed_in, IsMovable};
ghost use Rattle.book_core.specs.Shared.{lemmas_of};

use crate::refutation::copies;
use refute_tree::{Batch, Lemma};
use std::alloc::AllocError;
use std::marker::Model;
use std::sync::Arc;

/// A batch as it was handed in. Its lemmas are those that the book published, and are kept once.
pub struct HandedBatch {
    seen: usize,
    /// How many lemmas the book had.
    base: usize,
    published: Vec<Arc<Lemma>>,
}

impl Drop for HandedBatch {
    fn drop(self) {
        let HandedBatch {
            seen: _,
            base: _,
            published,
        } = self;
        drop(published);
    }
}

impl Model for HandedBatch {
    ghost use Rattle.refute_tree.specs.Batches.{LemmaBatch};
    ghost use Rattle.book_core.specs.code.Handed.{handed_in, IsMovable};
    ghost use Rattle.book_core.specs.Shared.{lemmas_of};

    ghost Value = { LemmaBatch };

    ghost view = { λ b. handed_in b.seen b.base (lemmas_of b.published.items) };

    ghost invariant = { λ b. IsMovable b.seen b.base (lemmas_of b.published.items) };
}

impl HandedBatch {
    pub(crate) fn new(seen: usize, base: usize, published: Vec<Arc<Lemma>>) -> Self
        requires { IsMovable seen base (lemmas_of published.items) }
        ensures { result ≡ handed_in seen base (lemmas_of published.items) }
    {
        HandedBatch {
            seen,
            base,
            published,
        }
    }

    /// The batch in memory of its own.
    pub fn copy(&self) -> Result<Batch, AllocError>
        ensures { IfOk result (λ batch. batch ≡ self.now) }
    {
        let alloc = *self.published.allocator();
        let count = self.published.len();
        let lemmas = copies(alloc, self.published.as_slice(), count)?;
        let mut batch = Batch::new(self.base, lemmas);
        batch.move_to(self.seen);
        Ok(batch)
    }
}
