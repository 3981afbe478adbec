//! Lemmas that a search made over the first lemmas of a list, to be put at the list's end.
ghost use Rattle.std.specs.Prelude.{◌≡◌, ◌<◌, ◌≤◌, ◌+◌, ◌^◌, length, map, All, IfOk};
ghost use Rattle.refute_tree.specs.Limits.{lemmas_limit};
ghost use Rattle.refute_tree.specs.Moves.{moved_number, MovesWithin};
ghost use Rattle.refute_tree.specs.Batches.{moved, moved_lemma, LemmaRefersBelow, LemmaMovesWithin};

use crate::lemma::Lemma;
use std::alloc::AllocError;
use std::marker::Model;

/// Lemmas that were made over the first `seen` lemmas of a list: a reference below `seen` is to that list, and
/// `seen + i` is to the batch's own lemma with the number i, from 0.
pub struct Batch {
    seen: usize,
    lemmas: Vec<Lemma>,
}

impl Drop for Batch {
    fn drop(self) {
        let Batch { seen: _, lemmas } = self;
        drop(lemmas);
    }
}

impl Model for Batch {
    ghost use Rattle.refute_tree.specs.Batches.{LemmaBatch};

    ghost Value = { LemmaBatch };

    ghost view = { λ b. record { seen = b.seen; lemmas = b.lemmas.items } };
}

impl Batch {
    pub fn new(seen: usize, lemmas: Vec<Lemma>) -> Self
        ensures seen { result.seen ≡ seen }
        ensures lemmas { result.lemmas ≡ lemmas.items }
    {
        Batch { seen, lemmas }
    }

    pub fn seen(&self) -> usize
        ensures { result ≡ self.now.seen }
    {
        self.seen
    }

    pub fn lemmas(&self) -> &[Lemma]
        ensures { result.now ≡ self.now.lemmas }
    {
        self.lemmas.as_slice()
    }

    /// The lemmas in a `Vec`, without taking memory.
    pub fn into_lemmas(self) -> Vec<Lemma>
        ensures { result.items ≡ self.lemmas }
    {
        let Batch { lemmas, seen: _ } = self;
        lemmas
    }

    /// The batch as it stands behind the first `base` lemmas of a longer list. It takes no memory, and time in the
    /// count of the batch's steps.
    pub fn move_to(&mut self, base: usize)
        requires below { All (LemmaRefersBelow (self.old.seen + length self.old.lemmas)) self.old.lemmas }
        requires fits { base + length self.old.lemmas ≤ lemmas_limit }
        ensures { self.new ≡ moved base self.old }
    {
        move_each(self.lemmas.as_mut_slice(), self.seen, base);
        self.seen = base;
    }

    /// What the batch's reference to a lemma is after a move to `base`.
    pub fn moved_number(&self, j: usize, base: usize) -> usize
        requires { moved_number self.now.seen base j < 2 ^ 64 }
        ensures { result ≡ moved_number self.now.seen base j }
    {
        if j < self.seen {
            j
        } else {
            j - self.seen + base
        }
    }

    /// An equal batch in memory of its own.
    pub fn copy(&self) -> Result<Self, AllocError>
        ensures { IfOk result (λ batch. batch ≡ self.now) }
    {
        let alloc = *self.lemmas.allocator();
        let mut lemmas = Vec::with_capacity(alloc, self.lemmas.len())?;
        for lemma in self.lemmas.as_slice() {
            lemmas.push(lemma.copy(alloc)?)?;
        }
        Ok(Batch {
            seen: self.seen,
            lemmas,
        })
    }
}

fn move_lemma(lemma: &mut Lemma, seen: usize, base: usize)
    requires { LemmaMovesWithin seen base lemma.old }
    ensures { lemma.new ≡ moved_lemma seen base lemma.old }
{
    lemma.steps.move_lemmas(seen, base);
}

fn move_each(lemmas: &mut [Lemma], seen: usize, base: usize)
    requires { All (LemmaMovesWithin seen base) lemmas.old }
    ensures { lemmas.new ≡ map (moved_lemma seen base) lemmas.old }
{
    for lemma in lemmas.iter_mut() {
        move_lemma(lemma, seen, base);
    }
}
