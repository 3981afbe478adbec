//! What nothing needs goes, and the other lemmas are numbered anew.
ghost use Rattle.std.specs.Prelude.{◌≡◌, ◌<◌, ◌≤◌, ◌+◌, ◌^◌, length, map, IfOk};
ghost use Rattle.std.specs.List.{items_where_true};
ghost use Rattle.std.specs.Vec.{vec_len};
ghost use Rattle.trim_lemmas.specs.Trimming.{shortened, IsTrimmed, StaysRefutation, StaysOver, last_clause};
ghost use Rattle.trim_lemmas.specs.Trimming.{place, IsTrimmedBatch, StaysRefuted, StaysStated};
ghost use Rattle.refute_tree.specs.Moves.{NoneGrows};
ghost use Rattle.trim_lemmas.specs.code.Marks.{lemma_by, number_by};

use crate::marking::{needed_by, needed_lemmas};
use crate::places::Places;
use refute_tree::{Batch, Lemma, Refutation};
use std::alloc::{AllocError, Global};

// Keeps the needed lemmas, in their order.
fn keep(lemmas: &mut Vec<Lemma>, needed: &[bool])
    requires { length needed.now ≡ vec_len lemmas.old }
    ensures { lemmas.new.items ≡ items_where_true needed.now lemmas.old.items }
{
    let mut kept = 0;
    for (j, is_needed) in needed.iter().enumerate() {
        if *is_needed {
            lemmas.swap(kept, j);
            kept += 1;
        }
    }
    lemmas.truncate(kept);
}

fn renumber(lemmas: &mut [Lemma], places: &Places)
    requires { NoneGrows (number_by places.now) }
    ensures { lemmas.new ≡ map (lemma_by places.now) lemmas.old }
{
    for lemma in lemmas.iter_mut() {
        places.renumber(&mut lemma.steps);
    }
}

// Keeps the needed lemmas, numbered anew.
fn shorten(
    alloc: Global,
    seen: usize,
    mut lemmas: Vec<Lemma>,
    needed: &[bool],
) -> Result<Vec<Lemma>, AllocError>
    requires each { length needed.now ≡ vec_len lemmas }
    requires fits { seen + vec_len lemmas < 2 ^ 64 }
    ensures { IfOk result (λ shorter. shorter.items ≡ shortened seen needed.now lemmas.items) }
{
    let places = Places::new(alloc, seen, needed)?;
    keep(&mut lemmas, needed);
    renumber(lemmas.as_mut_slice(), &places);
    Ok(lemmas)
}

/// The lemmas that the last one needs, numbered anew: what refuted a problem refutes it.
///
/// It takes time in the steps that are kept and in the count of the lemmas, and memory for a mark and a word for each
/// lemma.
pub fn trimmed(alloc: Global, refutation: Refutation) -> Result<Refutation, AllocError>
    ensures trimmed { IfOk result (IsTrimmed refutation) }
    ensures refutes { IfOk result (StaysRefutation refutation) }
    ensures over { IfOk result (StaysOver refutation) }
    ensures last { IfOk result (λ shorter. last_clause shorter ≡ last_clause refutation) }
{
    let lemmas = refutation.into_vec();
    let needed = needed_lemmas(alloc, lemmas.as_slice())?;
    let shorter = shorten(alloc, 0, lemmas, needed.as_slice())?;
    Ok(Refutation::new(shorter))
}

/// What is left of a batch.
#[derive(Drop)]
pub struct TrimmedBatch {
    pub batch: Batch,
    /// For each lemma that there was whether it is left.
    pub needed: Vec<bool>,
}

impl TrimmedBatch {
    /// The number among those that are left of the lemma that had this number, if it is left.
    pub fn place(&self, j: usize) -> usize
        requires { j ≤ length self.now.needed.items }
        ensures { result ≡ place self.now.needed.items j }
    {
        let mut count = 0;
        for k in 0..j {
            if self.needed[k] {
                count += 1;
            }
        }
        count
    }
}

/// The lemmas of a batch that the wanted ones need, numbered anew. References to lemmas before the batch stay.
///
/// Time and memory are as with [`trimmed`].
pub fn trimmed_batch(
    alloc: Global,
    batch: Batch,
    wanted: Vec<bool>,
) -> Result<TrimmedBatch, AllocError>
    requires each { length wanted.items ≡ length batch.lemmas }
    requires fits { batch.seen + length batch.lemmas < 2 ^ 64 }
    ensures trimmed { IfOk result (λ left. IsTrimmedBatch wanted.items batch left.needed.items left.batch) }
    ensures refuted { IfOk result (λ left. StaysRefuted batch left.batch) }
    ensures over { IfOk result (λ left. StaysOver batch.lemmas left.batch.lemmas) }
    ensures clauses { IfOk result (λ left. StaysStated left.needed.items batch.lemmas left.batch.lemmas) }
{
    let seen = batch.seen();
    let lemmas = batch.into_lemmas();
    let needed = needed_by(seen, lemmas.as_slice(), wanted);
    let shorter = shorten(alloc, seen, lemmas, needed.as_slice())?;
    Ok(TrimmedBatch {
        batch: Batch::new(seen, shorter),
        needed,
    })
}
