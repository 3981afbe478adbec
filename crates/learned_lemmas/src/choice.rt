//! Which lemmas of a refutation are kept.
ghost use Rattle.std.specs.Prelude.{◌≡◌, length, IfOk};
ghost use Rattle.carried_lemmas.specs.Shared.{lemmas_of};

use refute_tree::Lemma;
use std::alloc::{AllocError, Global};
use std::sync::Arc;

/// Which lemmas are kept for their own sake: the newest of the short ones.
#[derive(Clone, Copy)]
pub struct Choice {
    /// How many literals such a lemma has at most.
    pub longest: usize,
    /// How many of them are kept at most.
    pub most: usize,
}

// Whether the lemma is short. One without literals says that its problem has no solution, and is of no use to another.
fn is_short(lemma: &Lemma, longest: usize) -> bool {
    let count = lemma.clause.as_slice().len();
    0 < count && count <= longest
}

/// For each lemma whether it is kept for its own sake.
pub fn wanted(alloc: Global, lemmas: &[Lemma], choice: Choice) -> Result<Vec<bool>, AllocError>
    ensures { IfOk result (λ wanted. length wanted.items ≡ length lemmas.now) }
{
    let mut wanted = vec![in alloc; false; lemmas.len()]?;
    let mut left = choice.most;
    let mut number = lemmas.len();
    'back: while number > 0 && left > 0 {
        number -= 1;
        if is_short(&lemmas[number], choice.longest) {
            wanted[number] = true;
            left -= 1;
        }
    }
    Ok(wanted)
}

/// Equal lemmas in memory of their own.
pub fn copies(alloc: Global, lemmas: &[Lemma]) -> Result<Vec<Lemma>, AllocError>
    ensures { IfOk result (λ all. all.items ≡ lemmas.now) }
{
    let mut all = Vec::with_capacity(alloc, lemmas.len())?;
    for lemma in lemmas {
        all.push(lemma.copy(alloc)?)?;
    }
    Ok(all)
}

/// The lemmas, which may be shared.
pub fn shared(alloc: Global, lemmas: Vec<Lemma>) -> Result<Vec<Arc<Lemma>>, AllocError>
    ensures { IfOk result (λ all. lemmas_of all.items ≡ lemmas.items) }
{
    let mut all = Vec::with_capacity(alloc, lemmas.len())?;
    for lemma in lemmas {
        all.push(Arc::new(alloc, lemma)?)?;
    }
    Ok(all)
}
