//! How a list of lemmas ends.
ghost use Rattle.std.specs.Prelude.{◌≡◌, ◌++◌, ◌∷◌, [], ◌<◌, length, IfOk, OnOk, map, Some, slice_get};
ghost use Rattle.refute_tree.specs.Trees.{stated};
ghost use Rattle.book_core.specs.code.Closing.{leaf_steps};
ghost use Rattle.book_core.specs.Verdicts.{last_lemma};
ghost use Rattle.kept_search.specs.code.Closing.{Closes};

use refute_tree::{Lemma, Refutation, Steps};
use std::alloc::{AllocError, Global};
use stn_core::{Clause, Literal};

fn push_leaf(steps: &mut Steps, j: usize, clause: &[Literal]) -> Result<(), AllocError>
    ensures { OnOk result (steps.new ≡ steps.old ++ leaf_steps j clause.now) }
{
    steps.push_lemma(j)?;
    for literal in clause {
        steps.push_pair(*literal)?;
    }
    Ok(())
}

/// The cases of the lemma with this number, each closed by what is assumed.
pub(crate) fn close_by(steps: &mut Steps, lemmas: &[Lemma], j: usize) -> Result<(), AllocError>
    requires { j < length lemmas.now }
    ensures { OnOk result (Closes (map stated lemmas.now) j steps.old steps.new) }
{
    push_leaf(steps, j, lemmas[j].clause.as_slice())?;
    Ok(())
}

/// The lemmas, and one more without literals by these steps.
pub(crate) fn with_last(
    alloc: Global,
    mut lemmas: Vec<Lemma>,
    steps: Steps,
) -> Result<Refutation, AllocError>
    ensures { IfOk result (λ r. r ≡ lemmas.items ++ last_lemma steps ∷ []) }
{
    let clause = Clause::new(Vec::new(alloc));
    lemmas.push(Lemma { clause, steps })?;
    Ok(Refutation::new(lemmas))
}
