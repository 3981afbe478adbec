//! The items of an entry as lemmas of its own, in the first version.
ghost use Rattle.std.specs.Prelude.{◌≡◌, ◌∷◌, [], ◌++◌, Bool, true, List, map, IfOk, IsOk, OnOk};
ghost use Rattle.refute_tree.specs.Lengths.{lengthened_lemma};
ghost use Rattle.cert_text.specs.declared.entry.FileEntry.{FileEntry as Shown};
ghost use Rattle.kept_lemmas.specs.Entries.{Placed as Place};
ghost use Rattle.dtp_check.specs.code.Earlier.{Holds, HoldsTrees, Suffices};
ghost use Rattle.dtp_convert.specs.code.Shown.{AreItemsShown};

use crate::fitting::are_within;
use cert_check::CheckError;
use dtp_check::{Earlier, EntryFlaw};
use kept_lemmas::Items;
use refute_tree::{Lemma, Refutation, lengthen};
use std::alloc::{AllocError, Global};
use stn_core::Problem;

/// Writes out the clashes of each lemma, and lets the lemma as it was go.
fn write_out_each(alloc: Global, problem: &Problem, lemmas: &mut [Lemma]) -> Result<(), AllocError>
    ensures { OnOk result (lemmas.new ≡ map (lengthened_lemma problem.now.clauses) lemmas.old) }
{
    for lemma in lemmas.iter_mut() {
        *lemma = lengthen(alloc, problem, lemma)?;
    }
    Ok(())
}

/// The refutation with each clash written out.
fn written_out(
    alloc: Global,
    problem: &Problem,
    refutation: Refutation,
) -> Result<Refutation, AllocError>
    ensures { IfOk result (λ shown. shown ≡ map (lengthened_lemma problem.now.clauses) refutation) }
{
    let mut lemmas = refutation.into_vec();
    write_out_each(alloc, problem, lemmas.as_mut_slice())?;
    Ok(Refutation::new(lemmas))
}

/// The items of an entry as lemmas of its own over its problem, or what is wrong with them. Where nothing is, they are held for
/// those that come.
pub fn shown_lemmas(
    alloc: Global,
    problem: &Problem,
    earlier: &mut Earlier,
    items: &Items,
) -> Result<Result<Refutation, EntryFlaw>, AllocError>
    requires suffices { Suffices earlier.old (Shown.Unsat items.now ∷ []) }
    requires trees { HoldsTrees true earlier.old }
    ensures shown { IfOk result (λ found. (before : List Place) → Holds earlier.old before
        → AreItemsShown before problem.now.points problem.now.clauses items.now found) }
    ensures held { IfOk result (λ found. IsOk found → (before : List Place) → Holds earlier.old before → Holds earlier.new
        (before ++ record { points = problem.now.points; clauses = problem.now.clauses; items = items.now } ∷ [])) }
    ensures suffices { (entries : List Shown) → Suffices earlier.old entries → Suffices earlier.new entries }
    ensures trees { (wanted : Bool) → HoldsTrees wanted earlier.old → HoldsTrees wanted earlier.new }
{
    refute_tree::lengths_law();
    let refutation = match earlier.lowered(alloc, problem, items.as_slice()) {
        Ok(refutation) => refutation,
        Err(CheckError::Refused(flaw)) => return Ok(Err(EntryFlaw::Flawed(flaw))),
        Err(CheckError::OutOfMemory) => return Err(AllocError),
    };
    let shown = written_out(alloc, problem, refutation)?;
    // numbers that can be read stay as they are, so this doesn't come
    if !are_within(shown.as_slice()) {
        return Err(AllocError);
    }
    Ok(Ok(shown))
}
