//! Refutations as entries show them.
ghost use Rattle.std.specs.Prelude.{◌≡◌, All, IfOk};
ghost use Rattle.refute_tree.specs.Batches.{LemmaIsOver};
ghost use Rattle.refute_tree.specs.Trees.{IsRefutation};
ghost use Rattle.dtp_session.specs.code.Forms.{shown_in, version_wanted};
ghost use Rattle.dtp_session.specs.code.Decisions.{IsKeptOf, IsShownRefuted};
ghost use Rattle.dtp_session.specs.code.Keeping.{RefutesBy, IsEntered, passed};
ghost use Rattle.trim_lemmas.specs.Trimming.{StaysRefutation, StaysOver};

use crate::earlier::Earlier;
use crate::form::entry_in_form;
use crate::found::Found;
use crate::shown_items::ShownItems;
use crate::wanted::Wanted;
use cert_text::{Entry, NUMBER_LIMIT};
use refute_tree::Refutation;
use std::alloc::{AllocError, Global};
use stn_core::Problem;
use trim_lemmas::trimmed;

/// The lemmas that an entry shows: those that the last one needs. Where no entry is wanted, all stay.
fn needed(alloc: Global, wanted: Wanted, refutation: Refutation) -> Result<Refutation, AllocError>
    ensures refutes { IfOk result (StaysRefutation refutation) }
    ensures over { IfOk result (StaysOver refutation) }
{
    match wanted {
        Wanted::Verdict => Ok(refutation),
        Wanted::Entry(_) => trimmed(alloc, refutation),
    }
}

/// The lemmas that an entry over the problem shows. So many clauses or lemmas as an entry can't name are in no memory.
pub fn kept(
    alloc: Global,
    wanted: Wanted,
    problem: &Problem,
    refutation: Refutation,
) -> Result<Refutation, AllocError>
    ensures { IfOk result (IsKeptOf problem.now.clauses refutation) }
{
    let kept = needed(alloc, wanted, refutation)?;
    let count = problem.clauses.as_slice().len().max(kept.as_slice().len());
    if count as u64 > NUMBER_LIMIT {
        return Err(AllocError);
    }
    Ok(kept)
}

/// An entry as it is held, with the items that stand in the place of its lemmas in a certificate of the second version.
#[derive(Drop)]
pub struct Shown {
    pub found: Found,
    pub items: ShownItems,
}

/// What is held of an entry without lemmas.
pub fn without_lemmas(
    alloc: Global,
    wanted: Wanted,
    entry: Entry,
    earlier: &mut Earlier,
) -> Result<Shown, AllocError>
    ensures found { IfOk result (λ shown. shown.found ≡ entry) }
    ensures passed { IfOk result (λ shown. earlier.new ≡ passed (version_wanted wanted) earlier.old) }
{
    earlier.pass(alloc, wanted.version())?;
    Ok(Shown {
        found: Found::shown(entry),
        items: ShownItems::none(),
    })
}

/// What is held of an entry whose lemmas refute the problem. Its form is made where the entry is wanted.
pub fn with_lemmas(
    alloc: Global,
    wanted: Wanted,
    problem: Problem,
    entry: Entry,
    earlier: &mut Earlier,
) -> Result<Shown, AllocError>
    requires { RefutesBy problem.points problem.clauses entry }
    ensures found { IfOk result (λ shown. shown.found ≡ shown_in (version_wanted wanted) problem.clauses entry) }
    ensures entered { IfOk result (λ shown.
        IsEntered (version_wanted wanted) earlier.old problem.points problem.clauses shown.found shown.items earlier.new) }
{
    refute_tree::lengths_law();
    match wanted {
        Wanted::Verdict => Ok(Shown {
            found: Found::unformed(problem, entry),
            items: ShownItems::none(),
        }),
        Wanted::Entry(version) => {
            let formed = entry_in_form(alloc, version, &problem, entry)?;
            let items = earlier.enter(alloc, version, problem, &formed)?;
            Ok(Shown {
                found: Found::shown(formed),
                items,
            })
        }
    }
}

/// The entry of a refutation of the problem, which may have been taken over as it is. Later problems' searches may take over lemmas of it.
pub fn refuted(
    alloc: Global,
    wanted: Wanted,
    problem: Problem,
    refutation: Refutation,
    is_taken: bool,
    earlier: &mut Earlier,
) -> Result<Shown, AllocError>
    requires refutes { IsRefutation problem.points problem.clauses refutation }
    requires over { All (LemmaIsOver problem.points) refutation }
    ensures found { IfOk result (λ shown. IsShownRefuted (version_wanted wanted) problem refutation shown.found) }
    ensures entered { IfOk result (λ shown.
        IsEntered (version_wanted wanted) earlier.old problem.points problem.clauses shown.found shown.items earlier.new) }
{
    earlier.learn(alloc, &problem, refutation.as_slice(), is_taken)?;
    let lemmas = kept(alloc, wanted, &problem, refutation)?;
    with_lemmas(alloc, wanted, problem, Entry::Unsat(lemmas), earlier)
}
