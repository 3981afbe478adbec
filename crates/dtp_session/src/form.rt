//! Refutations as a version of certificates shows them.
ghost use Rattle.std.specs.Prelude.{◌≡◌, map, IfOk, OnOk};
ghost use Rattle.dtp_session.specs.code.Forms.{formed, shown_in};

use cert_text::{Entry, Version};
use refute_tree::{Lemma, Refutation, lengthen, shorten};
use std::alloc::{AllocError, Global};
use stn_core::Problem;

/// The lemma as the version shows it.
fn formed(
    alloc: Global,
    version: Version,
    problem: &Problem,
    lemma: &Lemma,
) -> Result<Lemma, AllocError>
    ensures { IfOk result (λ shown. shown ≡ formed version problem.now.clauses lemma.now) }
{
    match version {
        Version::One => lengthen(alloc, problem, lemma),
        Version::Two => shorten(alloc, problem, lemma),
    }
}

/// Puts in each lemma's place how the version shows it, and lets the lemma as it was go.
fn form_each(
    alloc: Global,
    version: Version,
    problem: &Problem,
    lemmas: &mut [Lemma],
) -> Result<(), AllocError>
    ensures { OnOk result (lemmas.new ≡ map (formed version problem.now.clauses) lemmas.old) }
{
    for lemma in lemmas.iter_mut() {
        *lemma = formed(alloc, version, problem, lemma)?;
    }
    Ok(())
}

/// The refutation as a certificate of the version shows it.
pub fn in_form(
    alloc: Global,
    version: Version,
    problem: &Problem,
    refutation: Refutation,
) -> Result<Refutation, AllocError>
    ensures { IfOk result (λ shown. shown ≡ map (formed version problem.now.clauses) refutation) }
{
    let mut lemmas = refutation.into_vec();
    form_each(alloc, version, problem, lemmas.as_mut_slice())?;
    Ok(Refutation::new(lemmas))
}

/// The entry as a certificate of the version shows it, where this is its problem: of a best value the one with the last
/// clause.
pub fn entry_in_form(
    alloc: Global,
    version: Version,
    problem: &Problem,
    entry: Entry,
) -> Result<Entry, AllocError>
    ensures { IfOk result (λ shown. shown ≡ shown_in version problem.now.clauses entry) }
{
    match entry {
        Entry::Unsat(refutation) => {
            let shown = in_form(alloc, version, problem, refutation)?;
            Ok(Entry::Unsat(shown))
        }
        Entry::Best(minimum, schedule, refutation) => {
            let shown = in_form(alloc, version, problem, refutation)?;
            Ok(Entry::Best(minimum, schedule, shown))
        }
        other => Ok(other),
    }
}

/// The same of lemmas that stay as they are.
pub fn forms_of(
    alloc: Global,
    version: Version,
    problem: &Problem,
    lemmas: &[Lemma],
) -> Result<Refutation, AllocError>
    ensures { IfOk result (λ shown. shown ≡ map (formed version problem.now.clauses) lemmas.now) }
{
    let mut shown = Vec::with_capacity(alloc, lemmas.len())?;
    for lemma in lemmas {
        shown.push(formed(alloc, version, problem, lemma)?)?;
    }
    Ok(Refutation::new(shown))
}
