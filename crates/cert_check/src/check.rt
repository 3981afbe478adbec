ghost use Rattle.std.specs.Prelude.{◌≡◌, ◌<◌, ◌+◌, length, map, OnOk, Some};
ghost use Rattle.refute_tree.specs.Trees.{IsRefutation, stated};
ghost use Rattle.cert_check.specs.Flaws.{ends_empty, refutation_flaw, TellsFlaw};
ghost use Rattle.cert_check.specs.code.Walks.{flaw_of_tree, flaw_of};

use crate::cases::are_on_points;
use crate::flaw::{CheckError, Flaw, FlawKind};
use crate::laws::flaw_law;
use crate::walk::{Walk, WalkError};
use refute_tree::{Earlier, Lemma, Reader, Refutation};
use std::alloc::Global;
use stn_core::Problem;

fn flawed(lemma: usize, step: usize, kind: FlawKind) -> Result<(), CheckError>
    ensures { TellsFlaw (Some (record { lemma = lemma; step = step; kind = kind })) result }
{
    Err(CheckError::Refused(Flaw { lemma, step, kind }))
}

/// The number of the step that was read last, of so many, where these are left.
fn last_read(count: usize, reader: &Reader<'_>) -> usize
    requires { length reader.now < count }
    ensures { result + 1 + length reader.now ≡ count }
{
    let mut left = reader.again();
    let mut number = count - 1;
    'left: while let Some(_) = left.next() {
        number -= 1;
    }
    number
}

/// The lemma's steps, of which its tree is to be made.
fn check_steps<E: Earlier>(
    alloc: Global,
    problem: &Problem,
    earlier: &E,
    lemma: &Lemma,
) -> Result<(), CheckError>
    ensures { TellsFlaw (flaw_of_tree problem.now (E.clauses earlier.now) lemma.now) result }
{
    let number = earlier.count();
    let Ok(mut walk) = Walk::new(alloc, lemma.clause.as_slice()) else {
        return Err(CheckError::OutOfMemory);
    };
    let mut open = true;
    let count = lemma.steps.len();
    let mut reader = lemma.steps.reader();
    'steps: while let Some(step) = reader.next() {
        if !open {
            let at = last_read(count, &reader);
            return flawed(number, at, FlawKind::StepsLeftOver);
        }
        open = match walk.read(problem, earlier, step, &mut reader) {
            Ok(open) => open,
            Err(WalkError::Refused(kind)) => {
                let at = last_read(count, &reader);
                return flawed(number, at, kind);
            }
            Err(WalkError::OutOfMemory) => return Err(CheckError::OutOfMemory),
        };
    }
    if open {
        return flawed(number, count, FlawKind::StepsMissing);
    }
    Ok(())
}

/// Whether the lemma is refuted over the problem and the earlier lemmas, whose clauses alone count, or its first flaw: it
/// has none exactly where it is (`lemma_law`). The lemma's number is the count of the earlier ones.
///
/// Nothing is asked of the lemma: its literals may name any points and have any bounds. It takes time in proportion to
/// the literals of its steps and of the clauses whose cases these read, and memory in the depth of the tree and the
/// literals that are assumed at once. The one error beside a flaw is want of memory.
pub fn check_lemma<E: Earlier>(
    alloc: Global,
    problem: &Problem,
    earlier: &E,
    lemma: &Lemma,
) -> Result<(), CheckError>
    ensures { TellsFlaw (flaw_of problem.now (E.clauses earlier.now) lemma.now) result }
{
    if !are_on_points(problem.points, lemma.clause.as_slice()) {
        return flawed(earlier.count(), 0, FlawKind::NoSuchPoint);
    }
    check_steps(alloc, problem, earlier, lemma)
}

/// Whether the last lemma has no literals, and there is one.
fn ends_empty(lemmas: &[Lemma]) -> bool
    ensures { result ≡ ends_empty (map stated lemmas.now) }
{
    match lemmas.last() {
        Some(lemma) => lemma.clause.as_slice().is_empty(),
        None => false,
    }
}

/// Whether the lemmas are a refutation of the problem, or their first flaw, in the order of the lemmas and of the steps
/// in each.
///
/// Nothing is asked of the lemmas. It takes the time and memory of `check_lemma` for each of them. The one error beside
/// a flaw is want of memory.
pub fn check_refutation(
    alloc: Global,
    problem: &Problem,
    refutation: &Refutation,
) -> Result<(), CheckError>
    ensures flaw { TellsFlaw
        (refutation_flaw problem.now.points problem.now.clauses refutation.now) result }
    ensures refutes { OnOk result (IsRefutation problem.now.points problem.now.clauses refutation.now) }
{
    flaw_law();
    let lemmas = refutation.as_slice();
    for (number, lemma) in lemmas.iter().enumerate() {
        let earlier = &lemmas[..number];
        check_lemma(alloc, problem, &earlier, lemma)?;
    }
    if !ends_empty(lemmas) {
        return flawed(lemmas.len(), 0, FlawKind::LastLemmaNotEmpty);
    }
    Ok(())
}
