//! Worked by hand: two operations that start at 0 at the earliest and, for one of them to go before the other, not both at 2 at the latest.
ghost use Rattle.std.specs.Prelude.{All};
ghost use Rattle.stn_core.specs.Literal.{IsOver};

use crate::operations::{
    FIRST_BY_1, FIRST_BY_2, FIRST_STARTS, SECOND_BY_2, SECOND_BY_3, SECOND_STARTS, problem_of,
};
use book_core::Verdict;
use book_search::search_one;
use cert_check::check_refutation;
use refute_tree::{Batch, Lemma, Refutation};
use relaxed_lemmas::{closing, relaxed};
use std::alloc::{AllocError, Global};
use std::test::Fail;
use stn_core::{Literal, Problem};

/// What is told of a refutation.
#[derive(Clone, Copy, Debug, PartialEq, Eq)]
struct Told {
    /// how many lemmas it has
    lemmas: usize,
    /// how many literals the last but one has
    premises: usize,
    is_tested: bool,
    /// whether it is ended where the first operation is due at 1
    ends_tighter: bool,
    /// whether it is ended where the second is due at 3
    ends_looser: bool,
}

/// Whether the lemmas are ended for the problem with these times.
fn is_ended(alloc: Global, lemmas: &[Lemma], times: &[Literal]) -> Result<bool, AllocError>
    requires { All (IsOver 3) times.now }
{
    let problem = problem_of(alloc, times)?;
    let last = closing(alloc, &problem, lemmas)?;
    Ok(last.is_some())
}

fn tell(alloc: Global, problem: &Problem, refutation: &Refutation) -> Result<Told, AllocError> {
    let tighter = [FIRST_STARTS, SECOND_STARTS, FIRST_BY_1, SECOND_BY_2];
    let looser = [FIRST_STARTS, SECOND_STARTS, FIRST_BY_2, SECOND_BY_3];
    let lemmas = refutation.as_slice();
    let front = &lemmas[..lemmas.len().saturating_sub(1)];
    let premises = match front.last() {
        Some(lemma) => lemma.clause.as_slice().len(),
        None => 0,
    };
    Ok(Told {
        lemmas: lemmas.len(),
        premises,
        is_tested: check_refutation(alloc, problem, refutation).is_ok(),
        ends_tighter: is_ended(alloc, front, tighter.as_slice())?,
        ends_looser: is_ended(alloc, front, looser.as_slice())?,
    })
}

#[test]
fn a_refutation_stands_where_times_are_tighter(rt: HostRuntime) -> Result<(), Fail> {
    let alloc = rt.alloc();
    let times = [FIRST_STARTS, SECOND_STARTS, FIRST_BY_2, SECOND_BY_2];
    let problem = problem_of(alloc, times.as_slice())?;
    let nothing = Batch::new(0, Vec::new(alloc));
    let found = match search_one(alloc, &problem, nothing, &[], 1_000)? {
        Verdict::Sat(_) => None,
        Verdict::Unsat(refutation) => {
            let all = relaxed(alloc, &problem, refutation)?;
            Some(tell(alloc, &problem, &all)?)
        }
    };
    let expected = Told {
        lemmas: 2,
        premises: 4,
        is_tested: true,
        ends_tighter: true,
        ends_looser: false,
    };
    assert_eq!(rt; found, Some(expected));
    Ok(())
}
