//! Searches that begin with what an earlier one has learned.
use crate::shared::is_sat;
use carried_lemmas::carry;
use refute_tree::Batch;
use std::alloc::{AllocError, Global};
use std::test::Fail;
use steal_search::{NoGate, solve_one_with, solve_shared_with};
use stn_core::{Clause, Clauses, Literal, Problem};

const FIRST: Literal = Literal { x: 1, y: 2, c: -1 };

const NOT_FIRST: Literal = Literal { x: 2, y: 1, c: 0 };

const OTHER: Literal = Literal { x: 3, y: 4, c: -1 };

const NOT_OTHER: Literal = Literal { x: 4, y: 3, c: 0 };

/// The first literal holds, whatever the other one does.
fn either_way(alloc: Global) -> Result<Problem, AllocError> {
    let one = Clause::new([FIRST, OTHER].to_vec(alloc)?);
    let two = Clause::new([FIRST, NOT_OTHER].to_vec(alloc)?);
    let clauses = Clauses::new(vec![in alloc; one, two]?);
    Ok(Problem { points: 5, clauses })
}

/// The same clauses behind one that denies it.
fn neither_way(alloc: Global) -> Result<Problem, AllocError> {
    let denied = Clause::new([NOT_FIRST].to_vec(alloc)?);
    let one = Clause::new([FIRST, OTHER].to_vec(alloc)?);
    let two = Clause::new([FIRST, NOT_OTHER].to_vec(alloc)?);
    let clauses = Clauses::new(vec![in alloc; denied, one, two]?);
    Ok(Problem { points: 5, clauses })
}

#[test]
fn opens_with_what_was_carried(rt: HostRuntime) -> Result<(), Fail> {
    let alloc = rt.alloc();
    let old = either_way(alloc)?;
    let new = neither_way(alloc)?;
    let nothing = Batch::new(0, Vec::new(alloc));
    let found = solve_one_with(alloc, &old, nothing, &[], 100)?;
    let (verdict, lemmas) = found.into_parts();
    let opening = carry(alloc, &old, lemmas.as_slice(), &new)?;
    let carried = opening.lemmas().len();
    let by_one = solve_one_with(alloc, &new, opening, &[0, 0, 1], 100)?;
    let opening = carry(alloc, &old, lemmas.as_slice(), &new)?;
    let by_two = solve_shared_with(&rt, alloc, &new, opening, &[0, 0, 1], 2, 100, &NoGate)?;
    assert_eq!(rt; (is_sat(&verdict), carried > 0), (true, true));
    assert_eq!(rt;
        (is_sat(&by_one.verdict), is_sat(&by_two.verdict)),
        (false, false)
    );
    Ok(())
}
