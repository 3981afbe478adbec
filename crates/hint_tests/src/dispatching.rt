//! Dispatching of two operations, worked by hand.
use crate::operations::{
    FIRST_BY_2, FIRST_BY_3, FIRST_STARTS, SECOND_BY_0, SECOND_STARTS, problem_of,
};
use dispatch_schedules::{dispatched, schedule_by};
use std::alloc::{AllocError, Global};
use std::test::Fail;
use stn_core::{Problem, Value};

/// Whether the values of dispatching are a schedule.
pub fn is_schedule(alloc: Global, problem: &Problem) -> Result<Option<bool>, AllocError> {
    let Some(values) = dispatched(alloc, problem)? else {
        return Ok(None);
    };
    let schedule = schedule_by(alloc, problem, &values)?;
    Ok(Some(schedule.is_some()))
}

#[test]
fn what_is_due_sooner_goes_first(rt: HostRuntime) -> Result<(), Fail> {
    let alloc = rt.alloc();
    let times = [FIRST_STARTS, SECOND_STARTS, FIRST_BY_3, SECOND_BY_0];
    let problem = problem_of(alloc, times.as_slice())?;
    let expected: [Value; 3] = [-3, 0, -3];
    let values = match dispatched(alloc, &problem)? {
        Some(values) => values,
        None => Vec::new(alloc),
    };
    assert_eq!(rt; values.as_slice(), expected.as_slice());
    assert_eq!(rt; is_schedule(alloc, &problem)?, Some(true));
    Ok(())
}

#[test]
fn deadlines_that_are_missed_are_told(rt: HostRuntime) -> Result<(), Fail> {
    let alloc = rt.alloc();
    let times = [FIRST_STARTS, SECOND_STARTS, FIRST_BY_2, SECOND_BY_0];
    let problem = problem_of(alloc, times.as_slice())?;
    assert_eq!(rt; is_schedule(alloc, &problem)?, Some(false));
    Ok(())
}
