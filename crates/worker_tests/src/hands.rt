//! Two hands of a pool that push and fetch by turns.
ghost use Rattle.std.specs.Prelude.{◌≡◌, length};
ghost use Rattle.worker_tests.specs.Placed.{IsHandOf, IsSameHand};

use cube_pool::{Hand, Pool};
use std::alloc::{AllocError, Global};
use std::sync::Wait;
use std::test::Fail;

/// A pool and its two hands.
#[derive(Drop)]
pub(crate) struct OpenPool {
    pub(crate) pool: Pool,
    pub(crate) first: Hand,
    pub(crate) second: Hand,
    ghost count: { length pool ≡ 2 },
    ghost first_is: { IsHandOf pool 0 first },
    ghost second_is: { IsHandOf pool 1 second },
}

/// `None` doesn't come.
pub(crate) fn opened(alloc: Global) -> Result<Option<OpenPool>, AllocError> {
    let (pool, mut hands) = Pool::open(alloc, 2)?;
    let Some(second) = hands.pop() else {
        return Ok(None);
    };
    let Some(first) = hands.pop() else {
        return Ok(None);
    };
    Ok(Some(OpenPool {
        pool,
        first,
        second,
    }))
}

/// As `Pool::push`: whether there was a place.
pub(crate) fn push(pool: &Pool, hand: &mut Hand, id: u32) -> bool
    requires { hand.old.pool ≡ pool.now }
    ensures { IsSameHand hand.old hand.new }
{
    match pool.push(hand, id) {
        Ok(()) => true,
        Err(_) => false,
    }
}

/// As `Pool::fetch`.
pub(crate) fn fetch<R: Wait>(rt: &R, pool: &Pool, hand: &mut Hand) -> Option<u32>
    requires { hand.old.pool ≡ pool.now }
    ensures { IsSameHand hand.old hand.new }
{
    match pool.fetch(rt, hand) {
        Some(id) => Some(id),
        None => None,
    }
}

/// Hand 0 pushes 3, 4 and 5; then each hand fetches once, hand 1 first, and hand 1 twice more where it is told.
fn turns<R: Wait>(
    rt: &R,
    pool: &Pool,
    first: &mut Hand,
    second: &mut Hand,
    more: bool,
) -> ([bool; 3], [Option<u32>; 4])
    requires first { first.old.pool ≡ pool.now }
    requires second { second.old.pool ≡ pool.now }
    ensures first { IsSameHand first.old first.new }
    ensures second { IsSameHand second.old second.new }
{
    let pushed = [
        push(pool, first, 3),
        push(pool, first, 4),
        push(pool, first, 5),
    ];
    let there = fetch(rt, pool, second);
    let own = fetch(rt, pool, first);
    let others = if more {
        (fetch(rt, pool, second), fetch(rt, pool, second))
    } else {
        (None, None)
    };
    (pushed, [there, own, others.0, others.1])
}

/// What is left of the pool: how many numbers, and the first.
pub(crate) fn left(
    alloc: Global,
    pool: Pool,
    first: Hand,
    second: Hand,
) -> Result<(usize, Option<u32>), AllocError>
    requires count { length pool ≡ 2 }
    requires first { IsHandOf pool 0 first }
    requires second { IsHandOf pool 1 second }
{
    let hands = vec![in alloc; first, second]?;
    let rest = pool.close(hands)?;
    Ok((rest.len(), rest.as_slice().first().copied()))
}

/// What was pushed, what was fetched, and what is left.
fn told<R: Wait>(
    rt: &R,
    alloc: Global,
    more: bool,
) -> Result<Option<([bool; 3], [Option<u32>; 4], (usize, Option<u32>))>, AllocError> {
    let Some(opened) = opened(alloc)? else {
        return Ok(None);
    };
    let OpenPool {
        pool,
        mut first,
        mut second,
    } = opened;
    let (pushed, fetched) = turns(rt, &pool, &mut first, &mut second, more);
    Ok(Some((pushed, fetched, left(alloc, pool, first, second)?)))
}

#[test]
fn hands_push_and_fetch(rt: HostRuntime) -> Result<(), Fail> {
    let alloc = rt.alloc();
    let pushed = [true; 3];
    let fetched = [Some(3), Some(4), None, None];
    assert_eq!(rt;
        told(&rt, alloc, false)?,
        Some((pushed, fetched, (1, Some(5))))
    );
    let all = [Some(3), Some(4), Some(5), None];
    assert_eq!(rt; told(&rt, alloc, true)?, Some((pushed, all, (0, None))));
    Ok(())
}

/// How many of so many pushes have a place before the first that has none.
fn pushes(pool: &Pool, hand: &mut Hand, tries: u32) -> u32
    requires { hand.old.pool ≡ pool.now }
{
    for id in 0..tries {
        if !push(pool, hand, id) {
            return id;
        }
    }
    tries
}

/// How many pushes by one hand have a place, and whether the other hand has one then.
fn places(alloc: Global, tries: u32) -> Result<Option<(u32, bool)>, AllocError> {
    let Some(opened) = opened(alloc)? else {
        return Ok(None);
    };
    let OpenPool {
        pool,
        mut first,
        mut second,
    } = opened;
    let count = pushes(&pool, &mut first, tries);
    Ok(Some((count, push(&pool, &mut second, 0))))
}

#[test]
fn a_hand_has_so_many_places(rt: HostRuntime) -> Result<(), Fail> {
    let counts = (places(rt.alloc(), 65_536)?, places(rt.alloc(), 65_540)?);
    assert_eq!(rt; counts, (Some((65_536, true)), Some((65_536, true))));
    Ok(())
}
