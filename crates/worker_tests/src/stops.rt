//! A pool that nobody pushes to any more, whose hands fetch until there is nothing.
ghost use Rattle.std.specs.Prelude.{◌≡◌};
ghost use Rattle.worker_tests.specs.Placed.{IsHandOf, IsSameHand};

use crate::hands::{OpenPool, fetch, left, opened, push};
use cube_pool::{Hand, Pool};
use std::alloc::{AllocError, Global};
use std::sync::Wait;
use std::test::Fail;
use std::thread;
use std::thread::Threads;

/// How many numbers a hand pushes.
const PUSHES: u32 = 1_000;

/// Pushes so many numbers from the first on, and fetches once after each that is even: the sum of what was fetched.
fn share<R: Wait>(rt: &R, pool: &Pool, hand: &mut Hand, low: u32, high: u32) -> u64
    requires { hand.old.pool ≡ pool.now }
    ensures { IsSameHand hand.old hand.new }
{
    let mut sum = 0u64;
    for id in low..high {
        let _ = push(pool, hand, id);
        if id % 2 == 0 {
            sum = sum.saturating_add(u64::from(fetch(rt, pool, hand).unwrap_or(0)));
        }
    }
    sum
}

/// Fetches until nothing is there: the sum of what was fetched.
fn fetch_all<R: Wait>(rt: &R, pool: &Pool, hand: &mut Hand) -> u64
    requires { hand.old.pool ≡ pool.now }
    ensures { IsSameHand hand.old hand.new }
{
    let mut sum = 0u64;
    for _i in 0..4 * PUSHES {
        match fetch(rt, pool, hand) {
            Some(id) => sum = sum.saturating_add(u64::from(id)),
            None => return sum,
        }
    }
    sum
}

/// Two hands, each on a thread of its own, that push and fetch: the sums of what they fetched.
fn share_both<R: Threads + Wait + Sync>(
    rt: &R,
    pool: &Pool,
    hands: (Hand, Hand),
) -> ((Hand, u64), (Hand, u64))
    requires first { IsHandOf pool.now 0 hands.0 }
    requires second { IsHandOf pool.now 1 hands.1 }
    ensures first { IsHandOf pool.now 0 result.0.0 }
    ensures second { IsHandOf pool.now 1 result.1.0 }
{
    let (own, other) = hands;
    thread::join(
        rt,
        move || -> (Hand, u64)
            requires { IsHandOf pool.now 0 own }
            ensures { IsHandOf pool.entry.now 0 result.0 }
        {
            let mut hand = own;
            let sum = share(rt, pool, &mut hand, 0, PUSHES);
            (hand, sum)
        },
        move || -> (Hand, u64)
            requires { IsHandOf pool.now 1 other }
            ensures { IsHandOf pool.entry.now 1 result.0 }
        {
            let mut hand = other;
            let sum = share(rt, pool, &mut hand, PUSHES, 2 * PUSHES);
            (hand, sum)
        },
    )
}

/// The sum of what was fetched of two hands' pushes, once a hand has fetched until nothing was there, and what is left then.
fn emptied<R: Threads + Wait + Sync>(
    rt: &R,
    alloc: Global,
) -> Result<Option<(u64, (usize, Option<u32>))>, AllocError> {
    let Some(opened) = opened(alloc)? else {
        return Ok(None);
    };
    let OpenPool {
        pool,
        first,
        second,
    } = opened;
    let (one, other) = share_both(rt, &pool, (first, second));
    let (mut first, sum) = one;
    let rest = fetch_all(rt, &pool, &mut first);
    let all = sum.saturating_add(other.1).saturating_add(rest);
    Ok(Some((all, left(alloc, pool, first, other.0)?)))
}

#[test]
fn two_hands_lose_nothing(rt: HostRuntime) -> Result<(), Fail> {
    let emptied = emptied(&rt, rt.alloc())?;
    assert_eq!(rt; emptied, Some((1_999_000, (0, None))));
    Ok(())
}

/// What a hand fetches between its pushes, where the other one does nothing.
fn turns_alone<R: Wait>(rt: &R, pool: &Pool, hand: &mut Hand) -> [Option<u32>; 7]
    requires { hand.old.pool ≡ pool.now }
{
    let none = fetch(rt, pool, hand);
    let _ = push(pool, hand, 3);
    let _ = push(pool, hand, 4);
    let first = fetch(rt, pool, hand);
    let _ = push(pool, hand, 5);
    let next = [
        fetch(rt, pool, hand),
        fetch(rt, pool, hand),
        fetch(rt, pool, hand),
    ];
    let _ = push(pool, hand, 6);
    let last = [fetch(rt, pool, hand), fetch(rt, pool, hand)];
    [none, first, next[0], next[1], next[2], last[0], last[1]]
}

fn fetched_alone<R: Wait>(rt: &R, alloc: Global) -> Result<Option<[Option<u32>; 7]>, AllocError> {
    let Some(opened) = opened(alloc)? else {
        return Ok(None);
    };
    let OpenPool {
        pool,
        mut first,
        second: _,
    } = opened;
    Ok(Some(turns_alone(rt, &pool, &mut first)))
}

#[test]
fn one_hand_fetches_all(rt: HostRuntime) -> Result<(), Fail> {
    let fetched = fetched_alone(&rt, rt.alloc())?;
    let expected = [None, Some(3), Some(4), Some(5), None, Some(6), None];
    assert_eq!(rt; fetched, Some(expected));
    Ok(())
}
