//! Work for the incremental network, to be timed from outside (bench/network): 60,000 points and 400,000 random literals
//! that a hidden schedule satisfies, and with the word `search` 1,000,000 adds and retracts in the manner of a search. What it
//! prints is the same as what bench/network/network.cpp prints. With the word `chain` it also adds 1,000,000 literals, each of
//! which lowers one point: no time for a net that works from literal to literal, and too long for one that goes over all of
//! its literals at each.
#![tactic(auto)]

mod chain;

ghost use Rattle.std.specs.Prelude.{◌≡◌, ◌<◌, ◌≤◌, length};
ghost use Rattle.stn_core.specs.Literal.{IsOver};

use chain::{CHAIN_POINTS, add_chain, lowered};
use inc_paths::Network;
use std::alloc::{AllocError, Global};
use std::{env, io};
use stn_core::{Added, Literal, Mark, Net, Value};

const POINTS: u32 = 60_000;

fn below(state: &mut u64, limit: u32) -> u32
    requires { 0 < limit }
    ensures { result < limit }
{
    *state = state
        .wrapping_mul(6364136223846793005)
        .wrapping_add(1442695040888963407);
    (*state >> 33) as u32 % limit
}

fn literal(state: &mut u64, hidden: &[u32], spread: u32, shift: u32) -> Literal
    requires spread { 0 < spread }
    ensures { IsOver 60000 result }
{
    let x = below(state, POINTS);
    let y = below(state, POINTS);
    let slack = i64::from(below(state, spread));
    let a = i64::from(hidden.get(x as usize).copied().unwrap_or(0));
    let b = i64::from(hidden.get(y as usize).copied().unwrap_or(0));
    let c = a - b + slack - i64::from(shift);
    if c < -1_000_000_000 || c > 1_000_000_000 {
        return Literal { x, y, c: 0 };
    }
    Literal { x, y, c }
}

// Some of the literals behind the base leave the net.
fn go_back(net: &mut Network, base: usize, state: &mut u64)
    ensures { net.new.points ≡ net.old.points }
{
    let mark = net.mark().length;
    let depth = mark.saturating_sub(base);
    let back = below(state, 20) as usize;
    let length = base.saturating_add(depth.saturating_sub(back));
    if length <= mark {
        net.retract(Mark { length });
    }
}

// A million adds and retracts in the manner of a search: how many adds were refused.
fn search(net: &mut Network, hidden: &[u32], state: &mut u64) -> Result<u64, AllocError>
    requires { net.old.points ≡ 60000 }
{
    let base = net.mark().length;
    let mut refused = 0u64;
    let mut done = 0u32;
    'second: while done < 1_000_000 {
        done = done.saturating_add(1);
        let l = literal(state, hidden, 2_000, 200);
        let taken = matches!(net.add(l)?, Added::Yes);
        if !taken {
            refused = refused.saturating_add(1);
        }
        if !taken || below(state, 10) == 0 {
            go_back(net, base, state);
            done = done.saturating_add(1);
        }
    }
    Ok(refused)
}

// What the random work comes to.
#[derive(Clone, Copy)]
struct Work {
    adds: u64,
    length: usize,
    refused: u64,
    sum: u128,
}

fn sum_of(values: &[Value]) -> u128 {
    let mut sum = 0u128;
    for value in values {
        sum = sum.wrapping_mul(31).wrapping_add(value.unsigned_abs());
    }
    sum & u128::from(u64::MAX)
}

fn random_work(alloc: Global, searches: bool) -> Result<Work, AllocError> {
    let mut state = 1u64;
    let mut hidden = Vec::new(alloc);
    for _i in 0..POINTS {
        hidden.push(below(&mut state, 1_000_000))?;
    }
    let mut net = Network::new(alloc, POINTS)?;
    'first: for _j in 0..400_000u32 {
        let l = literal(&mut state, &hidden, 1_000, 0);
        let _ = net.add(l)?;
    }
    let mut refused = 0;
    if searches {
        refused = search(&mut net, &hidden, &mut state)?;
    }
    Ok(Work {
        adds: net.adds(),
        length: net.mark().length,
        refused,
        sum: sum_of(net.schedule()),
    })
}

// How many literals of the chain a new net takes, and how many points it lowers to where they belong.
fn chain_work(alloc: Global) -> Result<(u32, u32), AllocError> {
    let mut net = Network::new(alloc, CHAIN_POINTS)?;
    let taken = add_chain(&mut net)?;
    Ok((taken, lowered(net.schedule())))
}

fn is_same(word: &str, wanted: &str) -> bool {
    word == wanted
}

fn has_word(words: &[String], wanted: &str) -> bool {
    for word in words {
        if is_same(word, wanted) {
            return true;
        }
    }
    false
}

fn main(rt: HostRuntime) -> io::Result<()> {
    let alloc = rt.alloc();
    let words: Vec<String> = env::args(&rt)?.collect(alloc)?;
    let Work {
        adds,
        length,
        refused,
        sum,
    } = random_work(alloc, has_word(&words, "search"))?;
    println!(rt; "adds {adds} length {length} refused {refused} sum {sum}")?;
    if has_word(&words, "chain") {
        let (taken, lowered) = chain_work(alloc)?;
        println!(rt; "chain taken {taken} lowered {lowered}")?;
    }
    Ok(())
}
