ghost use Rattle.std.specs.Prelude.{◌≡◌};
ghost use Rattle.stn_core.specs.Literal.{IsOver};

use inc_paths::Network;
use prune_rules::{Fate, forward_check, is_subsumed};
use std::alloc::{AllocError, Global};
use std::test::Fail;
use stn_core::{Added, Clause, Literal, Literals, Net, RoundsNet, Value};

const FIRST: Literal = Literal { x: 1, y: 2, c: -1 };

const SECOND: Literal = Literal { x: 2, y: 1, c: -1 };

fn length_of(cycle: &Literals) -> usize {
    cycle.as_slice().len()
}

fn value_of<N: Net>(net: &N, point: usize) -> Value {
    net.schedule().get(point).copied().unwrap_or(9)
}

/// The values of point 1 after the first literal and after a retraction, and the length of the cycle between.
fn moves<N: Net>(net: &mut N) -> Result<(Value, usize, Value), AllocError>
    requires { N.points_of net.old ≡ 3 }
{
    let start = net.mark();
    net.add(FIRST)?;
    let lowered = value_of(net, 1);
    let length = match net.add(SECOND)? {
        Added::Yes => 0,
        Added::Cycle(cycle) => length_of(&cycle),
    };
    if start.length <= net.mark().length {
        net.retract(start);
    }
    Ok((lowered, length, value_of(net, 1)))
}

#[test]
fn both_nets(rt: HostRuntime) -> Result<(), Fail> {
    let alloc = rt.alloc();
    let plain = moves(&mut RoundsNet::new(alloc, 3)?)?;
    let fast = moves(&mut Network::new(alloc, 3)?)?;
    assert_eq!(rt; (plain, fast), ((-1, 2, 0), (-1, 2, 0)));
    Ok(())
}

/// The lengths of the cycles that the two literals of a clause close, and 0 for one that is live.
fn fates<N: Net>(alloc: Global, net: &mut N) -> Result<(usize, usize, usize), AllocError>
    requires { N.points_of net.old ≡ 3 }
{
    let literals = [Literal { x: 2, y: 1, c: 0 }, Literal { x: 2, y: 1, c: 1 }];
    let fates = forward_check(alloc, net, &Clause::new(literals.to_vec(alloc)?))?;
    let mut lengths = (0, 0, fates.as_slice().len());
    if let Some(Fate::Dead(cycle)) = fates.as_slice().first() {
        lengths.0 = length_of(cycle);
    }
    if let Some(Fate::Dead(cycle)) = fates.as_slice().last() {
        lengths.1 = length_of(cycle);
    }
    Ok(lengths)
}

/// The place of the first literal that the net implies, of those that bound a difference by each of these.
fn implied<N: Net>(
    alloc: Global,
    net: &mut N,
    first: Literal,
    second: Literal,
) -> Result<Option<usize>, AllocError>
    requires points { N.points_of net.old ≡ 3 }
    requires first { IsOver 3 first }
    requires second { IsOver 3 second }
    ensures { N.points_of net.new ≡ N.points_of net.old }
{
    let clause = Clause::new([first, second].to_vec(alloc)?);
    match is_subsumed(net, &clause)? {
        None => Ok(None),
        Some(subsumed) => Ok(Some(subsumed.place)),
    }
}

#[test]
fn clauses_over_a_net(rt: HostRuntime) -> Result<(), Fail> {
    let alloc = rt.alloc();
    let mut net = RoundsNet::new(alloc, 3)?;
    net.add(FIRST)?;
    let apart = Literal { x: 2, y: 1, c: 1 };
    let weaker = Literal { x: 1, y: 2, c: 0 };
    let some = implied(alloc, &mut net, apart, weaker)?;
    let none = implied(alloc, &mut net, apart, apart)?;
    let lengths = fates(alloc, &mut net)?;
    assert_eq!(rt; (some, none, lengths), (Some(1), None, (2, 0, 2)));
    Ok(())
}
