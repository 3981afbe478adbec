ghost use Rattle.std.specs.Prelude.{◌≡◌, ◌<◌, ◌+◌, All, IfOk};
ghost use Rattle.stn_core.specs.Literal.{IsOver};

use inc_paths::Network;
use std::alloc::{AllocError, Global};
use std::test::Fail;
use stn_core::{Added, Greatest, Literal, Net, RoundsNet, Schedule, Value, greatest, holds};

const POINTS: u32 = 12;

/// The least and the greatest bound of a literal.
const LEAST: i64 = -1_152_921_504_606_846_977;

const MOST: i64 = 1_152_921_504_606_846_976;

/// The greatest schedule of the chain: from point to point by the least bound, and at last by the greatest.
const VALUES: [Value; 12] = [
    0,
    -1_152_921_504_606_846_977,
    -2_305_843_009_213_693_954,
    -3_458_764_513_820_540_931,
    -4_611_686_018_427_387_908,
    -5_764_607_523_034_234_885,
    -6_917_529_027_641_081_862,
    -8_070_450_532_247_928_839,
    -9_223_372_036_854_775_816,
    -10_376_293_541_461_622_793,
    -11_529_215_046_068_469_770,
    -10_376_293_541_461_622_794,
];

/// The next point is at most the bound behind this one.
fn link(k: u32) -> Literal
    requires { k + 1 < POINTS }
    ensures { IsOver POINTS result }
{
    let c = if k + 2 < POINTS { LEAST } else { MOST };
    Literal { x: k + 1, y: k, c }
}

fn chain(alloc: Global) -> Result<Vec<Literal>, AllocError>
    ensures { IfOk result (λ literals. All (IsOver POINTS) literals.items) }
{
    let mut literals = Vec::new(alloc);
    'links: for k in 0..POINTS - 1 {
        literals.push(link(k))?;
    }
    Ok(literals)
}

fn add_all<N: Net>(net: &mut N) -> Result<(), AllocError>
    requires { N.points_of net.old ≡ POINTS }
    ensures { N.points_of net.new ≡ POINTS }
{
    'links: for k in 0..POINTS - 1 {
        net.add(link(k))?;
    }
    Ok(())
}

/// The length of the cycle that the literal closes which leads from the lowest point back to the first, or 0.
fn closes<N: Net>(net: &mut N) -> Result<usize, AllocError>
    requires { N.points_of net.old ≡ POINTS }
{
    match net.add(Literal {
        x: 0,
        y: 10,
        c: MOST,
    })? {
        Added::Yes => Ok(0),
        Added::Cycle(cycle) => Ok(cycle.as_slice().len()),
    }
}

fn is_wanted(values: &[Value]) -> bool {
    values == VALUES.as_slice()
}

fn greatest_values(alloc: Global) -> Result<Schedule, AllocError> {
    match greatest(alloc, POINTS, &chain(alloc)?)? {
        Greatest::Greatest(schedule) => Ok(schedule),
        Greatest::Negative(_) => Ok(Schedule::new(Vec::new(alloc))),
    }
}

/// Whether the net has the values that are wanted, and the length of the cycle.
fn net_values<N: Net>(net: &mut N) -> Result<(bool, usize), AllocError>
    requires { N.points_of net.old ≡ POINTS }
{
    add_all(net)?;
    let wanted = is_wanted(net.schedule());
    Ok((wanted, closes(net)?))
}

#[test]
fn values_beyond_64_bits(rt: HostRuntime) -> Result<(), Fail> {
    let alloc = rt.alloc();
    let found = greatest_values(alloc)?;
    let fast = net_values(&mut Network::new(alloc, POINTS)?)?;
    let plain = net_values(&mut RoundsNet::new(alloc, POINTS)?)?;
    assert_eq!(rt;
        (is_wanted(found.as_slice()), fast, plain),
        (true, (true, 11), (true, 11))
    );
    Ok(())
}

#[test]
fn differences_beyond_128_bits(rt: HostRuntime) -> Result<(), Fail> {
    let values = [Value::MAX, Value::MIN];
    let above = Literal {
        x: 0,
        y: 1,
        c: i64::MAX,
    };
    let below = Literal {
        x: 1,
        y: 0,
        c: i64::MIN,
    };
    assert_eq!(rt;
        (holds(above, &values), holds(below, &values)),
        (false, true)
    );
    Ok(())
}

/// The most points that a problem, a net and `greatest` take.
const MOST_POINTS: u32 = 2_097_152;

/// The last point at least three behind the zero point.
fn far() -> Literal
    ensures { IsOver MOST_POINTS result }
{
    Literal {
        x: 0,
        y: MOST_POINTS - 1,
        c: -3,
    }
}

/// The value of the zero point then, and how many points have one.
fn farthest<N: Net>(net: &mut N) -> Result<(Option<Value>, usize), AllocError>
    requires { N.points_of net.old ≡ MOST_POINTS }
{
    net.add(far())?;
    let values = net.schedule();
    Ok((values.first().copied(), values.len()))
}

#[test]
fn as_many_points_as_there_may_be(rt: HostRuntime) -> Result<(), Fail> {
    let alloc = rt.alloc();
    let fast = farthest(&mut Network::new(alloc, MOST_POINTS)?)?;
    assert_eq!(rt; fast, (Some(-3), 2_097_152));
    Ok(())
}
