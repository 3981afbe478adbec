//! What each of two seats is answered.
ghost use Rattle.std.specs.Prelude.{◌≡◌};
ghost use Rattle.book_lock.specs.Seats.{IsSameSeat};

use crate::calls::{ask, ask_near, deliver_justified, give_back};
use crate::endings::{Call, asked_behind_join, closed, conclusion, first_calls, last_halves};
use crate::table::{X_BEFORE_Y, refuting, two_orders};
use book_core::Outcome;
use book_lock::{Dealt, Desk, Seat};
use refute_tree::Batch;
use std::alloc::{AllocError, Global};
use std::sync::Wait;
use std::test::Fail;
use stn_core::Problem;

/// Seat 0 takes the whole and refutes it; how many lemmas each seat has after the other's `take`.
fn refuted<R: Wait>(
    rt: &R,
    alloc: Global,
    desk: &Desk,
    problem: &Problem,
    seat: &mut Seat,
    other: &mut Seat,
) -> Result<(Option<Dealt>, bool, Option<Dealt>, [usize; 2]), AllocError>
    requires desk { (seat.old.desk ≡ desk.now.id) × (other.old.desk ≡ desk.now.id) }
    requires problem { seat.old.view.begun.problem ≡ problem.now }
    ensures same { IsSameSeat seat.old seat.new × IsSameSeat other.old other.new }
{
    let first = ask(rt, desk, seat)?;
    let batch = refuting(alloc)?;
    let is_justified = deliver_justified(rt, alloc, desk, seat, problem, batch, Outcome::Shut(1))?;
    let second = ask(rt, desk, other)?;
    let counts = [seat.lemmas().len(), other.lemmas().len()];
    Ok((first, is_justified, second, counts))
}

#[test]
fn a_seat_sees_what_another_delivered(rt: HostRuntime) -> Result<(), Fail> {
    let alloc = rt.alloc();
    let problem = two_orders(alloc)?;
    let (desk, mut seat) = Desk::start(alloc, problem.copy()?)?;
    let mut other = desk.split_seat(&mut seat)?;
    let told = refuted(&rt, alloc, &desk, &problem, &mut seat, &mut other)?;
    let expected = (Some(Dealt::Cube), true, Some(Dealt::Done), [0, 2]);
    assert_eq!(rt; told, expected);
    let book = closed(desk, seat, other);
    assert_eq!(rt; conclusion(&book)?, Some((3, true)));
    Ok(())
}

/// Seat 1 takes the whole and gives it back, and seat 0 refutes it.
fn taken_twice<R: Wait>(
    rt: &R,
    alloc: Global,
    desk: &Desk,
    problem: &Problem,
    seat: &mut Seat,
    other: &mut Seat,
) -> Result<(Option<usize>, bool), AllocError>
    requires desk { (seat.old.desk ≡ desk.now.id) × (other.old.desk ≡ desk.now.id) }
    requires problem { seat.old.view.begun.problem ≡ problem.now }
    ensures same { IsSameSeat seat.old seat.new × IsSameSeat other.old other.new }
{
    let _ = ask(rt, desk, other)?;
    let id = give_back(rt, desk, other);
    let _ = ask(rt, desk, seat)?;
    let batch = refuting(alloc)?;
    let is_justified = deliver_justified(rt, alloc, desk, seat, problem, batch, Outcome::Shut(1))?;
    Ok((id, is_justified))
}

#[test]
fn one_history_of_both(rt: HostRuntime) -> Result<(), Fail> {
    let alloc = rt.alloc();
    let problem = two_orders(alloc)?;
    let (desk, mut seat) = Desk::start(alloc, problem.copy()?)?;
    let mut other = desk.split_seat(&mut seat)?;
    let told = taken_twice(&rt, alloc, &desk, &problem, &mut seat, &mut other)?;
    assert_eq!(rt; told, (Some(0), true));
    let book = closed(desk, seat, other);
    let expected = [
        Some(Call::Take(1)),
        Some(Call::Release(1)),
        Some(Call::Take(0)),
        Some(Call::Deliver(0)),
        None,
    ];
    assert_eq!(rt; first_calls(&book), expected);
    Ok(())
}

/// Seat 0 divides the whole, and seat 1 takes the first half and gives it back.
fn divided<R: Wait>(
    rt: &R,
    alloc: Global,
    desk: &Desk,
    problem: &Problem,
    seat: &mut Seat,
    other: &mut Seat,
) -> Result<(Option<(usize, usize)>, Option<Dealt>, Option<usize>), AllocError>
    requires desk { (seat.old.desk ≡ desk.now.id) × (other.old.desk ≡ desk.now.id) }
    requires problem { seat.old.view.begun.problem ≡ problem.now }
    ensures same { IsSameSeat seat.old seat.new × IsSameSeat other.old other.new }
{
    let _ = ask(rt, desk, seat)?;
    let batch = Batch::new(0, Vec::new(alloc));
    let outcome = Outcome::Split(X_BEFORE_Y);
    let _ = deliver_justified(rt, alloc, desk, seat, problem, batch, outcome)?;
    let answer = ask_near(rt, desk, other, 1)?;
    let id = give_back(rt, desk, other);
    Ok((seat.halves(), answer, id))
}

#[test]
fn halves_are_told_and_taken(rt: HostRuntime) -> Result<(), Fail> {
    let alloc = rt.alloc();
    let problem = two_orders(alloc)?;
    let (desk, mut seat) = Desk::start(alloc, problem.copy()?)?;
    let mut other = desk.split_seat(&mut seat)?;
    let told = divided(&rt, alloc, &desk, &problem, &mut seat, &mut other)?;
    assert_eq!(rt; told, (Some((1, 2)), Some(Dealt::Cube), Some(1)));
    let book = closed(desk, seat, other);
    assert_eq!(rt; last_halves(&book), Some((1, 2)));
    Ok(())
}

/// Seat 0 tells its lemmas and leaves the whole open, and seat 1 takes it and shuts it by the last of them; how many lemmas
/// each seat has then.
fn left_open<R: Wait>(
    rt: &R,
    alloc: Global,
    desk: &Desk,
    problem: &Problem,
    seat: &mut Seat,
    other: &mut Seat,
) -> Result<([bool; 2], Option<Dealt>, [usize; 2]), AllocError>
    requires desk { (seat.old.desk ≡ desk.now.id) × (other.old.desk ≡ desk.now.id) }
    requires problem { (seat.old.view.begun.problem ≡ problem.now)
        × (other.old.view.begun.problem ≡ problem.now) }
    ensures same { IsSameSeat seat.old seat.new × IsSameSeat other.old other.new }
{
    let _ = ask(rt, desk, seat)?;
    let batch = refuting(alloc)?;
    let is_told = deliver_justified(rt, alloc, desk, seat, problem, batch, Outcome::Open)?;
    let answer = ask(rt, desk, other)?;
    let counts = [seat.lemmas().len(), other.lemmas().len()];
    let nothing = Batch::new(2, Vec::new(alloc));
    let is_shut = deliver_justified(rt, alloc, desk, other, problem, nothing, Outcome::Shut(1))?;
    Ok(([is_told, is_shut], answer, counts))
}

#[test]
fn an_open_cube_goes_to_another(rt: HostRuntime) -> Result<(), Fail> {
    let alloc = rt.alloc();
    let problem = two_orders(alloc)?;
    let (desk, mut seat) = Desk::start(alloc, problem.copy()?)?;
    let mut other = desk.split_seat(&mut seat)?;
    let told = left_open(&rt, alloc, &desk, &problem, &mut seat, &mut other)?;
    assert_eq!(rt; told, ([true, true], Some(Dealt::Cube), [0, 2]));
    let book = closed(desk, seat, other);
    assert_eq!(rt; conclusion(&book)?, Some((4, true)));
    Ok(())
}

/// Seat 1 takes the whole, of which nothing is left for seat 0, and refutes it.
fn idle<R: Wait>(
    rt: &R,
    alloc: Global,
    desk: &Desk,
    problem: &Problem,
    seat: &mut Seat,
    other: &mut Seat,
) -> Result<(Option<Dealt>, bool), AllocError>
    requires desk { (seat.old.desk ≡ desk.now.id) × (other.old.desk ≡ desk.now.id) }
    requires problem { other.old.view.begun.problem ≡ problem.now }
    ensures same { IsSameSeat seat.old seat.new × IsSameSeat other.old other.new }
{
    let _ = ask(rt, desk, other)?;
    let answer = ask(rt, desk, seat)?;
    let batch = refuting(alloc)?;
    let is_justified = deliver_justified(rt, alloc, desk, other, problem, batch, Outcome::Shut(1))?;
    Ok((answer, is_justified))
}

/// A seat that was told to wait is told of what came then, also where a join had it see that already.
#[test]
fn who_waited_is_told_behind_a_join(rt: HostRuntime) -> Result<(), Fail> {
    let alloc = rt.alloc();
    let problem = two_orders(alloc)?;
    let (desk, mut seat) = Desk::start(alloc, problem.copy()?)?;
    let mut other = desk.split_seat(&mut seat)?;
    let told = idle(&rt, alloc, &desk, &problem, &mut seat, &mut other)?;
    assert_eq!(rt; told, (Some(Dealt::Idle), true));
    assert_eq!(rt;
        asked_behind_join(&rt, &desk, &mut seat, other)?,
        Some(Dealt::Done)
    );
    Ok(())
}
