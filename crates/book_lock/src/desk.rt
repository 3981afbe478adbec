//! The desk and its seats.
ghost use Rattle.std.specs.Prelude.{◌≡◌, ◌<◌, ◌^◌, ◌+◌, [], ◌∷◌, ◌++◌, ℕ, option_map, length, true, false, Some, None, IfOk, OnOk, OnErr, IfErr, IfSome, All, AllPairs};
ghost use Rattle.refute_tree.specs.Batches.{AreRefuted, LemmaIsOver};
ghost use Rattle.cover_tree.specs.Covers.{NoneHeld};
ghost use Rattle.book_core.specs.declared.event.Event.TheVariants.{Deliver, Release};
ghost use Rattle.book_core.specs.Shared.{lemmas_of};
ghost use Rattle.book_core.specs.Books.{IsDone, IsDecidable, IsJustified, IsOpening};
ghost use Rattle.book_core.specs.Facts.{IsSound, IsApart};
ghost use Rattle.book_core.specs.Runs.{state_of};
ghost use Rattle.book_lock.specs.Begun.{Opens, Runs, fresh, with_events};
ghost use Rattle.book_lock.specs.declared.cube.Cube.{Cube as HeldCube};
ghost use Rattle.book_lock.specs.Rules.{Holds, opener, AllBegin};
ghost use Rattle.book_lock.specs.Seats.{sight, Takes, TakesNear, Ends, counted, newcomer, merged, OneBegins, AllJoined, AllKnown, WasDone, id_of};

use crate::cube::{Cube, Dealt};
use crate::looking::{all_of, look, put, waits_after};
use crate::turns::{Joining, Splitting, Token, Turns, enter, leave, see, take_turn, tell};
use crate::view::View;
use atomic_table::Table;
use book_core::{Book, Delivery, Outcome, Refused};
use refute_tree::{Batch, Lemma};
use std::alloc::{AllocError, Global};
use std::marker::Model;
use std::snapshot::Snapshot;
use std::sync::{Arc, Wait};
use stn_core::Problem;

/// A book that threads share. Each call on it is one event of its journal.
pub struct Desk {
    table: Table<Option<Book>, View, Snapshot<Book>, Turns, Global>,
}

impl Drop for Desk {
    fn drop(self) {
        let Desk { table } = self;
        drop(table);
    }
}

impl Model for Desk {
    ghost use Rattle.std.specs.Prelude.{◌≡◌};
    ghost use Rattle.book_lock.specs.Seats.{Place};

    ghost Value = { Place };

    ghost view = { λ d. record { id = d.table.shared.table_id; begun = d.table.shared.key.value } };

    ghost invariant = { λ d. (d.table.shared.table_id.words ≡ 2) × (d.table.shared.table_id.slots ≡ 1) };
}

/// What one thread has seen of the journal, and the calls that it made. It has the lemmas that it has seen, and
/// the cube that it holds.
#[derive(Drop)]
pub struct Seat {
    number: u32,
    made: u64,
    /// The journal's length with its last call.
    place: usize,
    /// Its last call was a take answered `Idle`.
    waits: bool,
    lemmas: Vec<Arc<Lemma>>,
    cube: Option<Cube>,
    halves: Option<(usize, usize)>,
    token: Token,
}

impl Model for Seat {
    ghost use Rattle.std.specs.Prelude.{◌≡◌, [], false};
    ghost use Rattle.book_core.specs.Shared.{lemmas_of};
    ghost use Rattle.book_lock.specs.Seats.{Sight, sight, IsSeated};

    ghost Value = { Sight };

    ghost view = { λ s. sight s.token.table_id s.token.me.0 (lemmas_of s.lemmas.items) s.cube s.halves };

    ghost invariant = { λ s. (s.number ≡ s.token.me.0.number) × (s.made ≡ s.token.me.0.seats)
        × (s.token.me.1 ≡ []) × (s.token.me.0.turn ≡ false) × (s.token.me.0.spent ≡ false)
        × (s.token.me.0.known ≡ [])
        × IsSeated s.token.me.0 (lemmas_of s.lemmas.items) s.cube s.place s.waits };
}

impl Seat {
    /// The cube that the seat holds.
    pub fn cube(&self) -> Option<&Cube>
        ensures { option_map (λ r. r.now) result ≡ self.now.cube }
    {
        self.cube.as_ref()
    }

    /// The lemmas that the seat has seen, shared.
    pub fn lemmas(&self) -> &[Arc<Lemma>]
        ensures { lemmas_of result.now ≡ self.now.lemmas }
    {
        self.lemmas.as_slice()
    }

    /// The two halves of the seat's own last delivery, by their numbers, where it divided its cube.
    pub fn halves(&self) -> Option<(usize, usize)>
        ensures { result ≡ self.now.halves }
    {
        self.halves
    }

    /// What always holds of a seat.
    pub fn sound(&self)
        ensures opens { Opens self.now.view.begun }
        ensures run { Runs self.now.view.begun self.now.view.front }
        ensures refuted { AreRefuted self.now.view.begun.problem.points self.now.view.begun.problem.clauses []
            self.now.lemmas }
        ensures over { All (LemmaIsOver self.now.view.begun.problem.points) self.now.lemmas }
        ensures decided { IfSome self.now.cube (λ cube.
            All (IsDecidable self.now.view.begun.problem) cube.literals) }
        ensures apart { IfSome self.now.cube (λ cube. AllPairs IsApart cube.literals) }
    {
        book_core::sound_law();
        let _ = &self.lemmas;
    }
}

impl Desk {
    /// A book with no call and no lemma, and seat 0.
    pub fn start(alloc: Global, problem: Problem) -> Result<(Desk, Seat), AllocError>
        ensures { IfOk result (λ r. (r.0.begun ≡ fresh problem [])
            × (r.1 ≡ sight r.0.id (opener (fresh problem [])) [] None None)) }
    {
        Desk::start_with(alloc, problem, Batch::new(0, Vec::new(alloc)))
    }

    /// A book with no call, which opens with these lemmas, and seat 0, which has seen them.
    pub fn start_with(
        alloc: Global,
        problem: Problem,
        opening: Batch,
    ) -> Result<(Desk, Seat), AllocError>
        requires seen { opening.seen ≡ 0 }
        requires opening { IsOpening problem opening.lemmas }
        ensures { IfOk result (λ r. (r.0.begun ≡ fresh problem opening.lemmas)
            × (r.1 ≡ sight r.0.id (opener (fresh problem opening.lemmas)) opening.lemmas None None)) }
    {
        let book = Book::new_with(alloc, problem, opening)?;
        let lemmas = all_of(book.lemmas(), alloc)?;
        let about = Snapshot::of(&book);
        let mut slots = Vec::new(alloc);
        slots.push(Some(book))?;
        match Table::new(alloc, &[0, 0], slots, &about) {
            Ok((table, token)) => Ok((
                Desk { table },
                Seat {
                    number: 0,
                    made: 1,
                    place: 0,
                    waits: false,
                    lemmas,
                    cube: None,
                    halves: None,
                    token,
                },
            )),
            Err(_) => Err(AllocError),
        }
    }

    /// The seat gives its cube back. It takes no memory.
    pub fn release<R: Wait>(&self, rt: &R, seat: &mut Seat)
        requires desk { seat.old.desk ≡ self.now.id }
        requires held { (cube : HeldCube) × (seat.old.cube ≡ Some cube) }
        ensures { IfSome seat.old.cube (λ cube.
            Ends seat.old seat.new (Release seat.old.view.number cube.id)) }
    {
        let cube = seat.cube.take().unwrap();
        let top = &self.table.shared;
        let mut book = take_turn(rt, top, &mut seat.token);
        book.release(seat.number, cube.id);
        seat.place = tell(top, &mut seat.token, book);
        seat.waits = false;
    }

    /// A cube, if one is free; all lemmas of the book come into the seat. At `Err` nothing changed. After
    /// `Idle` it waits for an event other than a take answered `Idle`.
    pub fn take<R: Wait>(&self, rt: &R, seat: &mut Seat) -> Result<Dealt, AllocError>
        requires desk { seat.old.desk ≡ self.now.id }
        requires none { seat.old.cube ≡ None }
        ensures ok { IfOk result (λ answer. Takes seat.old seat.new answer) }
        ensures err { OnErr result (seat.new ≡ seat.old) }
    {
        self.take_some(rt, seat, None)
    }

    /// As `take`, with the cube of this number where a cube is answered and that one is free. Its event is that
    /// of a `take`.
    pub fn take_near<R: Wait>(
        &self,
        rt: &R,
        seat: &mut Seat,
        id: usize,
    ) -> Result<Dealt, AllocError>
        requires desk { seat.old.desk ≡ self.now.id }
        requires none { seat.old.cube ≡ None }
        ensures ok { IfOk result (λ answer. TakesNear seat.old seat.new (Some id) answer) }
        ensures err { OnErr result (seat.new ≡ seat.old) }
    {
        self.take_some(rt, seat, Some(id))
    }

    fn take_some<R: Wait>(
        &self,
        rt: &R,
        seat: &mut Seat,
        near: Option<usize>,
    ) -> Result<Dealt, AllocError>
        requires desk { seat.old.desk ≡ self.now.id }
        requires none { seat.old.cube ≡ None }
        ensures ok { IfOk result (λ answer. TakesNear seat.old seat.new near answer) }
        ensures err { OnErr result (seat.new ≡ seat.old) }
    {
        let top = &self.table.shared;
        let mut book = enter(rt, top, &mut seat.token, seat.waits, seat.place);
        match look(&mut book, &mut seat.lemmas, seat.number, near) {
            Ok((answer, cube)) => {
                seat.place = tell(top, &mut seat.token, book);
                seat.waits = waits_after(answer);
                put(&mut seat.cube, cube);
                Ok(answer)
            }
            Err(error) => {
                leave(top, &mut seat.token, book);
                Err(error)
            }
        }
    }

    /// What the seat found of its cube, justified over the lemmas that it has seen. At `Err` nothing changed.
    pub fn deliver<R: Wait>(
        &self,
        rt: &R,
        seat: &mut Seat,
        batch: Batch,
        outcome: Outcome,
    ) -> Result<(), Refused>
        requires desk { seat.old.desk ≡ self.now.id }
        requires justified { (cube : HeldCube) × (seat.old.cube ≡ Some cube)
            × IsJustified seat.old.view.begun.problem seat.old.lemmas cube.literals batch outcome }
        ensures ok { OnOk result (IfSome seat.old.cube (λ cube.
            Ends seat.old seat.new (Deliver seat.old.view.number cube.id batch outcome))) }
        ensures err { OnErr result (seat.new ≡ seat.old) }
        ensures refused { IfErr result (λ refused. (refused.batch ≡ batch) × (refused.outcome ≡ outcome)) }
    {
        let Ok(delivery) = Delivery::of_copies(&batch, &outcome) else {
            return Err(Refused { batch, outcome });
        };
        match self.enter(rt, seat, delivery) {
            Ok(()) => Ok(()),
            Err(_) => Err(Refused { batch, outcome }),
        }
    }

    /// As `deliver`, of a delivery that nobody wants back: its batch goes into the book without a copy. At the one error,
    /// want of memory, the seat and the book are as they were, and the delivery is gone.
    pub fn enter<R: Wait>(
        &self,
        rt: &R,
        seat: &mut Seat,
        delivery: Delivery,
    ) -> Result<(), AllocError>
        requires desk { seat.old.desk ≡ self.now.id }
        requires justified { (cube : HeldCube) × (seat.old.cube ≡ Some cube)
            × IsJustified seat.old.view.begun.problem seat.old.lemmas cube.literals delivery.batch delivery.outcome }
        ensures ok { OnOk result (IfSome seat.old.cube (λ cube.
            Ends seat.old seat.new (Deliver seat.old.view.number cube.id delivery.batch delivery.outcome))) }
        ensures err { OnErr result (seat.new ≡ seat.old) }
    {
        let id = seat.cube.as_ref().unwrap().id;
        let top = &self.table.shared;
        let mut book = take_turn(rt, top, &mut seat.token);
        match book.enter(seat.number, id, delivery) {
            Ok(()) => {
                seat.halves = book.halves();
                seat.place = tell(top, &mut seat.token, book);
                seat.waits = false;
                put(&mut seat.cube, None);
                Ok(())
            }
            Err(error) => {
                leave(top, &mut seat.token, book);
                Err(error)
            }
        }
    }

    /// A new seat that has seen as much as seat 0, with its lemmas. At `Err` nothing changed.
    pub fn split_seat(&self, seat: &mut Seat) -> Result<Seat, AllocError>
        requires desk { seat.old.desk ≡ self.now.id }
        requires first { seat.old.view.number ≡ 0 }
        requires room { seat.old.view.seats < 2 ^ 32 }
        ensures seat { OnOk result (seat.new ≡ sight seat.old.desk (counted seat.old.view)
            seat.old.lemmas seat.old.cube seat.old.halves) }
        ensures ok { IfOk result (λ made. made ≡ sight seat.old.desk (newcomer seat.old.view)
            seat.old.lemmas None None) }
        ensures err { OnErr result (seat.new ≡ seat.old) }
    {
        let lemmas = all_of(seat.lemmas.as_slice(), *seat.lemmas.allocator())?;
        let number = seat.made as u32;
        let token = self.table.shared.split_seat::<Splitting>(&mut seat.token);
        seat.made += 1;
        Ok(Seat {
            number,
            made: 0,
            place: 0,
            waits: false,
            lemmas,
            cube: None,
            halves: None,
            token,
        })
    }

    /// Seat 0 sees what another seat has seen, and keeps that seat's events. It takes no memory.
    pub fn join_seat(&self, seat: &mut Seat, other: Seat)
        requires desk { (seat.old.desk ≡ self.now.id) × (other.desk ≡ self.now.id) }
        requires first { seat.old.view.number ≡ 0 }
        requires none { other.cube ≡ None }
        ensures seat { seat.new ≡ sight seat.old.desk (merged seat.old.view other.view)
            seat.old.lemmas seat.old.cube seat.old.halves }
        ensures fronts { OneBegins seat.old.view.front other.view.front seat.new.view.front }
    {
        let Seat {
            number: _,
            made: _,
            place: _,
            waits: _,
            lemmas: _,
            cube: _,
            halves: _,
            token,
        } = other;
        self.table
            .shared
            .join_seat::<Joining>(&mut seat.token, token);
        see(&self.table.shared, &mut seat.token);
    }

    /// The book, once all seats were joined. No leaf is held there.
    pub fn close(self, seat: Seat) -> Book
        requires desk { seat.desk ≡ self.id }
        requires first { seat.view.number ≡ 0 }
        requires all { AllJoined seat.view }
        requires none { seat.cube ≡ None }
        ensures book { result ≡ with_events self.begun seat.view.front }
        ensures known { AllKnown seat.view }
        ensures fronts { AllBegin seat.view.kept seat.view.front }
        ensures run { Runs self.begun seat.view.front }
        ensures free { NoneHeld (state_of result).cover }
        ensures sound { IsSound self.begun.problem (state_of result) }
        ensures done { WasDone seat.view.front → IsDone (state_of result) }
    {
        book_core::sound_law();
        let Desk { table } = self;
        let Seat {
            number: _,
            made: _,
            place: _,
            waits: _,
            lemmas: _,
            cube: _,
            halves: _,
            token,
        } = seat;
        let mut closed = table.close_with(token);
        let book = closed.take(0).unwrap();
        closed.free();
        book
    }
}
