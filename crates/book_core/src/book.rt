//! The book itself.
ghost use Rattle.std.specs.Prelude.{◌≡◌, ◌+◌, ◌<◌, ◌^◌, ◌++◌, ◌∷◌, [], ℕ, length, map, take, IfOk, OnOk, OnErr, IfErr, IfSome, IfNone, Some, slice_get};
ghost use Rattle.cover_tree.specs.declared.node.Node.TheVariants.{Held, Free};
ghost use Rattle.cover_tree.specs.Covers.{node_at, holder_of, NoneHeld};
ghost use Rattle.book_core.specs.declared.event.Event.TheVariants.{Take, Deliver, Release};
ghost use Rattle.book_core.specs.declared.event.Taken.TheVariants.{Cube};
ghost use Rattle.book_core.specs.Books.{IsOpening, IsJustifiedIn, IsHeldBy, IsAllowed, MayAnswer, cover_taken};
ghost use Rattle.book_core.specs.Shared.{lemmas_of};
ghost use Rattle.book_core.specs.Facts.{IsSound};
ghost use Rattle.book_core.specs.Halves.{halves_of};
ghost use Rattle.book_core.specs.Runs.{ledger, state_of, with_event, Answers, IsNear, told_as, IsRun};
ghost use Rattle.book_core.specs.Verdicts.{Concludes};

use crate::answer::Answer;
use crate::delivery::{Delivery, Refused};
use crate::event::{Event, Outcome, Taken};
use crate::prepared::{Prepared, check_room, closing_number, prepare, publish, settle, share};
use crate::refutation::{copies, into_refutation, refutation_of};
use crate::verdict::Verdict;
use cover_tree::Cover;
use refute_tree::{Batch, Lemma};
use std::alloc::{AllocError, Global};
use std::marker::Model;
use std::sync::Arc;
use stn_core::{Problem, Schedule};

/// The book of a problem. A lemma is kept once: the event that brought it shares it with the list of all.
pub struct Book {
    problem: Problem,
    cover: Cover,
    /// With so many of the lemmas it was opened; they are the first.
    opened: usize,
    lemmas: Vec<Arc<Lemma>>,
    found: Option<Schedule>,
    halves: Option<(usize, usize)>,
    journal: Vec<Event>,
}

impl Drop for Book {
    fn drop(self) {
        let Book {
            problem,
            cover,
            opened: _,
            lemmas,
            found,
            halves,
            journal,
        } = self;
        drop(problem);
        drop(cover);
        drop(lemmas);
        drop(found);
        drop(halves);
        drop(journal);
    }
}

impl Model for Book {
    ghost use Rattle.std.specs.Prelude.{vec_capacity, take};
    ghost use Rattle.book_core.specs.Books.{state_with};
    ghost use Rattle.book_core.specs.Shared.{lemmas_of};
    ghost use Rattle.book_core.specs.Runs.{Ledger, ledger, IsKept};

    ghost Value = { Ledger };

    ghost view = { λ b. ledger b.problem (take b.opened (lemmas_of b.lemmas.items)) b.journal.items };

    ghost invariant = { λ b. IsKept b.problem b.opened b.journal.items
        (state_with b.cover (lemmas_of b.lemmas.items) b.found) b.halves (vec_capacity b.journal) };
}

impl Book {
    /// The book of a problem, with one free cube and no lemma.
    pub fn new(alloc: Global, problem: Problem) -> Result<Self, AllocError>
        ensures { IfOk result (λ book. book ≡ ledger problem [] []) }
    {
        Book::new_with(alloc, problem, Batch::new(0, Vec::new(alloc)))
    }

    /// The book of a problem, with one free cube and these lemmas.
    pub fn new_with(alloc: Global, problem: Problem, opening: Batch) -> Result<Self, AllocError>
        requires seen { opening.seen ≡ 0 }
        requires opening { IsOpening problem opening.lemmas }
        ensures { IfOk result (λ book. book ≡ ledger problem opening.lemmas []) }
    {
        let cover = Cover::new(alloc)?;
        let lemmas = share(alloc, opening.into_lemmas())?;
        Ok(Book {
            problem,
            cover,
            opened: lemmas.len(),
            lemmas,
            found: None,
            halves: None,
            journal: Vec::new(alloc),
        })
    }

    /// The book that these calls lead to from its opening on. It takes their time again, but for what `take` looked for.
    pub fn replay(
        alloc: Global,
        problem: Problem,
        opening: Batch,
        events: &[Event],
    ) -> Result<Self, AllocError>
        requires seen { opening.seen ≡ 0 }
        requires opening { IsOpening problem opening.lemmas }
        requires run { IsRun problem opening.lemmas events.now }
        ensures { IfOk result (λ book. book ≡ ledger problem opening.lemmas events.now) }
    {
        let mut book = Book::new_with(alloc, problem, opening)?;
        for event in events {
            book.repeat(event)?;
        }
        Ok(book)
    }

    /// The problem.
    pub fn problem(&self) -> &Problem
        ensures { result.now ≡ self.now.problem }
    {
        &self.problem
    }

    /// All calls so far.
    pub fn journal(&self) -> &[Event]
        ensures { result.now ≡ self.now.journal }
    {
        self.journal.as_slice()
    }

    /// With how many lemmas the book was opened: they are the first ones.
    pub fn opened(&self) -> usize
        ensures count { result ≡ length self.now.opening }
        ensures first { self.now.opening ≡ take result (state_of self.now).lemmas }
    {
        self.opened
    }

    /// Copies of the lemmas that the book was opened with, as a batch.
    pub fn opening(&self) -> Result<Batch, AllocError>
        ensures seen { IfOk result (λ batch. batch.seen ≡ 0) }
        ensures lemmas { IfOk result (λ batch. batch.lemmas ≡ self.now.opening) }
    {
        let alloc = *self.lemmas.allocator();
        let lemmas = copies(alloc, self.lemmas.as_slice(), self.opened)?;
        Ok(Batch::new(0, lemmas))
    }

    /// How many lemmas there are.
    pub fn lemma_count(&self) -> usize
        ensures { result ≡ length (state_of self.now).lemmas }
    {
        self.lemmas.len()
    }

    /// The lemma with this number, from 0.
    pub fn lemma(&self, j: usize) -> &Lemma
        requires { j < length (state_of self.now).lemmas }
        ensures { slice_get (state_of self.now).lemmas j ≡ Some result.now }
    {
        &self.lemmas[j]
    }

    /// All lemmas, shared.
    pub fn lemmas(&self) -> &[Arc<Lemma>]
        ensures { lemmas_of result.now ≡ (state_of self.now).lemmas }
    {
        self.lemmas.as_slice()
    }

    /// The seat that holds the cube with this number; `None` also for a number that isn't there.
    pub fn holder(&self, id: usize) -> Option<u32>
        ensures { result ≡ holder_of (node_at (state_of self.now).cover id) }
    {
        self.cover.holder(id)
    }

    /// Some held cube and its seat.
    pub fn first_held(&self) -> Option<(usize, u32)>
        ensures some { IfSome result (λ r. node_at (state_of self.now).cover r.0 ≡ Some (Held r.1)) }
        ensures none { IfNone result (NoneHeld (state_of self.now).cover) }
    {
        self.cover.first_held()
    }

    /// What always holds of a book.
    pub fn sound(&self)
        ensures opening { IsOpening self.now.problem self.now.opening }
        ensures run { IsRun self.now.problem self.now.opening self.now.journal }
        ensures sound { IsSound self.now.problem (state_of self.now) }
    {
        let _ = &self.problem;
    }

    /// The two halves of the last delivery, by their numbers, where it divided its cube.
    pub fn halves(&self) -> Option<(usize, usize)>
        ensures { result ≡ halves_of self.now.opening self.now.journal }
    {
        self.halves
    }

    /// A cube for the seat, if one is free. At `Err` nothing changed.
    pub fn take(&mut self, seat: u32) -> Result<Answer, AllocError>
        ensures ok { IfOk result (λ answer. Answers self.old seat answer self.new) }
        ensures small { OnOk result (length self.new.journal < 2 ^ 64) }
        ensures err { OnErr result (self.new ≡ self.old) }
    {
        let next = self.next();
        self.answer(seat, next)
    }

    /// As `take`, with the cube of this number where it is free.
    pub fn take_near(&mut self, seat: u32, id: usize) -> Result<Answer, AllocError>
        ensures ok { IfOk result (λ answer. Answers self.old seat answer self.new) }
        ensures near { IfOk result (IsNear (state_of self.old).cover id) }
        ensures small { OnOk result (length self.new.journal < 2 ^ 64) }
        ensures err { OnErr result (self.new ≡ self.old) }
    {
        let next = self.next_near(id);
        self.answer(seat, next)
    }

    /// A `take` with this answer. At `Err` nothing changed.
    fn answer(&mut self, seat: u32, taken: Taken) -> Result<Answer, AllocError>
        requires { MayAnswer (state_of self.old) taken }
        ensures ok { IfOk result (λ answer. Answers self.old seat answer self.new) }
        ensures told { IfOk result (λ answer. told_as answer ≡ taken) }
        ensures small { OnOk result (length self.new.journal < 2 ^ 64) }
        ensures err { OnErr result (self.new ≡ self.old) }
    {
        match taken {
            Taken::Cube(id) => {
                let literals = self.cover.cube_of(id)?;
                self.record_take(seat, Taken::Cube(id))?;
                Ok(Answer::Cube(id, literals))
            }
            Taken::Idle => {
                self.record_take(seat, Taken::Idle)?;
                Ok(Answer::Idle)
            }
            Taken::Done => {
                self.record_take(seat, Taken::Done)?;
                Ok(Answer::Done)
            }
        }
    }

    /// What a `take` is answered now, with the cube of this number where it is free.
    fn next_near(&self, id: usize) -> Taken
        ensures may { MayAnswer (state_of self.now) result }
        ensures near { (k : ℕ) → result ≡ Cube k → node_at (state_of self.now).cover id ≡ Some Free → k ≡ id }
    {
        match self.next() {
            Taken::Cube(_) if self.cover.is_free(id) => Taken::Cube(id),
            next => next,
        }
    }

    /// What a `take` is answered now.
    fn next(&self) -> Taken
        ensures { MayAnswer (state_of self.now) result }
    {
        if self.found.is_some() {
            return Taken::Done;
        }
        match self.cover.first_open() {
            Some(id) => Taken::Cube(id),
            None => match self.cover.first_held() {
                Some(_) => Taken::Idle,
                None => Taken::Done,
            },
        }
    }

    /// Adds the event of a `take`, with room for one event more of each leaf that is held then.
    fn record_take(&mut self, seat: u32, taken: Taken) -> Result<(), AllocError>
        requires { MayAnswer (state_of self.old) taken }
        ensures ok { OnOk result (self.new ≡ with_event self.old (Take seat taken)) }
        ensures small { OnOk result (length self.new.journal < 2 ^ 64) }
        ensures err { OnErr result (self.new ≡ self.old) }
    {
        let held = self.cover.held_count();
        self.journal.reserve(held + 2)?;
        hold(&mut self.cover, seat, taken);
        self.journal.push_reserved(Event::Take(seat, taken));
        Ok(())
    }

    /// What the seat found of its cube. A schedule that comes after another isn't kept. At `Err` nothing
    /// changed.
    pub fn deliver(
        &mut self,
        seat: u32,
        id: usize,
        batch: Batch,
        outcome: Outcome,
    ) -> Result<(), Refused>
        requires held { IsHeldBy (state_of self.old) id seat }
        requires justified { IsJustifiedIn self.old.problem (state_of self.old) id batch outcome }
        ensures ok { OnOk result (self.new ≡ with_event self.old (Deliver seat id batch outcome)) }
        ensures err { OnErr result (self.new ≡ self.old) }
        ensures refused { IfErr result (λ refused. (refused.batch ≡ batch) × (refused.outcome ≡ outcome)) }
    {
        let Ok(delivery) = Delivery::of_copies(&batch, &outcome) else {
            return Err(Refused { batch, outcome });
        };
        match self.enter(seat, id, delivery) {
            Ok(()) => Ok(()),
            Err(_) => Err(Refused { batch, outcome }),
        }
    }

    /// As `deliver`, of a delivery that nobody wants back: its batch goes into the book without a copy. It takes time in its
    /// lemmas' length. At the one error, want of memory, the book is as it was, and the delivery is gone.
    pub fn enter(&mut self, seat: u32, id: usize, delivery: Delivery) -> Result<(), AllocError>
        requires held { IsHeldBy (state_of self.old) id seat }
        requires justified { IsJustifiedIn self.old.problem (state_of self.old) id
            delivery.batch delivery.outcome }
        ensures ok { OnOk result (self.new
            ≡ with_event self.old (Deliver seat id delivery.batch delivery.outcome)) }
        ensures err { OnErr result (self.new ≡ self.old) }
    {
        let Delivery {
            batch,
            outcome,
            schedule,
        } = delivery;
        let alloc = *self.lemmas.allocator();
        let base = self.lemmas.len();
        check_room(base, &batch)?;
        let number = closing_number(&batch, base, &outcome);
        let Prepared { shared, handed } = prepare(alloc, base, batch)?;
        self.lemmas.reserve(shared.len())?;
        self.halves = settle(
            &mut self.cover,
            &mut self.found,
            id,
            number,
            &outcome,
            schedule,
        )?;
        publish(&mut self.lemmas, shared);
        self.journal
            .push_reserved(Event::Deliver(seat, id, handed, outcome));
        Ok(())
    }

    /// The seat gives its cube back. It takes no memory.
    pub fn release(&mut self, seat: u32, id: usize)
        requires { IsHeldBy (state_of self.old) id seat }
        ensures { self.new ≡ with_event self.old (Release seat id) }
    {
        self.cover.release(id);
        self.journal.push_reserved(Event::Release(seat, id));
    }

    /// The call that the event tells of, once more.
    fn repeat(&mut self, event: &Event) -> Result<(), AllocError>
        requires { IsAllowed self.old.problem (state_of self.old) event.now }
        ensures { OnOk result (self.new ≡ with_event self.old event.now) }
    {
        match event {
            Event::Take(seat, taken) => {
                self.record_take(*seat, *taken)?;
                Ok(())
            }
            Event::Deliver(seat, id, batch, outcome) => {
                let batch_copy = batch.copy()?;
                let outcome_copy = outcome.copy()?;
                match self.deliver(*seat, *id, batch_copy, outcome_copy) {
                    Ok(()) => Ok(()),
                    Err(_) => Err(AllocError),
                }
            }
            Event::Release(seat, id) => {
                self.release(*seat, *id);
                Ok(())
            }
        }
    }

    /// The verdict, where nothing is left to do: the schedule that was found first, or a refutation by the
    /// lemmas. It takes time and memory in the sum of the lemmas and of the leaves' lemmas.
    pub fn conclude(&self) -> Result<Option<Verdict>, AllocError>
        ensures { IfOk result (Concludes self.now.problem (state_of self.now)) }
    {
        match &self.found {
            Some(schedule) => return Ok(Some(Verdict::Sat(schedule.copy()?))),
            None => {}
        }
        if !self.cover.is_closed() {
            return Ok(None);
        }
        let alloc = *self.lemmas.allocator();
        let refutation = refutation_of(alloc, &self.problem, &self.cover, self.lemmas.as_slice())?;
        Ok(Some(Verdict::Unsat(refutation)))
    }

    /// As `conclude`, of a book that is needed no more where it is done: what it has goes into the verdict, and only
    /// lemmas that somebody else still shares are copied. Where something is left to do, the book comes back. At the
    /// one error, want of memory, it is gone.
    pub fn into_verdict(self) -> Result<Result<Verdict, Book>, AllocError>
        ensures verdict { IfOk result (λ r. IfOk r (λ verdict.
            Concludes self.problem (state_of self) (Some verdict))) }
        ensures open { IfOk result (λ r. IfErr r (λ book.
            Concludes self.problem (state_of self) None × (book ≡ self))) }
    {
        if self.found.is_none() && !self.cover.is_closed() {
            return Ok(Err(self));
        }
        let alloc = *self.lemmas.allocator();
        let Book {
            problem,
            cover,
            opened: _,
            lemmas,
            found,
            halves: _,
            journal,
        } = self;
        if let Some(schedule) = found {
            return Ok(Ok(Verdict::Sat(schedule)));
        }
        // its events share the lemmas
        drop(journal);
        let refutation = into_refutation(alloc, &problem, &cover, lemmas)?;
        Ok(Ok(Verdict::Unsat(refutation)))
    }
}

// The seat holds the cube that it took.
fn hold(cover: &mut Cover, seat: u32, taken: Taken)
    requires { (id : ℕ) → taken ≡ Cube id → node_at cover.old id ≡ Some Free }
    ensures { cover.new ≡ cover_taken cover.old seat taken }
{
    match taken {
        Taken::Cube(id) => cover.take(id, seat),
        Taken::Idle | Taken::Done => {}
    }
}
