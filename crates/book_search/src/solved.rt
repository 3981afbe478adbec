//! What a book that opened with lemmas comes to.
ghost use Rattle.std.specs.Prelude.{◌≡◌, IfOk, IfErr, is_some};
ghost use Rattle.book_core.specs.Books.{IsOpening, IsDone};
ghost use Rattle.book_core.specs.Runs.{state_of};
ghost use Rattle.book_core.specs.Shared.{lemmas_of};
ghost use Rattle.book_core.specs.Verdicts.{IsRight};
ghost use Rattle.book_search.specs.Learned.{learned_by, BeginsWith};
ghost use Rattle.book_search.specs.code.Schedules.{brings_schedule, lemmas_where};

use book_core::{Book, Event, Outcome, Verdict};
use refute_tree::Lemma;
use std::alloc::{AllocError, Global};
use std::sync::Arc;

/// A verdict, and what was learned on the way to it.
pub struct Solved {
    pub verdict: Verdict,
    /// Where the verdict is a schedule: all lemmas of the book, of which the first are those that it opened with. Of a
    /// refutation they are among its own lemmas, and none stand here.
    pub lemmas: Vec<Arc<Lemma>>,
}

impl Drop for Solved {
    fn drop(self) {
        let Solved { verdict, lemmas } = self;
        drop(verdict);
        drop(lemmas);
    }
}

impl Solved {
    /// The verdict alone.
    pub fn into_verdict(self) -> Verdict
        ensures { result ≡ self.verdict }
    {
        let Solved { verdict, lemmas } = self;
        drop(lemmas);
        verdict
    }

    /// Both, in their order.
    pub fn into_parts(self) -> (Verdict, Vec<Arc<Lemma>>)
        ensures verdict { result.0 ≡ self.verdict }
        ensures lemmas { result.1 ≡ self.lemmas }
    {
        let Solved { verdict, lemmas } = self;
        (verdict, lemmas)
    }
}

// Whether the event is the delivery of a schedule.
fn brings_schedule(event: &Event) -> bool
    ensures { result ≡ brings_schedule event.now }
{
    match event {
        Event::Take(_, _) => false,
        Event::Deliver(_, _, _, outcome) => match outcome {
            Outcome::Found(_) => true,
            Outcome::Shut(_) => false,
            Outcome::Split(_) => false,
            Outcome::Open => false,
        },
        Event::Release(_, _) => false,
    }
}

// Whether a schedule was found, by the newest deliveries.
fn has_schedule(book: &Book) -> bool
    ensures { result ≡ is_some (state_of book.now).found }
{
    let events = book.journal();
    let mut left = events.len();
    while left > 0 {
        left -= 1;
        if brings_schedule(&events[left]) {
            return true;
        }
    }
    false
}

// The same lemmas, in a list of their own.
fn all_of(alloc: Global, lemmas: &[Arc<Lemma>]) -> Result<Vec<Arc<Lemma>>, AllocError>
    ensures { IfOk result (λ all. lemmas_of all.items ≡ lemmas_of lemmas.now) }
{
    let mut all = Vec::with_capacity(alloc, lemmas.len())?;
    for lemma in lemmas {
        all.push(Arc::try_clone(lemma)?)?;
    }
    Ok(all)
}

// Where a schedule was found, the book's lemmas.
fn learned(alloc: Global, book: &Book) -> Result<Vec<Arc<Lemma>>, AllocError>
    ensures opening { IfOk result (λ lemmas. IsOpening book.now.problem (lemmas_of lemmas.items)) }
    ensures all { IfOk result (λ lemmas. lemmas_of lemmas.items
        ≡ lemmas_where (is_some (state_of book.now).found) (state_of book.now).lemmas) }
{
    book.sound();
    if !has_schedule(book) {
        let none = Vec::new(alloc);
        return Ok(none);
    }
    let all = all_of(alloc, book.lemmas())?;
    Ok(all)
}

/// What the book comes to, or the book where something is left to do.
pub fn conclude(alloc: Global, book: Book) -> Result<Result<Solved, Book>, AllocError>
    ensures right { IfOk result (λ r. IfOk r (λ solved. IsRight book.problem solved.verdict)) }
    ensures lemmas { IfOk result (λ r. IfOk r (λ solved. IsOpening book.problem (lemmas_of solved.lemmas.items))) }
    ensures all { IfOk result (λ r. IfOk r (λ solved. lemmas_of solved.lemmas.items ≡ learned_by solved.verdict (state_of book).lemmas)) }
    ensures first { IfOk result (λ r. IfOk r (λ solved. BeginsWith book.opening solved.verdict (lemmas_of solved.lemmas.items))) }
    ensures open { IfOk result (λ r. IfErr r (λ same. (IsDone (state_of book) → ⊥) × (same ≡ book))) }
{
    let lemmas = learned(alloc, &book)?;
    match book.into_verdict()? {
        Ok(verdict) => Ok(Ok(Solved { verdict, lemmas })),
        Err(book) => Ok(Err(book)),
    }
}
