//! The turn: one seat at a time has the book.
ghost use Rattle.std.specs.Prelude.{◌≡◌, ◌<◌, [], ◌∷◌, List, length, true, false, None};
ghost use Rattle.book_core.specs.declared.event.Event.{Event};
ghost use Rattle.book_lock.specs.Begun.{with_events};
ghost use Rattle.book_lock.specs.SeatEvents.{HasNews};
ghost use Rattle.book_lock.specs.Rules.{Holds, IsOfDesk, Rests, HasTurn, HasOneMore, entered, Entered, Seen, telling, resting, opener};

use crate::looking::has_news;
use crate::view::View;
use atomic_table::{Join, Play, Shared, Split, TableRule};
use book_core::Book;
use std::snapshot::Snapshot;
use std::sync::Wait;
use std::thread;
use std::time::Duration;

pub(crate) struct Turns;

impl TableRule<Option<Book>, View, Snapshot<Book>> for Turns {
    ghost use Rattle.book_lock.specs.Rules.{Holds, opener};

    ghost holds = { λ key. Holds key.value };

    ghost first = { λ key. opener key.value };
}

pub(crate) struct Entering;

impl Play<Option<Book>, View> for Entering {
    ghost use Rattle.book_lock.specs.Rules.{Enters};

    ghost then = { Enters };
}

pub(crate) struct Telling;

impl Play<Option<Book>, View> for Telling {
    ghost use Rattle.book_lock.specs.Rules.{Tells};

    ghost then = { Tells };
}

pub(crate) struct Leaving;

impl Play<Option<Book>, View> for Leaving {
    ghost use Rattle.book_lock.specs.Rules.{Leaves};

    ghost then = { Leaves };
}

pub(crate) struct Seeing;

impl Play<Option<Book>, View> for Seeing {
    ghost use Rattle.book_lock.specs.Rules.{Sees};

    ghost then = { Sees };
}

pub(crate) struct Splitting;

impl Split<View> for Splitting {
    ghost use Rattle.book_lock.specs.Seats.{counted, newcomer};

    ghost left = { counted };

    ghost right = { newcomer };
}

pub(crate) struct Joining;

impl Join<View> for Joining {
    ghost use Rattle.book_lock.specs.Seats.{merged, nobody};

    ghost both = { merged };

    ghost spent = { nobody };
}

pub(crate) type Top = Shared<Option<Book>, View, Snapshot<Book>, Turns>;

pub(crate) type Token = atomic_table::Seat<Option<Book>, View>;

/// So often a seat only yields between two looks, before it sleeps.
const YIELDS: u32 = 32;

/// The longest sleep between two looks, in microseconds.
const LONGEST_SLEEP: u64 = 1000;

/// How many values the part of a word has that a sleep looks at.
const WORD_VALUES: usize = 1 << 32;

/// Between two looks at a word: yields at first, then sleeps longer and longer, up to a millisecond. It is no
/// step. It is over at once where the word isn't this any more, and nobody ends it earlier.
fn give_way<R: Wait>(rt: &R, top: &Top, word: usize, seen: u32, looks: u32)
    requires { word < top.now.table_id.words }
{
    if looks < YIELDS {
        thread::yield_now();
    } else {
        let micros = (1u64 << (looks - YIELDS).min(10)).min(LONGEST_SLEEP);
        top.park_timeout(rt, word, seen, Duration::from_micros(micros));
    }
}

/// Waits for the turn, and takes the book.
pub(crate) fn take_turn<R: Wait>(rt: &R, top: &Top, token: &mut Token) -> Book
    requires table { IsOfDesk token.old.table_id top.now.table_id }
    requires rests { Rests token.old.me }
    ensures same { (token.new.table_id ≡ token.old.table_id) × (token.new.id ≡ token.old.id) }
    ensures book { result ≡ with_events token.old.me.0.begun result.journal }
    ensures view { token.new.me ≡ (entered token.old.me.0 result.journal, (0, None) ∷ []) }
    ensures known { Entered token.old.me.0 result.journal }
{
    let mut looks = 0u32;
    for _ in rt.forever() {
        let found = top.compare_exchange::<Entering>(token, 0, 0, 1);
        if found == 0 {
            return top.exchange(token, 0, None).unwrap();
        }
        give_way(rt, top, 0, 1, looks);
        looks = looks.saturating_add(1);
    }
    unreachable!()
}

/// Waits for the turn of a book in whose journal, from this place on, is an event other than a take answered
/// Idle. Until then the turn goes back, with the book as it was. Each event is looked at once.
pub(crate) fn take_turn_with_news<R: Wait>(
    rt: &R,
    top: &Top,
    token: &mut Token,
    place: usize,
) -> Book
    requires table { IsOfDesk token.old.table_id top.now.table_id }
    requires rests { Rests token.old.me }
    ensures same { (token.new.table_id ≡ token.old.table_id) × (token.new.id ≡ token.old.id) }
    ensures book { result ≡ with_events token.old.me.0.begun result.journal }
    ensures view { token.new.me ≡ (entered token.old.me.0 result.journal, (0, None) ∷ []) }
    ensures known { Entered token.old.me.0 result.journal }
    ensures news { HasNews place result.journal }
{
    let mut from = place;
    let mut looks = 0u32;
    for _ in rt.forever() {
        let book = take_turn(rt, top, token);
        if has_news(book.journal(), from) {
            return book;
        }
        from = from.max(book.journal().len());
        leave(top, token, book);
        give_way(rt, top, 1, (from % WORD_VALUES) as u32, looks);
        looks = looks.saturating_add(1);
    }
    unreachable!()
}

/// Waits for the turn; a seat that was answered Idle waits for news.
pub(crate) fn enter<R: Wait>(
    rt: &R,
    top: &Top,
    token: &mut Token,
    waits: bool,
    place: usize,
) -> Book
    requires table { IsOfDesk token.old.table_id top.now.table_id }
    requires rests { Rests token.old.me }
    ensures same { (token.new.table_id ≡ token.old.table_id) × (token.new.id ≡ token.old.id) }
    ensures book { result ≡ with_events token.old.me.0.begun result.journal }
    ensures view { token.new.me ≡ (entered token.old.me.0 result.journal, (0, None) ∷ []) }
    ensures known { Entered token.old.me.0 result.journal }
    ensures news { waits ≡ true → HasNews place result.journal }
{
    if waits {
        take_turn_with_news(rt, top, token, place)
    } else {
        take_turn(rt, top, token)
    }
}

/// Looks at the turn, and changes nothing.
pub(crate) fn see(top: &Top, token: &mut Token)
    requires table { IsOfDesk token.old.table_id top.now.table_id }
    requires rests { Rests token.old.me }
    ensures same { (token.new.table_id ≡ token.old.table_id) × (token.new.id ≡ token.old.id)
        × (token.new.me ≡ token.old.me) }
    ensures seen { (log : List Event) × Seen token.old.me.0 log }
{
    // The turn is 0 or 1.
    let _ = top.compare_exchange::<Seeing>(token, 0, 2, 2);
}

/// Gives the turn back, with the book as it was.
pub(crate) fn leave(top: &Top, token: &mut Token, book: Book)
    requires table { IsOfDesk token.old.table_id top.now.table_id }
    requires turn { HasTurn token.old.me }
    requires book { book ≡ with_events token.old.me.0.begun token.old.me.0.known }
    ensures same { (token.new.table_id ≡ token.old.table_id) × (token.new.id ≡ token.old.id) }
    ensures view { token.new.me ≡ (resting token.old.me.0, []) }
{
    let _ = top.exchange(token, 0, Some(book));
    top.store::<Leaving>(token, 0, 0);
}

/// Tells of the event at the end of the book's journal, and gives the turn back. The journal's length is
/// handed on.
pub(crate) fn tell(top: &Top, token: &mut Token, book: Book) -> usize
    requires table { IsOfDesk token.old.table_id top.now.table_id }
    requires turn { HasTurn token.old.me }
    requires book { HasOneMore token.old.me.0 book }
    ensures same { (token.new.table_id ≡ token.old.table_id) × (token.new.id ≡ token.old.id) }
    ensures view { token.new.me ≡ (resting (telling token.old.me.0 book.journal), []) }
    ensures count { result ≡ length book.journal }
{
    let count = book.journal().len();
    let _empty = top.exchange(token, 0, Some(book));
    top.store::<Telling>(token, 1, count as u64);
    top.store::<Leaving>(token, 0, 0);
    count
}
