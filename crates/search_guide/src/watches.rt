//! Watches: each clause of three literals or more has two that aren't denied, as long as it has two, and is
//! looked at only where one of them is denied (Moskewicz and others 2001). A watch also names another literal
//! of its clause, a blocker: where that one holds, the clause isn't read at all. A clause of two literals
//! stands in lists of its own, where the blocker is the other literal, and these lists come first. A search
//! for a new watch begins behind the old one and goes round, so that a branch of the search reads a long
//! clause about once (Gent 2013).
//!
//! Coming back from a branch costs nothing: the watches stay where they are.
use crate::assignment::{Assignment, Truth};
use crate::clauses::{Clauses, Source, Watched};
use crate::closing::Closing;
use crate::ladders::Ladders;
use crate::numbers::{LiteralNumber, narrow, negated};
use std::alloc::{AllocError, Global};
use std::mem;

/// What follows from a literal of the trail.
#[derive(Clone, Copy, Debug, PartialEq, Eq)]
pub enum Proposal {
    /// Nothing more.
    Nothing,
    /// This weaker bound on the same two points, which isn't on the trail; its negation may be.
    Weaker(LiteralNumber),
    /// The literal at this place of the clause, with its number, which is open: all others are denied.
    Unit(Source, usize, LiteralNumber),
    /// All literals of the clause are denied.
    Conflict(Source),
}

#[derive(Clone, Copy)]
struct Watch {
    /// of a longer clause where its head stands; of a pair twice its index, and one more where the blocker
    /// stands at place 1
    clause: u32,
    /// another literal of the clause
    blocker: LiteralNumber,
}

/// What a clause says when one of its watched literals is denied.
#[derive(Clone, Copy)]
enum Visit {
    /// Its other watched literal holds.
    Holds(LiteralNumber),
    /// This literal of it, at this place, isn't denied and is to be watched in place of the denied one.
    Moves(Move),
    /// All are denied but the other watched one, at this place, which is open.
    Unit(u32, LiteralNumber),
    /// All are denied, the other watched one too.
    Conflict(LiteralNumber),
    /// There is no such clause.
    Gone,
}

impl Visit {
    /// Whether the clause was read to its end.
    fn is_whole(self) -> bool {
        match self {
            Visit::Holds(_) | Visit::Gone => false,
            Visit::Moves(step) => step.to < step.from,
            Visit::Unit(..) | Visit::Conflict(_) => true,
        }
    }
}

#[derive(Clone, Copy)]
struct Move {
    from: u32,
    to: u32,
    literal: LiteralNumber,
    other: LiteralNumber,
}

/// The clauses that are looked at when a literal holds.
#[derive(Drop)]
struct Lists {
    /// the clauses of two literals with its negation
    pairs: Vec<Watch>,
    /// the longer clauses that watch its negation
    longer: Vec<Watch>,
}

pub struct Watches {
    alloc: Global,
    /// for each literal
    lists: Vec<Lists>,
    /// where the head of a longer clause stands from which nothing follows
    muted: Option<u32>,
    /// the literal from which consequences are drawn
    literal: Option<LiteralNumber>,
    /// the next step of its ladder
    weaker: Option<LiteralNumber>,
    /// how many of its pairs were looked at
    pair: usize,
    /// its longer clauses, taken out of the lists, how many were looked at, and how many of these stay
    list: Vec<Watch>,
    seen: usize,
    kept: usize,
    /// how many literals the longer clauses have that were read to their ends, each time that they were
    read: usize,
    /// something of the lists that were read ahead last
    touched: u32,
}

impl Drop for Watches {
    fn drop(self) {
        let Watches {
            alloc: _,
            lists,
            muted,
            literal,
            weaker,
            pair: _,
            list,
            seen: _,
            kept: _,
            read: _,
            touched: _,
        } = self;
        drop(lists);
        drop(muted);
        drop(literal);
        drop(weaker);
        drop(list);
    }
}

impl Watches {
    pub fn new(alloc: Global) -> Self {
        Watches {
            alloc,
            lists: Vec::new(alloc),
            muted: None,
            literal: None,
            weaker: None,
            pair: 0,
            list: Vec::new(alloc),
            seen: 0,
            kept: 0,
            read: 0,
            touched: 0,
        }
    }

    /// How many literals were read in longer clauses, up to a factor of two: a clause counts whole where a
    /// look at it came to its end. The count wraps around.
    pub fn read(&self) -> usize {
        self.read
    }

    /// Room for one more atom.
    pub fn push(&mut self) -> Result<(), AllocError> {
        for _side in 0..2 {
            self.lists.push(Lists {
                pairs: Vec::new(self.alloc),
                longer: Vec::new(self.alloc),
            })?;
        }
        Ok(())
    }

    /// The clause is looked at when one of the two literals at these places is denied.
    pub fn attach(
        &mut self,
        clauses: &mut Clauses,
        clause: u32,
        first: u32,
        second: u32,
    ) -> Result<(), AllocError> {
        let literals = clauses.literals(clause);
        if literals.len() < 2 {
            return Ok(());
        }
        let is_pair = literals.len() == 2;
        let one = literals.get(first as usize).copied();
        let two = literals.get(second as usize).copied();
        let (Some(one), Some(two)) = (one, two) else {
            return Ok(());
        };
        let start = clauses.start(clause);
        clauses.watch(start, first, second);
        let (watch_one, watch_two) = if is_pair {
            (
                pair_watch(clause, second, two),
                pair_watch(clause, first, one),
            )
        } else {
            (longer_watch(start, two), longer_watch(start, one))
        };
        append(&mut self.lists, negated(one), watch_one, is_pair)?;
        append(&mut self.lists, negated(two), watch_two, is_pair)
    }

    /// The literal's lists are read ahead, so that they are in the caches when it is followed.
    pub fn touch(&mut self, literal: LiteralNumber) {
        let Some(lists) = self.lists.get(literal as usize) else {
            return;
        };
        let pair = match lists.pairs.first() {
            Some(watch) => watch.clause,
            None => 0,
        };
        let longer = match lists.longer.first() {
            Some(watch) => watch.clause,
            None => 0,
        };
        self.touched = pair ^ longer;
    }

    /// From now on nothing follows from the longer clause whose head stands there, alone.
    pub fn mute(&mut self, start: Option<u32>) {
        self.muted = start;
    }

    /// The list that was taken out goes back.
    pub fn end(&mut self) {
        let Some(literal) = self.literal else {
            return;
        };
        self.literal = None;
        if self.list.is_empty() {
            return;
        }
        if self.kept < self.seen {
            let mut kept = self.kept;
            let list = self.list.as_mut_slice();
            for place in self.seen..list.len() {
                if let Some(watch) = list.get(place).copied() {
                    kept = keep(list, kept, watch);
                }
            }
            self.list.truncate(kept);
        }
        if let Some(lists) = self.lists.get_mut(literal as usize) {
            mem::swap(&mut lists.longer, &mut self.list);
        }
    }

    /// From here on `next` answers what follows from the literal.
    pub fn begin(&mut self, literal: LiteralNumber, weaker: Option<LiteralNumber>) {
        self.end();
        if let Some(lists) = self.lists.get_mut(literal as usize) {
            if !lists.longer.is_empty() {
                mem::swap(&mut lists.longer, &mut self.list);
            }
            self.literal = Some(literal);
        }
        self.weaker = weaker;
        self.pair = 0;
        self.seen = 0;
        self.kept = 0;
    }

    /// What follows next from the literal that was begun with.
    pub fn next(
        &mut self,
        clauses: &mut Clauses,
        ladders: &Ladders,
        assignment: &Assignment,
    ) -> Result<Proposal, AllocError> {
        let Some(literal) = self.literal else {
            return Ok(Proposal::Nothing);
        };
        if let Some(weaker) = self.weaker {
            if assignment.truth(weaker) != Truth::True {
                self.weaker = ladders.behind(weaker);
                return Ok(Proposal::Weaker(weaker));
            }
            self.weaker = None;
        }
        if let Some(proposal) = self.next_pair(literal, clauses, assignment) {
            return Ok(proposal);
        }
        self.next_longer(literal, clauses, assignment)
    }

    fn next_pair(
        &mut self,
        literal: LiteralNumber,
        clauses: &Clauses,
        assignment: &Assignment,
    ) -> Option<Proposal> {
        let list = &self.lists.get(literal as usize)?.pairs;
        for place in self.pair..list.len() {
            let watch = *list.get(place)?;
            let truth = assignment.truth(watch.blocker);
            if truth != Truth::True {
                self.pair = place + 1;
                let source = clauses.source(watch.clause / 2);
                if truth == Truth::False {
                    return Some(Proposal::Conflict(source));
                }
                let place = (watch.clause % 2) as usize;
                return Some(Proposal::Unit(source, place, watch.blocker));
            }
        }
        self.pair = list.len();
        None
    }

    fn next_longer(
        &mut self,
        literal: LiteralNumber,
        clauses: &mut Clauses,
        assignment: &Assignment,
    ) -> Result<Proposal, AllocError> {
        let denied = negated(literal);
        let mut kept = self.kept;
        let list = self.list.as_mut_slice();
        for place in self.seen..list.len() {
            let Some(watch) = list.get(place).copied() else {
                break;
            };
            if assignment.truth(watch.blocker) == Truth::True {
                kept = keep(list, kept, watch);
                continue;
            }
            let start = watch.clause;
            if self.muted == Some(start) {
                kept = keep(list, kept, watch);
                continue;
            }
            let visit = look_at(clauses, start, denied, assignment);
            if visit.is_whole() {
                self.read = self.read.wrapping_add(clauses.length_at(start));
            }
            match visit {
                Visit::Holds(blocker) => kept = keep(list, kept, longer_watch(start, blocker)),
                Visit::Moves(step) => {
                    if let Err(error) = follow(&mut self.lists, clauses, start, step) {
                        self.seen = place;
                        self.kept = kept;
                        return Err(error);
                    }
                }
                Visit::Unit(unit, blocker) => {
                    self.kept = keep(list, kept, longer_watch(start, blocker));
                    self.seen = place + 1;
                    let source = clauses.source_at(start);
                    return Ok(Proposal::Unit(source, unit as usize, blocker));
                }
                Visit::Conflict(blocker) => {
                    self.kept = keep(list, kept, longer_watch(start, blocker));
                    self.seen = place + 1;
                    return Ok(Proposal::Conflict(clauses.source_at(start)));
                }
                Visit::Gone => {}
            }
        }
        self.seen = list.len();
        self.kept = kept;
        self.end();
        Ok(Proposal::Nothing)
    }

    /// Before the table of clauses closes up: the longer clauses are told by their indices.
    pub fn begin_closing(&mut self, clauses: &Clauses) {
        self.end();
        for lists in self.lists.iter_mut() {
            for watch in lists.longer.iter_mut() {
                watch.clause = clauses.index_at(watch.clause).unwrap_or(u32::MAX);
            }
        }
    }

    /// Behind it: by where their heads stand. The lists lose those that have no literals any more.
    pub fn end_closing(&mut self, clauses: &Clauses) {
        for lists in self.lists.iter_mut() {
            for watch in lists.longer.iter_mut() {
                watch.clause = clauses.start(watch.clause);
            }
            lists
                .longer
                .retain(|watch| clauses.index_at(watch.clause).is_some());
        }
    }

    /// Before the clauses get other indices: those that don't stay leave the lists.
    pub fn close_up(&mut self, clauses: &Clauses, closing: &Closing) {
        self.end();
        for lists in self.lists.iter_mut() {
            close_pairs(&mut lists.pairs, closing);
            lists
                .longer
                .retain(|watch| stays(clauses, closing, watch.clause));
        }
    }
}

/// Whether the clause stays whose head stands there.
fn stays(clauses: &Clauses, closing: &Closing, start: u32) -> bool {
    match clauses.index_at(start) {
        Some(clause) => closing.place(clause).is_some(),
        None => false,
    }
}

/// The watch of a pair, whose other literal stands at the place.
fn pair_watch(clause: u32, place: u32, blocker: LiteralNumber) -> Watch {
    Watch {
        clause: clause.wrapping_mul(2).wrapping_add(place % 2),
        blocker,
    }
}

/// The watch of a longer clause, whose head stands there.
fn longer_watch(start: u32, blocker: LiteralNumber) -> Watch {
    Watch {
        clause: start,
        blocker,
    }
}

fn close_pairs(list: &mut Vec<Watch>, closing: &Closing) {
    let mut kept = 0usize;
    let watches = list.as_mut_slice();
    for place in 0..watches.len() {
        let Some(watch) = watches.get(place).copied() else {
            break;
        };
        if let Some(clause) = closing.place(watch.clause / 2) {
            let pair = pair_watch(clause, watch.clause % 2, watch.blocker);
            kept = keep(watches, kept, pair);
        }
    }
    list.truncate(kept);
}

/// The watch stands next behind those that stay, of which there is one more then.
fn keep(list: &mut [Watch], kept: usize, watch: Watch) -> usize {
    if let Some(slot) = list.get_mut(kept) {
        *slot = watch;
    }
    kept.wrapping_add(1)
}

/// The literal's list gets a watch at its end.
fn append(
    lists: &mut [Lists],
    number: LiteralNumber,
    watch: Watch,
    is_pair: bool,
) -> Result<(), AllocError> {
    let Some(list) = lists.get_mut(number as usize) else {
        return Ok(());
    };
    if is_pair {
        list.pairs.push(watch)?;
    } else {
        list.longer.push(watch)?;
    }
    Ok(())
}

/// The clause is watched at another place. Where there is no memory, the watch stays.
fn follow(
    lists: &mut [Lists],
    clauses: &mut Clauses,
    start: u32,
    step: Move,
) -> Result<(), AllocError> {
    let watch = longer_watch(start, step.other);
    append(lists, negated(step.literal), watch, false)?;
    clauses.move_watch(start, step.from, step.to);
    Ok(())
}

/// Reads the clause whose head stands there, one of whose watched literals is `denied`.
fn look_at(clauses: &Clauses, start: u32, denied: LiteralNumber, assignment: &Assignment) -> Visit {
    let Some(
        Watched {
            first,
            second,
            literals,
        },
    ) = clauses.watched(start)
    else {
        return Visit::Gone;
    };
    let (from, place) = if literals.get(first as usize).copied() == Some(denied) {
        (first, second)
    } else {
        (second, first)
    };
    let Some(other) = literals.get(place as usize).copied() else {
        return Visit::Gone;
    };
    let truth = assignment.truth(other);
    if truth == Truth::True {
        return Visit::Holds(other);
    }
    match find(literals, from as usize, place as usize, assignment) {
        Some((to, literal)) => Visit::Moves(Move {
            from,
            to: narrow(to),
            literal,
            other,
        }),
        None if truth == Truth::False => Visit::Conflict(other),
        None => Visit::Unit(place, other),
    }
}

/// The first literal that isn't denied, behind the place `from`, whose literal is denied, and then before it, but at the
/// place `other`.
fn find(
    literals: &[LiteralNumber],
    from: usize,
    other: usize,
    assignment: &Assignment,
) -> Option<(usize, LiteralNumber)> {
    for place in from.saturating_add(1)..literals.len() {
        let literal = *literals.get(place)?;
        if place != other && assignment.truth(literal) != Truth::False {
            return Some((place, literal));
        }
    }
    for place in 0..from {
        let literal = *literals.get(place)?;
        if place != other && assignment.truth(literal) != Truth::False {
            return Some((place, literal));
        }
    }
    None
}
