//! The clauses as numbers of literals, one after the other in one table: first the problem's, then the
//! lemmas. Their order within a clause stays as it was given, so that a place tells a search which literal is
//! meant. In front of them stands the clause's head: the count of its literals, the two places that are
//! watched, and its index. So a look at a clause mostly misses the caches once.
//!
//! Lemmas are numbered by their owner, and stand in the table in the order in which they came, so that lemmas
//! of others can come in between the own ones later on. Not all of them stand there.
use crate::closing::Closing;
use crate::numbers::{LiteralNumber, narrow};
use std::alloc::{AllocError, Global};

/// A clause, by where it comes from: the problem's clauses and the lemmas are counted from 0, each by itself.
#[derive(Clone, Copy, Debug, PartialEq, Eq)]
pub enum Source {
    Input(usize),
    Lemma(usize),
}

/// What stands in front of a clause's literals: how many there are, which two places of it are watched, and the
/// clause's index.
const HEAD: usize = 4;

const FIRST: usize = 1;

const SECOND: usize = 2;

const INDEX: usize = 3;

/// Where a clause begins that was forgotten.
const NOWHERE: u32 = u32::MAX;

/// A clause as its watches see it.
#[derive(Clone, Copy)]
pub struct Watched<'a> {
    pub first: u32,
    pub second: u32,
    pub literals: &'a [LiteralNumber],
}

/// What is known of the lemma with a number.
#[derive(Clone, Copy, PartialEq, Eq)]
enum Slot {
    /// nothing yet
    Untold,
    /// it was told, and doesn't stand in the table
    Absent,
    /// it is this clause of the table
    Clause(u32),
}

pub struct Clauses {
    /// heads and literals
    table: Vec<u32>,
    /// where the last clause ends in it, and the last one of the problem
    end: usize,
    inputs_end: usize,
    /// for each clause where its head stands
    starts: Vec<u32>,
    /// how many of them are the problem's
    inputs: usize,
    /// for each lemma's number
    slots: Vec<Slot>,
    /// for each clause behind the problem's the number of its lemma
    lemmas: Vec<u32>,
}

impl Drop for Clauses {
    fn drop(self) {
        let Clauses {
            table,
            end: _,
            inputs_end: _,
            starts,
            inputs: _,
            slots,
            lemmas,
        } = self;
        drop(table);
        drop(starts);
        drop(slots);
        drop(lemmas);
    }
}

impl Clauses {
    pub fn new(alloc: Global) -> Self {
        Clauses {
            table: Vec::new(alloc),
            end: 0,
            inputs_end: 0,
            starts: Vec::new(alloc),
            inputs: 0,
            slots: Vec::new(alloc),
            lemmas: Vec::new(alloc),
        }
    }

    /// What was pushed so far is the problem's.
    pub fn end_inputs(&mut self) {
        self.inputs = self.starts.len();
        self.inputs_end = self.end;
    }

    pub fn inputs(&self) -> usize {
        self.inputs
    }

    /// How many numbers of lemmas there are.
    pub fn lemmas(&self) -> usize {
        self.slots.len()
    }

    /// How many lemmas stand in the table, or did before they were forgotten.
    pub fn entries(&self) -> usize {
        self.lemmas.len()
    }

    /// The clause of the table with this place among the lemmas.
    pub fn entry(&self, place: usize) -> u32 {
        narrow(self.inputs.saturating_add(place))
    }

    /// The clause's place among the lemmas of the table, if it is one.
    pub fn place(&self, clause: u32) -> Option<usize> {
        (clause as usize).checked_sub(self.inputs)
    }

    /// One more number, of the clause that comes next. A lemma that was told already keeps its number.
    pub fn number_next(&mut self, lemma: usize) -> Result<(), AllocError> {
        let clause = narrow(self.starts.len());
        if lemma == self.slots.len() {
            self.slots.push(Slot::Clause(clause))?;
        } else if let Some(slot) = self.slots.get_mut(lemma) {
            *slot = Slot::Clause(clause);
        }
        self.lemmas.push(narrow(lemma))?;
        Ok(())
    }

    /// Whether nothing is known yet of the lemma with this number.
    pub fn is_untold(&self, lemma: usize) -> bool {
        self.slots.get(lemma).copied() == Some(Slot::Untold)
    }

    /// The lemma is known, and isn't to stand in the table.
    pub fn pass_by(&mut self, lemma: usize) {
        if let Some(slot) = self.slots.get_mut(lemma) {
            *slot = Slot::Absent;
        }
    }

    /// The lemmas from one number on have numbers from another on, and there are so many numbers in all.
    pub fn renumber(&mut self, from: usize, to: usize, count: usize) -> Result<(), AllocError> {
        let own = self.slots.len().saturating_sub(from);
        let end = to.saturating_add(own);
        for _lemma in self.slots.len()..count.max(end) {
            self.slots.push(Slot::Untold)?;
        }
        if from == to {
            return Ok(());
        }
        for back in 0..own {
            let lemma = own - 1 - back;
            let slot = self.slots.get(from.saturating_add(lemma)).copied();
            let new = self.slots.get_mut(to.saturating_add(lemma));
            if let (Some(slot), Some(new)) = (slot, new) {
                *new = slot;
            }
        }
        for lemma in from..to {
            if let Some(slot) = self.slots.get_mut(lemma) {
                *slot = Slot::Untold;
            }
        }
        self.read_slots();
        Ok(())
    }

    /// Each clause gets the number under which it is found.
    fn read_slots(&mut self) {
        for (lemma, slot) in self.slots.iter().enumerate() {
            if let Slot::Clause(clause) = slot {
                let place = (*clause as usize).saturating_sub(self.inputs);
                if let Some(number) = self.lemmas.get_mut(place) {
                    *number = narrow(lemma);
                }
            }
        }
    }

    /// Of the lemmas from the first number on those that aren't kept are gone, and the numbers of the others
    /// close up.
    fn close_numbers(&mut self, first: usize, kept: &[bool], closing: &Closing) {
        let mut next = 0usize;
        for lemma in 0..self.slots.len() {
            let own = lemma.checked_sub(first);
            let stays = match own.and_then(|own| kept.get(own)) {
                Some(stays) => *stays,
                None => true,
            };
            let slot = self.slots.get(lemma).copied();
            if let (true, Some(slot), Some(new)) = (stays, slot, self.slots.get_mut(next)) {
                *new = match slot {
                    Slot::Clause(clause) => match closing.place(clause) {
                        Some(clause) => Slot::Clause(clause),
                        None => Slot::Absent,
                    },
                    Slot::Untold | Slot::Absent => slot,
                };
                next = next.saturating_add(1);
            }
        }
        self.slots.truncate(next);
    }

    /// Of the lemmas from the first number on those that aren't kept are gone, and the numbers of the others
    /// close up; the clauses that don't stay are gone from the table.
    pub fn close_up(&mut self, first: usize, kept: &[bool], closing: &Closing) {
        let mut next = 0usize;
        for clause in 0..self.starts.len() {
            if closing.place(narrow(clause)).is_none() {
                continue;
            }
            let start = self.start(narrow(clause));
            if let Some(slot) = self.starts.get_mut(next) {
                *slot = start;
            }
            self.put(start, INDEX, narrow(next));
            next = next.saturating_add(1);
        }
        self.starts.truncate(next);
        self.lemmas.truncate(next.saturating_sub(self.inputs));
        self.close_numbers(first, kept, closing);
        self.read_slots();
    }

    pub fn source(&self, clause: u32) -> Source {
        let clause = clause as usize;
        if clause < self.inputs {
            return Source::Input(clause);
        }
        match self.lemmas.get(clause - self.inputs) {
            Some(lemma) => Source::Lemma(*lemma as usize),
            None => Source::Lemma(usize::MAX),
        }
    }

    pub fn index(&self, source: Source) -> Option<u32> {
        match source {
            Source::Input(number) if number < self.inputs => Some(narrow(number)),
            Source::Input(_) => None,
            Source::Lemma(number) => match self.slots.get(number) {
                Some(Slot::Clause(clause)) => Some(*clause),
                _ => None,
            },
        }
    }

    /// Where the clause's head stands.
    pub fn start(&self, clause: u32) -> u32 {
        match self.starts.get(clause as usize) {
            Some(start) => *start,
            None => NOWHERE,
        }
    }

    /// An entry of the head that stands there.
    fn entry_of(&self, start: u32, entry: usize) -> Option<u32> {
        self.table
            .get((start as usize).saturating_add(entry))
            .copied()
    }

    fn put(&mut self, start: u32, entry: usize, value: u32) {
        if let Some(slot) = self.table.get_mut((start as usize).saturating_add(entry)) {
            *slot = value;
        }
    }

    /// The index of the clause whose head stands there.
    pub fn index_at(&self, start: u32) -> Option<u32> {
        self.entry_of(start, INDEX)
    }

    /// Where that clause comes from.
    pub fn source_at(&self, start: u32) -> Source {
        self.source(self.index_at(start).unwrap_or(u32::MAX))
    }

    /// How many literals it has.
    pub fn length_at(&self, start: u32) -> usize {
        self.entry_of(start, 0).unwrap_or(0) as usize
    }

    /// The clause whose head stands there.
    pub fn watched(&self, start: u32) -> Option<Watched<'_>> {
        let start = start as usize;
        let head = part(&self.table, start, HEAD);
        let length = *head.first()?;
        let first = *head.get(FIRST)?;
        let second = *head.get(SECOND)?;
        Some(Watched {
            first,
            second,
            literals: part(&self.table, start.saturating_add(HEAD), length as usize),
        })
    }

    /// The literals of the clause whose head stands there, none where there is no such clause.
    fn literals_at(&self, start: u32) -> &[LiteralNumber] {
        match self.entry_of(start, 0) {
            Some(length) => part(
                &self.table,
                (start as usize).saturating_add(HEAD),
                length as usize,
            ),
            None => &[],
        }
    }

    /// The clause's literals, none where there is no such clause.
    pub fn literals(&self, clause: u32) -> &[LiteralNumber] {
        self.literals_at(self.start(clause))
    }

    /// The literals of the clause from this source, none where there is no such clause.
    pub fn literals_of(&self, source: Source) -> &[LiteralNumber] {
        match self.index(source) {
            Some(clause) => self.literals(clause),
            None => &[],
        }
    }

    /// A clause begins. What is left of one that wasn't ended is dropped.
    pub fn begin_clause(&mut self) -> Result<(), AllocError> {
        self.table.truncate(self.end);
        for _entry in 0..HEAD {
            self.table.push(0)?;
        }
        Ok(())
    }

    /// The next literal of the clause that is being made.
    pub fn push(&mut self, number: LiteralNumber) -> Result<(), AllocError> {
        self.table.push(number)?;
        Ok(())
    }

    /// The literals pushed since a clause began are the next one. The table holds less than 2^32 heads and
    /// literals, and 2^31 clauses.
    pub fn end_clause(&mut self) -> Result<u32, AllocError> {
        let count = self.starts.len();
        if self.table.len() >= u32::MAX as usize || count >= (u32::MAX / 2) as usize {
            return Err(AllocError);
        }
        let start = narrow(self.end);
        let length = self.table.len().saturating_sub(self.end);
        self.starts.push(start)?;
        self.put(start, 0, narrow(length.saturating_sub(HEAD)));
        self.put(start, INDEX, narrow(count));
        self.watch(start, 0, 1);
        self.end = self.table.len();
        Ok(narrow(count))
    }

    /// The clause whose head stands there watches these places.
    pub fn watch(&mut self, start: u32, first: u32, second: u32) {
        self.put(start, FIRST, first);
        self.put(start, SECOND, second);
    }

    /// The clause whose head stands there watches one place in place of another.
    pub fn move_watch(&mut self, start: u32, from: u32, to: u32) {
        let is_first = self.entry_of(start, FIRST) == Some(from);
        self.put(start, if is_first { FIRST } else { SECOND }, to);
    }

    /// The lemma loses its literals. Its watches go where they are met.
    pub fn forget(&mut self, clause: u32) {
        let start = self.start(clause);
        self.put(start, 0, 0);
    }

    /// The lemmas that aren't kept lose their literals, and the table closes up.
    pub fn keep_lemmas(&mut self, kept: &[bool]) {
        let mut end = self.inputs_end;
        for (lemma, is_kept) in kept.iter().enumerate() {
            let clause = self.inputs.saturating_add(lemma);
            let start = self.start(narrow(clause));
            let length = self.entry_of(start, 0);
            let Some(slot) = self.starts.get_mut(clause) else {
                return;
            };
            match length {
                Some(length) if *is_kept => {
                    *slot = narrow(end);
                    let count = HEAD.saturating_add(length as usize);
                    move_down(&mut self.table, start as usize, end, count);
                    end = end.saturating_add(count);
                }
                _ => *slot = NOWHERE,
            }
        }
        self.end = end;
        self.table.truncate(end);
    }
}

/// Copies the items that begin at `from` to where `to` is.
fn move_down(numbers: &mut [LiteralNumber], from: usize, to: usize, length: usize) {
    if from == to {
        return;
    }
    for k in 0..length {
        let number = numbers.get(from.saturating_add(k)).copied();
        if let (Some(number), Some(slot)) = (number, numbers.get_mut(to.saturating_add(k))) {
            *slot = number;
        }
    }
}

/// The items from `start` on, as many as there are up to `length`.
fn part(numbers: &[LiteralNumber], start: usize, length: usize) -> &[LiteralNumber] {
    if start <= numbers.len() && length <= numbers.len() - start {
        &numbers[start..start + length]
    } else {
        &[]
    }
}
