//! The lemmas that are some entry's own.
ghost use Rattle.std.specs.Prelude.{◌≡◌, [], take};
ghost use Rattle.lemma_shelf.specs.code.Walks.{IsWhole, TreesIn};

use crate::book::Book;
use refute_tree::Lemma;
use std::alloc::Global;

/// Each lemma that is an entry's own, once, in the order in which they came.
#[derive(Drop)]
pub struct Table {
    /// The clauses of problems that the lemmas rest on.
    pub book: Book,
    /// The lemmas, whose steps name clauses by their numbers in the book, and lemmas by their numbers in this list: all of
    /// a lemma's steps, or those that aren't cycles.
    pub lemmas: Vec<Lemma>,
    /// Of each lemma how many time points a problem must have for it and all that it rests on.
    pub points: Vec<u64>,
}

impl Table {
    pub fn new(alloc: Global) -> Self
        ensures none { result.lemmas.items ≡ [] }
        ensures whole { IsWhole result }
        ensures trees { TreesIn result }
    {
        Table {
            book: Book::new(alloc),
            lemmas: Vec::new(alloc),
            points: Vec::new(alloc),
        }
    }

    /// The first clauses and lemmas stay.
    pub fn cut(&mut self, clauses: usize, lemmas: usize)
        ensures book { self.new.book ≡ take clauses self.old.book }
        ensures lemmas { self.new.lemmas.items ≡ take lemmas self.old.lemmas.items }
        ensures points { self.new.points.items ≡ take lemmas self.old.points.items }
    {
        self.book.cut(clauses);
        self.lemmas.truncate(lemmas);
        self.points.truncate(lemmas);
    }
}
