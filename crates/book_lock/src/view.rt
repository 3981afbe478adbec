//! What contracts see of a seat.
use book_core::{Book, Event};
use std::collections::LinkedList;

/// What a joined seat had seen, and its events.
pub struct Kept {
    pub number: u32,
    pub front: LinkedList<Event>,
    pub events: LinkedList<Event>,
}

/// What a seat knows. No value of it is made.
pub struct View {
    pub number: u32,
    /// How many seats were made: seat 0 counts them.
    pub seats: u64,
    pub turn: bool,
    pub spent: bool,
    /// The book without a call.
    pub begun: Book,
    pub front: LinkedList<Event>,
    /// The journal, while the seat has the turn.
    pub known: LinkedList<Event>,
    pub events: LinkedList<Event>,
    pub kept: LinkedList<Kept>,
}
