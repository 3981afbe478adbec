//! What is known of one deque.
use std::collections::LinkedList;

/// What happens to a deque: a number is pushed, or its oldest one is taken. No value of it is made.
pub enum Event {
    Pushed(u32),
    Taken,
}

/// What a pass of one deque has put there and taken from it, and its parts of the right to know the whole. It knows
/// a front of the deque's history, through its own last step, and those of the passes that it has taken in. No value
/// of it is made.
pub struct Slip {
    pub parts: u64,
    pub put: LinkedList<u32>,
    pub taken: LinkedList<u32>,
    pub known: LinkedList<Event>,
    pub joined: LinkedList<LinkedList<Event>>,
}
