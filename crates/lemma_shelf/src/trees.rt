//! Whether lemmas are held with what shows them.

/// What is held of the lemmas of a table.
#[derive(Clone, Copy)]
pub enum Trees {
    /// All of their steps, so that a lemma can be written out.
    Held,
    /// Their steps without the cycles, by which it is known what a lemma rests on.
    LetGo,
}
