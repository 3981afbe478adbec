//! What is asked for, and how it ends.

/// What is written of a job shop.
#[derive(Clone, Copy, Debug, PartialEq, Eq)]
pub enum Emit {
    /// A plan of least makespan, as text.
    Plan,
    /// The script whose minimum is the least makespan.
    Script,
    /// That script's certificate, of the first version.
    Certificate,
}

/// What an input was answered by.
#[derive(Clone, Copy, Debug, PartialEq, Eq)]
pub enum Answered {
    /// What was asked for.
    Whole,
    /// The line that says why it is no job shop.
    Refused,
}
