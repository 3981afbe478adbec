//! Where bytes come from and where they go to: the traits [`Source`] and [`Sink`], and the two calls
//! that move all of the bytes, [`read_all`] and [`write_all_of`].
//!
//! A source tells by its ghost member `left` which bytes it has left, and a sink by `holds` which
//! bytes it holds. One that doesn't know says `None`, and the clauses on bytes then say nothing.
//! Each also has a count of its faults, `faults`, which never falls: a call answers an error only
//! where the count rose in that call, or stands at its greatest value, 2^64 - 1.
//!
//! | Implementation | Bytes told | Fails |
//! |---|---|---|
//! | [`MemSource`], [`MemSink`] | all | at the calls whose numbers it was made with, to show what callers do at faults |
//! | [`SureSource`] | all | never |
//! | [`SureSink`] | none, and keeps none | never |
//! | [`StdSource`], [`StdSink`] | none of the process's streams | where the stream does |
//!
//! `StdSource` and `StdSink` are the trusted edge: nothing here says what the bytes of the process's
//! streams are, only that an error that such a stream gives is counted and handed on.
#![tactic(auto)]

mod all;
mod flushed;
mod memory;
mod sink;
mod source;
mod standard;
mod sure;

pub use all::{ReadError, WriteFault, read_all, write_all_of};
pub use flushed::FlushedWrite;
pub use memory::{MemSink, MemSource};
pub use sink::Sink;
pub use source::{Failed, Source};
pub use standard::{StdSink, StdSource};
pub use sure::{SureSink, SureSource};
