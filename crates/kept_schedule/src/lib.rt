//! The schedule of an earlier question, changed by a few steps so that it makes true what is asserted now: so the next
//! check-sat of a script often needs no search, nor the problem that a search is of ([`KeptSchedule`]). The steps are hints: what they lead to is
//! tested.
#![tactic(auto)]

mod guessing;
mod kept;
mod naming;
mod raising;
mod sweeping;
mod testing;
mod wanting;

pub use kept::KeptSchedule;
