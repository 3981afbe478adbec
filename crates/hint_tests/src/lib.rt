//! Hints on shops that are worked by hand: schedules by dispatching and by better orders, refutations that take what was asserted last for granted, and
//! their ends for later problems.
#![tactic(auto)]

#[cfg(test)]
mod dispatching;
#[cfg(test)]
mod large_shop;
#[cfg(test)]
mod operations;
#[cfg(test)]
mod relaxations;
