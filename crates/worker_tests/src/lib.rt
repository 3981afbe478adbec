//! A problem that workers on threads share, with ample memory, and the hands of a pool.
#![tactic(auto)]

#[cfg(test)]
mod hands;
#[cfg(test)]
mod journal;
#[cfg(test)]
mod openings;
#[cfg(test)]
mod shared;
#[cfg(test)]
mod stops;
#[cfg(test)]
mod threads;
