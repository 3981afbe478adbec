//! One short run of each public call that takes memory and that no script reaches, with ample memory: of nets, cycles, pruning,
//! references of steps, lemmas that are carried over, and the checker of whole refutations.
#![tactic(auto)]

#[cfg(test)]
mod carried;
#[cfg(test)]
mod cycles;
#[cfg(test)]
mod lemmas;
#[cfg(test)]
mod nets;
#[cfg(test)]
mod steps;
#[cfg(test)]
mod wide;
