//! Slices of search on small problems.
#![tactic(auto)]

#[cfg(test)]
mod slices;
