//! Problems without some of their atoms, searched in the place of the whole ones.
#![tactic(auto)]

#[cfg(test)]
mod reductions;
