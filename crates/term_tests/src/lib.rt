//! One short run of each public call that takes memory and that no script reaches, with ample memory: of s-expressions
//! and terms.
#![tactic(auto)]

#[cfg(test)]
mod printing;
#[cfg(test)]
mod values;
