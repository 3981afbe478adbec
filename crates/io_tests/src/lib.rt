//! Short runs, with ample memory, that no row of a table reaches: of reading a source at its limit, and of a generated
//! script.
#![tactic(auto)]

#[cfg(test)]
mod instance;
#[cfg(test)]
mod limit;
