//! Short runs of a book with ample memory, and deliveries that are judged.
#![tactic(auto)]

#[cfg(test)]
mod moves;
#[cfg(test)]
mod runs;
#[cfg(test)]
mod table;
