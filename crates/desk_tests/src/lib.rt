//! Two seats of a desk, with ample memory: what each is answered, and what the closed book has.
#![tactic(auto)]

#[cfg(test)]
mod calls;
#[cfg(test)]
mod endings;
#[cfg(test)]
mod seats;
#[cfg(test)]
mod table;
