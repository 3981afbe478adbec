//! A certificate that is read whole, for who wants all its entries at once: [`read_certificate`]. `check` and `convert` read it
//! entry by entry (`cert_read`), and hold none of them.
#![tactic(auto)]

mod whole;

pub use whole::read_certificate;
