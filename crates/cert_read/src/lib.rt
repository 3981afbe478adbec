//! The reader of certificates: the text that `cert_text` writes, from the bytes to the entries.
//!
//! An [`EntryReader`] reads a certificate entry by entry, to the end of the text, and holds none of them;
//! [`header_version`] tells the headers of both versions from other s-expressions. `specs/Parts.antt` says what each s-expression stands for,
//! and `specs/Certificates.antt` which texts are certificates, and why another is refused. The laws: a text is one thing
//! at most ([`one_certificate`]), what was written is read again ([`certificate_reads_back`]), and nothing but the form of
//! an entry is read as one ([`only_entries`]).
//!
//! Lemmas in the form in which they are written, and places of kept ones, are read straight from the bytes (`quick.rt`), up
//! to the first item that has another form; from there on each item is read as an s-expression.
#![tactic(auto)]

mod entries;
mod error;
mod header;
mod laws;
mod line;
mod lists;
mod number;
mod part;
mod quick;

pub use entries::EntryReader;
pub use error::{CertReadError, CertificateRefusal};
pub use header::header_version;
pub use laws::{certificate_reads_back, examples_law, numeral_law, one_certificate, only_entries};
