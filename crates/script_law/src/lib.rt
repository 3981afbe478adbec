//! What laws of scripts that a program makes share: commands that are told of, up to one question, behind which `(exit)`
//! stands.
//!
//! Who has shown that a script is such a one (`specs/Told.antt`, `AsksOnce`) knows that it is carried out without an error, that
//! the one entry of what is written of it decides its question, and that it is accepted with its certificate. Lemmas by which
//! that is shown stand under `proofs`: of names, of states and of terms.
#![tactic(auto)]

mod laws;

pub use laws::{certificate_is_accepted, one_question_is_decided};
