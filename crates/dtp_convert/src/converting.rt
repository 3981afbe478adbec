//! The conversion: what is done with each entry that the check finds right.
ghost use Rattle.std.specs.Prelude.{◌≡◌, [], true, List};

use crate::entry::shown_entry;
use cert_text::{Entry, FileEntry};
use dtp_check::{Earlier, EntryFlaw, Keeps};
use smt_script::{Question, State};
use std::alloc::{AllocError, Global};
use stn_core::Problem;

/// The entries so far, as the first version shows them.
#[derive(Drop)]
pub struct Converting {
    pub entries: Vec<Entry>,
}

impl Converting {
    /// Before the first entry.
    pub fn new(alloc: Global) -> Self
        ensures { result.entries.items ≡ [] }
    {
        Converting {
            entries: Vec::new(alloc),
        }
    }
}

impl Keeps for Converting {
    ghost use Rattle.dtp_convert.specs.code.Shown.{IsAdded};

    ghost leads = { λ first now before question x c entry. IsAdded first.entries.items now.entries.items before question x c entry };

    ghost trees = { true };

    fn wants_trees(&self) -> bool {
        true
    }

    fn keep(
        &mut self,
        alloc: Global,
        state: &State,
        question: Question,
        made: &mut Option<Problem>,
        earlier: &mut Earlier,
        entry: &FileEntry,
    ) -> Result<Option<EntryFlaw>, AllocError> {
        match shown_entry(alloc, state, question, made, earlier, entry)? {
            Ok(shown) => {
                self.entries.push(shown)?;
                Ok(None)
            }
            Err(flaw) => Ok(Some(flaw)),
        }
    }
}
