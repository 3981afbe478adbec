//! The numbers of the lemmas that are kept, among one another.
ghost use Rattle.std.specs.Prelude.{◌≡◌, ◌<◌, ◌+◌, ◌^◌, length, map, IfOk};
ghost use Rattle.refute_tree.specs.Moves.{NoneGrows};
ghost use Rattle.trim_lemmas.specs.code.Marks.{ArePlaces, number_by, step_by};

use refute_tree::Steps;
use std::alloc::{AllocError, Global};

/// For each lemma of a list its number when only the needed ones are kept.
pub struct Places {
    /// References below it are to lemmas before the list, and stay.
    pub seen: usize,
    pub numbers: Vec<usize>,
    /// The number behind the last needed one.
    pub end: usize,
}

impl Drop for Places {
    fn drop(self) {
        let Places {
            seen: _,
            numbers,
            end: _,
        } = self;
        drop(numbers);
    }
}

impl Places {
    pub fn new(alloc: Global, seen: usize, needed: &[bool]) -> Result<Places, AllocError>
        requires { seen + length needed.now < 2 ^ 64 }
        ensures { IfOk result (ArePlaces seen needed.now) }
    {
        let mut numbers = Vec::with_capacity(alloc, needed.len())?;
        let mut end = seen;
        for is_needed in needed {
            numbers.push(end)?;
            if *is_needed {
                end += 1;
            }
        }
        Ok(Places { seen, numbers, end })
    }

    /// Gives each reference to a lemma its place among the needed ones. It takes no memory.
    pub fn renumber(&self, steps: &mut Steps)
        requires { NoneGrows (number_by self.now) }
        ensures { steps.new ≡ map (step_by self.now) steps.old }
    {
        steps.renumber_lemmas(self.seen, self.numbers.as_slice(), self.end);
    }
}
