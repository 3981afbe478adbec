ghost use Rattle.std.specs.Prelude.{◌<◌, ◌^◌, length};

use crate::task::Task;
use refute_tree::{Earlier, Lemma};
use stn_core::Literal;

/// The handed lemmas, and then the slice's own.
#[derive(Drop)]
pub struct Both<'a, E: Earlier> {
    pub task: &'a Task<'a, E>,
    pub own: &'a [Lemma],
    ghost few: { length own.now < 2 ^ 63 },
}

impl<'a, E: Earlier> Earlier for Both<'a, E> {
    ghost use Rattle.branch_search.specs.code.Search.{all_lemmas};

    ghost clauses = { λ b. all_lemmas b.task.now.handed b.own.now };

    fn count(&self) -> usize {
        self.task.count() + self.own.len()
    }

    fn clause(&self, j: usize) -> &[Literal] {
        let before = self.task.count();
        if j < before {
            self.task.clause(j)
        } else {
            self.own[j - before].clause.as_slice()
        }
    }
}
