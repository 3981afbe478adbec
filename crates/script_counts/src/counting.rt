//! Counts a script's names and clauses. No question is answered for it.
ghost use Rattle.std.specs.Prelude.{IfOk};
ghost use Rattle.script_counts.specs.Counting.{AreCounts};

use dtp_entry::problem;
use script_walk::{Event, Visitor, Walk, go_through};
use smt_answer::Kind;
use smt_script::{Notice, Question};
use smt_sexpr::SexprId;
use std::alloc::{AllocError, Global};

/// How much there is before the first verdict is asked for.
#[derive(Clone, Copy, Debug, PartialEq, Eq)]
pub struct ScriptCounts {
    /// How many declared names are active.
    pub names: u64,
    /// How many clauses the problem of the assertions has.
    pub clauses: u64,
}

/// Goes up to the first question, or to where the script ends before it.
#[derive(Drop)]
struct Counting<'a> {
    walk: Walk<'a>,
}

impl<'a> Visitor<()> for Counting<'a> {
    ghost use Rattle.std.specs.Prelude.{◌-◌, length};
    ghost use Rattle.script_walk.specs.code.Events.{IsStart, IsNextEvent};
    ghost use Rattle.script_counts.specs.code.Walking.{IsBetween, Leads};

    type End = ();

    type Fault = AllocError;

    ghost starts = { λ c _. IsStart c.walk };

    ghost so_far = { λ first _ now _. IsBetween first.walk now.walk };

    ghost comes = { λ before now event. IsNextEvent before.walk now.walk event };

    ghost ends = { λ first _ now _ _. Leads first.walk.lexer.bytes now.walk };

    ghost breaks = { λ _ _ _ _ _. Unit {0} };

    ghost left = { λ c. length c.walk.lexer.bytes - c.walk.lexer.place };

    fn begin(&mut self, _lent: &mut ()) -> Result<(), AllocError> {
        Ok(())
    }

    fn next(&mut self) -> Result<Event, AllocError> {
        self.walk.next()
    }

    fn told(&mut self, _lent: &mut (), _id: SexprId, _notice: Notice) -> Result<(), AllocError> {
        Ok(())
    }

    fn asked(
        &mut self,
        _lent: &mut (),
        _id: SexprId,
        _question: Question,
    ) -> Result<Option<()>, AllocError> {
        Ok(Some(()))
    }

    fn ended(&mut self, _lent: &mut ()) -> Result<(), AllocError> {
        Ok(())
    }

    fn failed(&mut self, _lent: &mut (), _kind: Kind) -> Result<(), AllocError> {
        Ok(())
    }
}

/// How much the script declares and asserts up to its first question, its first refused command, its `(exit)` or its end,
/// whichever comes first. What can't be read ends it too.
///
/// It takes the time and the memory of reading so far and of the clauses.
pub fn counts(alloc: Global, script: &[u8]) -> Result<ScriptCounts, AllocError>
    ensures { IfOk result (AreCounts script.now) }
{
    let mut counting = Counting {
        walk: Walk::new(alloc, script),
    };
    go_through(&mut counting, &mut ())?;
    let problem = problem(alloc, &counting.walk.state)?;
    Ok(ScriptCounts {
        names: counting.walk.state.names().len() as u64,
        clauses: problem.clauses.as_slice().len() as u64,
    })
}
