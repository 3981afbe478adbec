//! What stands next in a text of commands.
ghost use Rattle.std.specs.Prelude.{◌≡◌, ◌<◌, ◌≤◌, length, IfOk, None};
ghost use Rattle.script_walk.specs.code.Events.{IsNext, IsMore};

use smt_answer::{Kind, kind_of_unreadable};
use smt_lex::Lexer;
use smt_sexpr::{SexprError, SexprId, Sexprs};
use std::alloc::AllocError;

/// What stands next in a text of commands.
#[derive(Clone, Copy, Debug, PartialEq, Eq)]
pub enum Next {
    /// A command, by its id in the table.
    Command(SexprId),
    /// Nothing but white space and comments.
    End,
    /// What can't be read.
    Unread(Kind),
}

/// Reads what stands next. The table is emptied before.
pub fn read_next(sexprs: &mut Sexprs, lexer: &mut Lexer) -> Result<Next, AllocError>
    requires fresh { lexer.old.failed ≡ None }
    requires same { sexprs.old.bytes ≡ lexer.old.bytes }
    ensures next { IfOk result (IsNext lexer.old.bytes lexer.old.place sexprs.new lexer.new.place) }
    ensures fresh { IfOk result (λ next. IsMore next → lexer.new.failed ≡ None) }
    ensures forward { IfOk result (λ next. IsMore next → lexer.old.place < lexer.new.place) }
    ensures within { lexer.new.place ≤ length lexer.new.bytes }
    ensures lexer_bytes { lexer.new.bytes ≡ lexer.old.bytes }
    ensures table_bytes { sexprs.new.bytes ≡ sexprs.old.bytes }
{
    sexprs.clear();
    match sexprs.read_one(lexer) {
        Ok(Some(id)) => Ok(Next::Command(id)),
        Ok(None) => Ok(Next::End),
        Err(SexprError::Refused(why)) => Ok(Next::Unread(kind_of_unreadable(why))),
        Err(SexprError::OutOfMemory) => Err(AllocError),
    }
}
