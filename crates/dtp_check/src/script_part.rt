//! The script's part of a source.
ghost use Rattle.std.specs.Prelude.{◌≡◌, ◌<◌, ◌≤◌, length, List, IfOk, None};
ghost use Rattle.smt_sexpr.specs.Tree.{Sexpr};
ghost use Rattle.dtp_check.specs.Judged.{ScriptPart};
ghost use Rattle.dtp_check.specs.code.Parts.{IsNext, GoesOn, IsBefore};

use cert_read::header_version;
use cert_text::Version;
use script_walk::{Next as Read, read_next};
use smt_answer::Kind;
use smt_lex::Lexer;
use smt_script::is_exit;
use smt_sexpr::{SexprId, Sexprs};
use std::alloc::{AllocError, Global};

/// How the script's part of a source ends.
#[derive(Clone, Copy, Debug, PartialEq, Eq)]
pub enum PartEnd {
    /// With the command `(exit)`.
    Exit,
    /// With the header of a certificate of this version.
    Header(Version),
    /// With the source.
    End,
    /// At an s-expression that can't be read.
    Unread(Kind),
}

/// What stands next in the script's part.
#[derive(Clone, Copy)]
pub enum Next {
    Command(SexprId),
    Ended(PartEnd),
}

/// Reads what stands next in the script's part. The table is emptied before.
pub fn next_command(sexprs: &mut Sexprs, lexer: &mut Lexer) -> Result<Next, AllocError>
    requires fresh { lexer.old.failed ≡ None }
    requires same { lexer.old.bytes ≡ sexprs.old.bytes }
    ensures next { IfOk result (IsNext lexer.old.bytes lexer.old.place sexprs.new lexer.new.place) }
    ensures fresh { IfOk result (λ next. GoesOn next → lexer.new.failed ≡ None) }
    ensures forward { IfOk result (λ next. GoesOn next → lexer.old.place < lexer.new.place) }
    ensures within { IfOk result (λ next. GoesOn next → lexer.new.place ≤ length lexer.new.bytes) }
    ensures lexer_bytes { lexer.new.bytes ≡ lexer.old.bytes }
    ensures table_bytes { sexprs.new.bytes ≡ sexprs.old.bytes }
{
    match read_next(sexprs, lexer)? {
        Read::Command(id) => match header_version(sexprs, id) {
            Some(version) => Ok(Next::Ended(PartEnd::Header(version))),
            None => Ok(Next::Command(id)),
        },
        Read::End => Ok(Next::Ended(PartEnd::End)),
        Read::Unread(kind) => Ok(Next::Ended(PartEnd::Unread(kind))),
    }
}

/// The script's part of a source, read to its end.
#[derive(Clone, Copy, Debug, PartialEq, Eq)]
pub struct Part {
    /// How many commands it has.
    pub commands: u64,
    pub end: PartEnd,
}

/// Reads the script's part of the source, to what ends it.
pub fn read_part(alloc: Global, lexer: &mut Lexer) -> Result<Part, AllocError>
    requires fresh { lexer.old.failed ≡ None }
    requires start { lexer.old.place ≡ 0 }
    ensures part { IfOk result (λ part. (xs : List Sexpr)
        × ScriptPart lexer.old.bytes 0 xs part.end lexer.new.place × (length xs ≡ part.commands)) }
    ensures fresh { IfOk result (λ part. IsBefore part.end → lexer.new.failed ≡ None) }
    ensures few { IfOk result (λ part. part.commands ≤ length lexer.old.bytes) }
    ensures bytes { lexer.new.bytes ≡ lexer.old.bytes }
{
    let mut sexprs = Sexprs::new(alloc, lexer.bytes());
    let mut commands = 0u64;
    'script: loop {
        match next_command(&mut sexprs, lexer)? {
            Next::Command(id) => {
                commands += 1;
                if is_exit(&sexprs, id) {
                    return Ok(Part {
                        commands,
                        end: PartEnd::Exit,
                    });
                }
            }
            Next::Ended(end) => return Ok(Part { commands, end }),
        }
    }
}
