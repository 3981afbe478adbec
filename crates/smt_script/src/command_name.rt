//! The names of commands.
ghost use Rattle.std.specs.Prelude.{◌≡◌};
ghost use Rattle.smt_script.specs.Commands.{naming_command, changing_command, asking_command, command_name, is_unsupported, left_out_of};

use crate::error::LeftOutCommand;

/// The commands that there are, but for those that answer `unsupported`.
#[derive(Clone, Copy, Debug, PartialEq, Eq)]
pub enum CommandName {
    SetLogic,
    SetOption,
    SetInfo,
    DeclareConst,
    DeclareFun,
    DefineFun,
    Assert,
    Push,
    Pop,
    CheckSat,
    CheckSatAssuming,
    Minimize,
    GetModel,
    GetValue,
    GetProof,
    GetUnsatCore,
    GetUnsatAssumptions,
    GetInfo,
    Echo,
    ResetAssertions,
    Reset,
    Exit,
}

/// The commands that set and name.
#[tactic(auto, unfolding(crate::specs::Commands::naming_command))]
fn naming_command(name: &[u8]) -> Option<CommandName>
    ensures { result ≡ naming_command name.now }
{
    if name == b"set-logic".as_slice() {
        Some(CommandName::SetLogic)
    } else if name == b"set-option".as_slice() {
        Some(CommandName::SetOption)
    } else if name == b"set-info".as_slice() {
        Some(CommandName::SetInfo)
    } else if name == b"declare-const".as_slice() {
        Some(CommandName::DeclareConst)
    } else if name == b"declare-fun".as_slice() {
        Some(CommandName::DeclareFun)
    } else if name == b"define-fun".as_slice() {
        Some(CommandName::DefineFun)
    } else {
        None
    }
}

/// The commands that change what is active, and `exit`.
#[tactic(auto, unfolding(crate::specs::Commands::changing_command))]
fn changing_command(name: &[u8]) -> Option<CommandName>
    ensures { result ≡ changing_command name.now }
{
    if name == b"assert".as_slice() {
        Some(CommandName::Assert)
    } else if name == b"push".as_slice() {
        Some(CommandName::Push)
    } else if name == b"pop".as_slice() {
        Some(CommandName::Pop)
    } else if name == b"reset-assertions".as_slice() {
        Some(CommandName::ResetAssertions)
    } else if name == b"reset".as_slice() {
        Some(CommandName::Reset)
    } else if name == b"exit".as_slice() {
        Some(CommandName::Exit)
    } else {
        None
    }
}

/// The commands that ask.
#[tactic(auto, unfolding(crate::specs::Commands::asking_command))]
fn asking_command(name: &[u8]) -> Option<CommandName>
    ensures { result ≡ asking_command name.now }
{
    if name == b"check-sat".as_slice() {
        Some(CommandName::CheckSat)
    } else if name == b"check-sat-assuming".as_slice() {
        Some(CommandName::CheckSatAssuming)
    } else if name == b"minimize".as_slice() {
        Some(CommandName::Minimize)
    } else if name == b"get-model".as_slice() {
        Some(CommandName::GetModel)
    } else if name == b"get-value".as_slice() {
        Some(CommandName::GetValue)
    } else if name == b"get-proof".as_slice() {
        Some(CommandName::GetProof)
    } else if name == b"get-unsat-core".as_slice() {
        Some(CommandName::GetUnsatCore)
    } else if name == b"get-unsat-assumptions".as_slice() {
        Some(CommandName::GetUnsatAssumptions)
    } else if name == b"get-info".as_slice() {
        Some(CommandName::GetInfo)
    } else if name == b"echo".as_slice() {
        Some(CommandName::Echo)
    } else {
        None
    }
}

/// The command that the symbol names.
pub fn command_name(name: &[u8]) -> Option<CommandName>
    ensures { result ≡ command_name name.now }
{
    match naming_command(name) {
        Some(command) => Some(command),
        None => match changing_command(name) {
            Some(command) => Some(command),
            None => asking_command(name),
        },
    }
}

/// Whether the symbol names a command that answers `unsupported`.
#[tactic(auto, unfolding(crate::specs::Commands::is_unsupported))]
pub fn is_unsupported(name: &[u8]) -> bool
    ensures { result ≡ is_unsupported name.now }
{
    name == b"get-assertions".as_slice()
        || name == b"get-assignment".as_slice()
        || name == b"get-option".as_slice()
}

/// The command that is left out, where the symbol names one.
#[tactic(auto, unfolding(crate::specs::Commands::left_out_of))]
pub fn left_out_of(name: &[u8]) -> Option<LeftOutCommand>
    ensures { result ≡ left_out_of name.now }
{
    if name == b"define-fun-rec".as_slice() {
        Some(LeftOutCommand::DefineFunRec)
    } else if name == b"define-funs-rec".as_slice() {
        Some(LeftOutCommand::DefineFunsRec)
    } else if name == b"define-sort".as_slice() {
        Some(LeftOutCommand::DefineSort)
    } else if name == b"declare-sort".as_slice() {
        Some(LeftOutCommand::DeclareSort)
    } else if name == b"declare-datatype".as_slice() {
        Some(LeftOutCommand::DeclareDatatype)
    } else if name == b"declare-datatypes".as_slice() {
        Some(LeftOutCommand::DeclareDatatypes)
    } else {
        None
    }
}
