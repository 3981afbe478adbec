use idl_linear::DifferenceRefusal;
use idl_term::{TermError, TermRefusal};
use std::alloc::{AllocError, AllocFailed};

/// What is left out of commands, as an error's line names it.
#[derive(Clone, Copy, Debug, PartialEq, Eq)]
pub enum LeftOutCommand {
    /// A function with arguments.
    Parameters,
    /// A sort other than Int and Bool.
    Sort,
    /// A minimized term with more than one case.
    Ite,
    DefineFunRec,
    DefineFunsRec,
    DefineSort,
    DeclareSort,
    DeclareDatatype,
    DeclareDatatypes,
}

/// Why a command is refused.
#[derive(Clone, Copy, Debug, PartialEq, Eq)]
pub enum Refusal {
    UnknownCommand,
    IllFormedCommand,
    LogicNotSupported,
    /// The name is reserved, declared or defined.
    AlreadyDeclared,
    /// 65,536 names are declared.
    TooManyNames,
    /// More than 65,536 levels.
    TooManyLevels,
    PopBelowTheBottom,
    /// The last verdict isn't `sat`, or something was changed since.
    NoModel,
    /// The last verdict isn't `unsat`, or something was changed since.
    NoProof,
    /// As for a proof: there is no core to tell.
    NoCore,
    /// The last question isn't a check-sat-assuming, or isn't answered `unsat`, or something was changed since.
    NoAssumptions,
    /// What is asked to be least may have no best value within 2^60. No command of a state is refused for this: the question is,
    /// by whoever makes the problem of the assertions.
    ObjectiveTooLarge,
    LeftOut(LeftOutCommand),
    Term(TermRefusal),
}

/// Why a command isn't carried out.
#[derive(Clone, Copy, Debug, PartialEq, Eq)]
pub enum ScriptError {
    OutOfMemory,
    Refused(Refusal),
}

impl<T: Drop> From<AllocFailed<T>> for ScriptError {
    ghost use Rattle.std.specs.Prelude.{◌≡◌};
    ghost use Rattle.smt_script.specs.declared.error.ScriptError.TheVariants.{OutOfMemory};

    ghost from_gives = { λ _ e. e ≡ OutOfMemory };

    fn from(_failed: AllocFailed<T>) -> Self {
        ScriptError::OutOfMemory
    }
}

impl From<AllocError> for ScriptError {
    ghost use Rattle.std.specs.Prelude.{◌≡◌};
    ghost use Rattle.smt_script.specs.declared.error.ScriptError.TheVariants.{OutOfMemory};

    ghost from_gives = { λ _ e. e ≡ OutOfMemory };

    fn from(_error: AllocError) -> Self {
        ScriptError::OutOfMemory
    }
}

impl From<TermError> for ScriptError {
    ghost use Rattle.std.specs.Prelude.{◌≡◌};
    ghost use Rattle.smt_script.specs.code.Shapes.{error_of_term};

    ghost from_gives = { λ error e. e ≡ error_of_term error };

    fn from(error: TermError) -> Self {
        match error {
            TermError::OutOfMemory => ScriptError::OutOfMemory,
            TermError::Refused(why) => ScriptError::Refused(Refusal::Term(why)),
        }
    }
}

impl From<DifferenceRefusal> for ScriptError {
    ghost use Rattle.std.specs.Prelude.{◌≡◌};
    ghost use Rattle.idl_apply.specs.Comparing.{refusal_of};
    ghost use Rattle.smt_script.specs.declared.error.Refusal.TheVariants.{Term};
    ghost use Rattle.smt_script.specs.declared.error.ScriptError.TheVariants.{Refused};

    ghost from_gives = { λ why e. e ≡ Refused (Term (refusal_of why)) };

    fn from(why: DifferenceRefusal) -> Self {
        ScriptError::Refused(Refusal::Term(match why {
            DifferenceRefusal::NotADifference => TermRefusal::NotADifference,
            DifferenceRefusal::BoundTooLarge => TermRefusal::BoundTooLarge,
        }))
    }
}

impl From<Refusal> for ScriptError {
    ghost use Rattle.std.specs.Prelude.{◌≡◌};
    ghost use Rattle.smt_script.specs.declared.error.ScriptError.TheVariants.{Refused};

    ghost from_gives = { λ why e. e ≡ Refused why };

    fn from(why: Refusal) -> Self {
        ScriptError::Refused(why)
    }
}
