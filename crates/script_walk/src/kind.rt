//! Why a command is refused.
ghost use Rattle.std.specs.Prelude.{◌≡◌};
ghost use Rattle.smt_answer.specs.Kinds.{kind_of};

use smt_answer::Kind;
use smt_script::Refusal;

/// The kind of a refusal of a command that was read.
pub fn kind_of(why: Refusal) -> Kind
    ensures { result ≡ kind_of why }
{
    Kind::Command(why)
}
