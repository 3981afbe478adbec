//! Names that can't be declared or defined again.
ghost use Rattle.std.specs.Prelude.{◌≡◌, ◌||◌, if◌then◌else◌};
ghost use Rattle.idl_apply.specs.Operators.{is_reserved};
ghost use Rattle.idl_term.specs.Scopes.{is_known};
ghost use Rattle.smt_script.specs.declared.error.Refusal.TheVariants.{AlreadyDeclared, TooManyNames};

use crate::error::Refusal;
use idl_term::{Scope, is_reserved};

/// Whether the name is reserved, declared or defined.
pub fn is_taken(scope: &Scope, name: &[u8]) -> bool
    ensures { result ≡ (is_reserved name.now || is_known scope.now name.now) }
{
    is_reserved(name) || scope.is_known(name)
}

/// Why no name can be declared where there is no place for one more: a name that is taken is told first.
pub fn refusal_when_full(scope: &Scope, name: &[u8]) -> Refusal
    ensures { result ≡ (if is_reserved name.now || is_known scope.now name.now then AlreadyDeclared
        else TooManyNames) }
{
    if is_taken(scope, name) {
        Refusal::AlreadyDeclared
    } else {
        Refusal::TooManyNames
    }
}
