//! The command that ends a script.
ghost use Rattle.std.specs.Prelude.{◌≡◌};
ghost use Rattle.smt_sexpr.specs.Tree.{Sexpr};
ghost use Rattle.smt_sexpr.specs.Table.{Means, HasMeaning};
ghost use Rattle.smt_script.specs.Commands.{is_exit};
ghost use Rattle.smt_script.specs.code.Shapes.{asks_exit};

use crate::command::{Request, request_of};
use crate::error::Refusal;
use smt_sexpr::{SexprId, Sexprs};

fn asks_exit(request: Result<Request, Refusal>) -> bool
    ensures { result ≡ asks_exit request.entry }
{
    match request {
        Ok(Request::Exit) => true,
        _ => false,
    }
}

/// Whether the command is `(exit)`.
pub fn is_exit(sexprs: &Sexprs, id: SexprId) -> bool
    requires { HasMeaning sexprs.now id }
    ensures { (x : Sexpr) → Means sexprs.now id x → result ≡ is_exit x }
{
    asks_exit(request_of(sexprs, id))
}
