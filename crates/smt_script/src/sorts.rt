//! The sorts that commands name.
ghost use Rattle.std.specs.Prelude.{◌≡◌};
ghost use Rattle.smt_sexpr.specs.Tree.{Sexpr, Items};
ghost use Rattle.smt_sexpr.specs.Table.{Means, HasMeaning};
ghost use Rattle.smt_script.specs.States.{sort_of};
ghost use Rattle.smt_script.specs.code.Shapes.{IsSignature, HasSignature, signature_sort};

use crate::command::Signature;
use crate::error::{LeftOutCommand, Refusal};
use idl_node::Sort;
use smt_sexpr::{SexprId, Sexprs};

/// The sort that a symbol names.
fn sort_of(sexprs: &Sexprs, id: SexprId) -> Option<Sort>
    requires { HasMeaning sexprs.now id }
    ensures { (x : Sexpr) → Means sexprs.now id x → result ≡ sort_of x }
{
    let name = sexprs.symbol(id)?;
    if name == b"Int".as_slice() {
        Some(Sort::Int)
    } else if name == b"Bool".as_slice() {
        Some(Sort::Bool)
    } else {
        None
    }
}

/// The sort of a function without parameters.
pub fn signature_sort(sexprs: &Sexprs, signature: Signature) -> Result<Sort, Refusal>
    requires { HasSignature sexprs.now signature }
    ensures { (parameters : Items) (x : Sexpr) → IsSignature sexprs.now signature.entry parameters x
        → result ≡ signature_sort parameters (sort_of x) }
{
    if signature.has_parameters {
        return Err(Refusal::LeftOut(LeftOutCommand::Parameters));
    }
    match sort_of(sexprs, signature.sort) {
        Some(sort) => Ok(sort),
        None => Err(Refusal::LeftOut(LeftOutCommand::Sort)),
    }
}
