//! The shape of a `let`.
ghost use Rattle.std.specs.Prelude.{◌≡◌, ◌&&◌, [], if◌then◌else◌, IfOk, Option, Some, None, option_map};
ghost use Rattle.idl_term.specs.Lowered.{are_bindings, is_binding, variable_in, variables_in, are_different};
ghost use Rattle.idl_term.specs.code.Heads.{LetIs};
ghost use Rattle.idl_term.specs.code.Trees.{tree_of, trees_of, IsTree, AreTrees};

use crate::reserved::is_reserved;
use indexmap::IndexSet;
use smt_sexpr::{SexprId, Sexprs};
use std::alloc::{AllocError, Global};

/// The variable of a binding, or `None` for what is no binding.
fn variable_of<'a>(sexprs: &Sexprs<'a>, id: SexprId) -> Option<&'a [u8]>
    requires { IsTree sexprs.now id }
    ensures { option_map (λ name. name.now) result
        ≡ (if is_binding (tree_of sexprs.now id) then Some (variable_in (tree_of sexprs.now id)) else None) }
{
    let Some([variable, _term]) = sexprs.items(id) else {
        return None;
    };
    let name = sexprs.symbol(*variable)?;
    if is_reserved(name) { None } else { Some(name) }
}

/// Whether all are bindings, of different variables. The variables are kept in the set, which is empty before.
fn bind_apart<'a>(
    sexprs: &Sexprs<'a>,
    bindings: &[SexprId],
    variables: &mut IndexSet<&'a [u8]>,
) -> Result<bool, AllocError>
    requires trees { AreTrees sexprs.now bindings.now }
    requires empty { variables.old.keys ≡ [] }
    ensures { IfOk result (λ b. b ≡ (are_bindings (trees_of sexprs.now bindings.now) && are_different
        (variables_in (trees_of sexprs.now bindings.now)))) }
{
    for binding in bindings {
        let Some(name) = variable_of(sexprs, *binding) else {
            return Ok(false);
        };
        let (_place, added) = variables.insert_full(name)?;
        if !added {
            return Ok(false);
        }
    }
    Ok(true)
}

/// Whether all are bindings, of different variables.
fn are_bindings(alloc: Global, sexprs: &Sexprs, bindings: &[SexprId]) -> Result<bool, AllocError>
    requires { AreTrees sexprs.now bindings.now }
    ensures { IfOk result (λ b. b ≡ (are_bindings (trees_of sexprs.now bindings.now) && are_different
        (variables_in (trees_of sexprs.now bindings.now)))) }
{
    let mut variables = IndexSet::new(alloc);
    bind_apart(sexprs, bindings, &mut variables)
}

/// The parts of a `let`.
#[derive(Clone, Copy)]
pub(crate) struct LetParts<'s> {
    pub(crate) bindings: &'s [SexprId],
    pub(crate) body: SexprId,
}

/// One or more bindings of different variables, and a body: what these items, behind `let`, are. `None` where they have
/// another shape.
pub(crate) fn let_parts<'s>(
    alloc: Global,
    sexprs: &'s Sexprs,
    items: &[SexprId],
) -> Result<Option<LetParts<'s>>, AllocError>
    requires { AreTrees sexprs.now items.now }
    ensures { IfOk result (LetIs sexprs.now items.now) }
{
    if items.len() != 2 {
        return Ok(None);
    }
    let Some(bindings) = sexprs.items(items[0]) else {
        return Ok(None);
    };
    if bindings.is_empty() {
        return Ok(None);
    }
    if !are_bindings(alloc, sexprs, bindings)? {
        return Ok(None);
    }
    Ok(Some(LetParts {
        bindings,
        body: items[1],
    }))
}
