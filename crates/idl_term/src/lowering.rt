//! What a term is made into.
ghost use Rattle.std.specs.Prelude.{◌≡◌, ◌≤◌, length, take, OnErr};
ghost use Rattle.smt_sexpr.specs.Table.{Means, HasMeaning};
ghost use Rattle.smt_sexpr.specs.Tree.{Sexpr};
ghost use Rattle.idl_scope.specs.Limits.{names_limit};
ghost use Rattle.idl_term.specs.Lowered.{lowered};
ghost use Rattle.idl_apply.specs.code.Shapes.{Lowers};
ghost use Rattle.idl_term.specs.code.Trees.{tree_of, IsTree};

use crate::flat::lower_flat;
use crate::machine::Machine;
use idl_apply::TermError;
use idl_node::Nodes;
use idl_scope::{Locals, Lowered, Scope};
use smt_sexpr::{SexprId, Sexprs};
use std::alloc::Global;

/// A term, by the machine where it has many parts. After an error the table may be longer.
fn lower_term<'a>(
    alloc: Global,
    sexprs: &Sexprs<'a>,
    id: SexprId,
    scope: &Scope<'a>,
    nodes: &mut Nodes,
) -> Result<Lowered, TermError>
    requires tree { IsTree sexprs.now id }
    requires few { length scope.now.declared ≤ names_limit }
    ensures makes { Lowers nodes.new (lowered scope.now nodes.old (tree_of sexprs.now id)) result }
    ensures front { take (length nodes.old) nodes.new ≡ nodes.old }
{
    let locals = Locals::new(alloc, scope);
    if let Some(made) = lower_flat(alloc, sexprs, id, &locals, nodes)? {
        return Ok(made);
    }
    let mut machine = Machine::new(alloc, sexprs, scope);
    machine.run(id, nodes)
}

/// What a term is made into in a scope; its nodes go into the table.
///
/// It takes time of the order of the term, of its names' lengths, and of what it makes: nodes (one for each pair of a `distinct`), the cases of its
/// Int terms where they are compared, and the summands of its sums, which are sorted; and memory by its depth and by what it makes.
pub fn lower<'a>(
    alloc: Global,
    sexprs: &Sexprs<'a>,
    id: SexprId,
    scope: &Scope<'a>,
    nodes: &mut Nodes,
) -> Result<Lowered, TermError>
    requires meaning { HasMeaning sexprs.now id }
    requires few { length scope.now.declared ≤ names_limit }
    ensures lowers { (t : Sexpr) → Means sexprs.now id t
        → Lowers nodes.new (lowered scope.now nodes.old t) result }
    ensures front { take (length nodes.old) nodes.new ≡ nodes.old }
    ensures err { OnErr result (nodes.new ≡ nodes.old) }
{
    let before = nodes.len();
    match lower_term(alloc, sexprs, id, scope, nodes) {
        Ok(lowered) => Ok(lowered),
        Err(error) => {
            nodes.cut(before);
            Err(error)
        }
    }
}
