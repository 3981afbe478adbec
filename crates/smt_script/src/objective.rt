//! What is minimized.
ghost use Rattle.std.specs.Prelude.{◌≡◌, ◌≤◌, length};
ghost use Rattle.smt_sexpr.specs.Table.{Means, HasMeaning};
ghost use Rattle.smt_sexpr.specs.Tree.{Sexpr};
ghost use Rattle.idl_cases.specs.Guarded.{plain_linear};
ghost use Rattle.idl_term.specs.Limits.{names_limit};
ghost use Rattle.idl_term.specs.Lowered.{lowered};
ghost use Rattle.smt_script.specs.Objectives.{objective_of_linear, minimized_by};
ghost use Rattle.smt_script.specs.code.Shapes.{ObjectiveIs};

use crate::error::{LeftOutCommand, Refusal, ScriptError};
use idl_linear::{Linear, compare};
use idl_node::Nodes;
use idl_term::{Cases, Lowered, Scope, TermRefusal, lower};
use smt_sexpr::{SexprId, Sexprs};
use std::alloc::Global;

/// An Int term as the value of time point x, less that of time point y, and a number k within 2^60. Point 0 is the zero point.
#[derive(Clone, Copy, Debug, PartialEq, Eq)]
pub struct Objective {
    pub x: u32,
    pub y: u32,
    pub k: i64,
}

/// A term without conditions, which is compared with 0.
fn objective_of(alloc: Global, cases: &Cases) -> Result<Objective, ScriptError>
    ensures { ObjectiveIs (objective_of_linear (plain_linear cases.now)) result }
{
    match cases.plain_linear() {
        Some(linear) => {
            let difference = compare(linear, &Linear::number(alloc, 0))?;
            Ok(Objective {
                x: difference.x,
                y: difference.y,
                k: -difference.n,
            })
        }
        None => Err(ScriptError::Refused(Refusal::LeftOut(LeftOutCommand::Ite))),
    }
}

/// What is minimized where the term is. The table stays as it is.
pub fn objective_in<'a>(
    alloc: Global,
    sexprs: &Sexprs<'a>,
    id: SexprId,
    scope: &Scope<'a>,
    nodes: &mut Nodes,
) -> Result<Objective, ScriptError>
    requires meaning { HasMeaning sexprs.now id }
    requires few { length scope.now.declared ≤ names_limit }
    ensures is { (t : Sexpr) → Means sexprs.now id t
        → ObjectiveIs (minimized_by (lowered scope.now nodes.old t)) result }
    ensures same { nodes.new ≡ nodes.old }
{
    let before = nodes.len();
    let term = lower(alloc, sexprs, id, scope, nodes)?;
    nodes.cut(before);
    match term {
        Lowered::Number(cases) => objective_of(alloc, &cases),
        Lowered::Truth(_) => Err(ScriptError::Refused(Refusal::Term(TermRefusal::WrongSort))),
    }
}
