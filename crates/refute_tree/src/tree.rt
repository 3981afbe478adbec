ghost use Rattle.std.specs.Prelude.{◌≡◌, [], ◌∷◌, IfOk};
ghost use Rattle.refute_tree.specs.declared.step.Step.TheVariants.{Cycle, Clash};
ghost use Rattle.refute_tree.specs.Trees.{IsLeaf, IsClash, IsCaseTree, joined};
ghost use Rattle.refute_tree.specs.code.Views.{step_seen};

use crate::reader::StepView;
use crate::store::Steps;
use std::alloc::{AllocError, Global};
use stn_core::Literal;

/// The tree that is a leaf: one step, with this cycle.
pub fn leaf(alloc: Global, cycle: &[Literal]) -> Result<Steps, AllocError>
    ensures steps { IfOk result (λ steps. steps ≡ Cycle cycle.now ∷ []) }
    ensures tree { IfOk result (IsLeaf cycle.now) }
{
    let mut steps = Steps::new(alloc);
    steps.push_cycle(cycle)?;
    Ok(steps)
}

/// The tree that is a clash: one step, with the clause's number.
pub fn clash(alloc: Global, i: usize) -> Result<Steps, AllocError>
    ensures steps { IfOk result (λ steps. steps ≡ Clash i ∷ []) }
    ensures tree { IfOk result (IsClash i) }
{
    let mut steps = Steps::new(alloc);
    steps.push_clash(i)?;
    Ok(steps)
}

/// The tree of a case step: the step, then the steps of its children, one child for each literal of the step's
/// clause in the order of the clause. It takes time in the sum of their lengths; to wrap one tree many times over
/// costs the square of its length.
pub fn cases(alloc: Global, step: StepView<'_>, children: &[Steps]) -> Result<Steps, AllocError>
    ensures steps { IfOk result (λ steps. steps ≡ step_seen step.entry ∷ joined children.now) }
    ensures tree { IfOk result (IsCaseTree (step_seen step.entry) children.now) }
{
    let mut steps = Steps::new(alloc);
    steps.push(step)?;
    for child in children {
        steps.append(child)?;
    }
    Ok(steps)
}
