//! The refutation of a whole cover whose leaves are all shut.
ghost use Rattle.std.specs.Prelude.{◌≡◌, ◌<◌, ◌++◌, length, IfOk, OnOk, All};
ghost use Rattle.refute_tree.specs.Batches.{NamesOver};
ghost use Rattle.cover_tree.specs.Covers.{IsCover, NoneFree, NoneHeld};
ghost use Rattle.book_core.specs.Facts.{AreShut};
ghost use Rattle.book_core.specs.code.Closing.{AreOver, AreClosing, leaf_steps, Written, writing};
ghost use Rattle.book_core.specs.Shared.{clauses_of};

use cover_tree::{Cover, Node};
use refute_tree::{Earlier, Lemma, Steps};
use std::alloc::{AllocError, Global};
use std::sync::Arc;
use stn_core::Literal;

/// A tree of the cover's form: at each inner node its literal's two cases, at each leaf the cases of its
/// lemma, which the cube denies.
pub(crate) fn closing_steps(
    alloc: Global,
    points: u32,
    cover: &Cover,
    lemmas: &[Arc<Lemma>],
) -> Result<Steps, AllocError>
    requires cover { IsCover cover.now }
    requires free { NoneFree cover.now }
    requires held { NoneHeld cover.now }
    requires shut { AreShut cover.now (clauses_of lemmas.now) }
    requires over { AreOver points cover.now }
    ensures tree { IfOk result (AreClosing (clauses_of lemmas.now)) }
    ensures over { IfOk result (λ steps. All (NamesOver points) steps) }
{
    let mut steps = Steps::new(alloc);
    let mut waiting = vec![in alloc; 0usize]?;
    while let Some(k) = waiting.pop() {
        write_node(cover, lemmas, k, &mut steps, &mut waiting)?;
    }
    Ok(steps)
}

fn write_node(
    cover: &Cover,
    lemmas: &[Arc<Lemma>],
    k: usize,
    steps: &mut Steps,
    waiting: &mut Vec<usize>,
) -> Result<(), AllocError>
    requires k { k < length cover.now.nodes }
    requires cover { IsCover cover.now }
    requires free { NoneFree cover.now }
    requires held { NoneHeld cover.now }
    requires shut { AreShut cover.now (clauses_of lemmas.now) }
    ensures { OnOk result (Written cover.now (clauses_of lemmas.now) k
        (writing steps.old waiting.old.items) (writing steps.new waiting.new.items)) }
{
    match cover.node(k) {
        Node::Split(literal, first) => {
            steps.push_either(literal)?;
            waiting.push(first + 1)?;
            waiting.push(first)?;
            Ok(())
        }
        Node::Shut(j) => {
            write_leaf(steps, j, lemmas.clause(j))?;
            Ok(())
        }
        _ => unreachable!(),
    }
}

fn write_leaf(steps: &mut Steps, j: usize, clause: &[Literal]) -> Result<(), AllocError>
    ensures { OnOk result (steps.new ≡ steps.old ++ leaf_steps j clause.now) }
{
    steps.push_lemma(j)?;
    for literal in clause {
        steps.push_pair(*literal)?;
    }
    Ok(())
}
