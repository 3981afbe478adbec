//! The nodes of a pair of Int terms that is compared, case by case. After an error the table may be longer than before it:
//! the caller cuts it.
ghost use Rattle.std.specs.Prelude.{◌≡◌, ◌++◌, ◌<◌, ◌^◌, ℕ, List, [], length, take};
ghost use Rattle.idl_linear.specs.Differences.{difference_in};
ghost use Rattle.idl_linear.specs.Linear.{LinearValue};
ghost use Rattle.idl_cases.specs.code.CaseSums.{summed_cases};
ghost use Rattle.idl_apply.specs.Comparing.{cases_compared, related_by};
ghost use Rattle.idl_apply.specs.code.Shapes.{GoesOn, Places};
ghost use Rattle.idl_apply.specs.code.Pairing.{case_related, each_related};
ghost use Rattle.idl_apply.specs.declared.comparing.Relation.{Relation as Relations};

use crate::comparing::{Relation, compare_two, conjoin, disjoin, relate};
use crate::error::{TermError, TermRefusal};
use idl_cases::{CASES_LIMIT, CaseParts, Cases, Summing};
use idl_node::Nodes;
use std::alloc::Global;

/// The denials of the guards, behind the members.
fn deny_all(nodes: &mut Nodes, guards: &[u32], members: &mut Vec<u32>) -> Result<(), TermError>
    ensures goes { (relation : Relations) (rest : List ℕ) (l : LinearValue)
        → GoesOn (case_related relation nodes.old members.old.items (guards.now ++ rest) l)
        (case_related relation nodes.new members.new.items rest l) result }
    ensures front { take (length nodes.old) nodes.new ≡ nodes.old }
{
    for guard in guards {
        members.push(nodes.negate(*guard)?)?;
    }
    Ok(())
}

/// The difference of the pair in one case.
fn compare_difference(
    alloc: Global,
    nodes: &mut Nodes,
    relation: Relation,
    case: &CaseParts,
) -> Result<u32, TermError>
    ensures makes { Places nodes.new (related_by relation nodes.old (difference_in case.now.linear)) result }
    ensures front { take (length nodes.old) nodes.new ≡ nodes.old }
{
    let made = case.difference(alloc)?;
    let difference = made?;
    let number = relate(alloc, nodes, relation, difference)?;
    Ok(number)
}

/// The pair in one case.
fn compare_case(
    alloc: Global,
    nodes: &mut Nodes,
    relation: Relation,
    case: &CaseParts,
) -> Result<u32, TermError>
    ensures makes { Places nodes.new (case_related relation nodes.old [] case.now.guards case.now.linear) result }
    ensures front { take (length nodes.old) nodes.new ≡ nodes.old }
{
    let guards = case.guards();
    let mut members = Vec::with_capacity(alloc, guards.len().saturating_add(1))?;
    deny_all(nodes, guards, &mut members)?;
    members.push(compare_difference(alloc, nodes, relation, case)?)?;
    disjoin(nodes, members)
}

/// The pair in each case, by the difference of its terms.
fn compare_each(
    alloc: Global,
    nodes: &mut Nodes,
    relation: Relation,
    difference: &Summing,
) -> Result<u32, TermError>
    requires { length (summed_cases difference.now) < 2 ^ 32 }
    ensures makes { Places nodes.new (each_related relation nodes.old [] (summed_cases difference.now)) result }
    ensures front { take (length nodes.old) nodes.new ≡ nodes.old }
{
    let by = difference.plain(alloc)?;
    let mut case = CaseParts::new(alloc);
    let mut parts = Vec::new(alloc);
    for place in 0..difference.len() {
        difference.case_at(by.as_ref(), place, &mut case)?;
        parts.push(compare_case(alloc, nodes, relation, &case)?)?;
    }
    conjoin(nodes, parts)
}

/// Two terms in the relation. Terms without conditions take no memory beside their nodes.
pub(crate) fn compare_cases(
    alloc: Global,
    nodes: &mut Nodes,
    relation: Relation,
    a: &Cases,
    b: &Cases,
) -> Result<u32, TermError>
    ensures makes { Places nodes.new (cases_compared relation nodes.old a.now b.now) result }
    ensures front { take (length nodes.old) nodes.new ≡ nodes.old }
{
    if let (Some(first), Some(second)) = (a.plain_linear(), b.plain_linear()) {
        return compare_two(alloc, nodes, relation, first, second);
    }
    if a.len().saturating_mul(b.len()) > CASES_LIMIT {
        return Err(TermError::Refused(TermRefusal::TooManyCases));
    }
    let mut difference = Summing::new(alloc);
    difference.add(a, false)?;
    difference.add(b, true)?;
    compare_each(alloc, nodes, relation, &difference)
}
