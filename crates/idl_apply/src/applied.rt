//! What an operator makes of its arguments. After an error the table may be longer than before it: the caller cuts it.
ghost use Rattle.std.specs.Prelude.{◌≡◌, List, Option, length, map, option_map, take, IfOk};
ghost use Rattle.idl_node.specs.code.Made.{Makes};
ghost use Rattle.idl_node.specs.Nodes.{NodeValue, Placed};
ghost use Rattle.idl_scope.specs.Scopes.{shown_terms};
ghost use Rattle.idl_apply.specs.Applied.{applied, as_formula, formulas_in, numbers_in, connected, equal_formulas, summed, related_numbers, relation_of_order, relation_of_equality, of_sort, of_first_sort, of_branches, branches_made};
ghost use Rattle.idl_apply.specs.code.Shapes.{Lowers};

use crate::choices::sum_terms;
use crate::comparing::{Relation, compare_all};
use crate::error::{TermError, TermRefusal};
use crate::few_terms::{relate_two, sum_one, sum_two};
use crate::operator::{Connective, Equality, Operator, Order, Sign};
use idl_cases::{CASES_LIMIT, Cases};
use idl_node::{NodeError, Nodes};
use idl_scope::Lowered;
use std::alloc::{AllocFailed, Global};

/// The nodes of terms that are all Bool.
fn formulas(alloc: Global, terms: &[Lowered]) -> Result<Option<Vec<u32>>, AllocFailed<u32>>
    ensures { IfOk result (λ found. formulas_in (shown_terms terms.now) ≡ option_map (λ v. v.items) found) }
{
    let mut members = Vec::new(alloc);
    for term in terms {
        match term {
            Lowered::Truth(number) => members.push(*number)?,
            Lowered::Number(_) => return Ok(None),
        }
    }
    Ok(Some(members))
}

/// The cases of terms that are all Int.
fn numbers<'t>(
    alloc: Global,
    terms: &'t [Lowered],
) -> Result<Option<Vec<&'t Cases>>, AllocFailed<&'t Cases>>
    ensures { IfOk result (λ found.
        numbers_in (shown_terms terms.now) ≡ option_map (λ v. map (λ t. t.now) v.items) found) }
{
    let mut members = Vec::new(alloc);
    for term in terms {
        match term {
            Lowered::Number(cases) => members.push(cases)?,
            Lowered::Truth(_) => return Ok(None),
        }
    }
    Ok(Some(members))
}

/// A node that was made, as a term.
pub fn as_formula(made: Result<u32, NodeError>) -> Result<Lowered, TermError>
    ensures { (nodes : List NodeValue) (place : Option Placed)
        → Makes nodes place made → Lowers nodes (as_formula place) result }
{
    let number = made?;
    Ok(Lowered::Truth(number))
}

/// A connective on formulas.
fn connect(
    alloc: Global,
    connective: Connective,
    nodes: &mut Nodes,
    members: Vec<u32>,
) -> Result<Lowered, TermError>
    ensures makes { Lowers nodes.new (connected connective nodes.old members.items) result }
    ensures front { take (length nodes.old) nodes.new ≡ nodes.old }
{
    let number = match connective {
        Connective::Not => match members.as_slice() {
            [member] => nodes.negate(*member)?,
            _ => return Err(TermError::Refused(TermRefusal::WrongCount)),
        },
        Connective::Implies => nodes.imply(alloc, &members)?,
        Connective::And => nodes.conjoin(members)?,
        Connective::Or => nodes.disjoin(members)?,
        Connective::Xor => match members.split_first() {
            Some((first, others)) => nodes.exclude(alloc, *first, others)?,
            None => return Err(TermError::Refused(TermRefusal::WrongCount)),
        },
    };
    Ok(Lowered::Truth(number))
}

/// A connective on terms that must all be Bool.
fn apply_connective(
    alloc: Global,
    connective: Connective,
    nodes: &mut Nodes,
    arguments: &[Lowered],
) -> Result<Lowered, TermError>
    ensures makes { Lowers nodes.new
        (of_sort (connected connective nodes.old) (formulas_in (shown_terms arguments.now))) result }
    ensures front { take (length nodes.old) nodes.new ≡ nodes.old }
{
    let Some(members) = formulas(alloc, arguments)? else {
        return Err(TermError::Refused(TermRefusal::WrongSort));
    };
    connect(alloc, connective, nodes, members)
}

/// `=` and `distinct` of formulas.
fn equate(
    alloc: Global,
    equality: Equality,
    nodes: &mut Nodes,
    members: &[u32],
) -> Result<Lowered, TermError>
    ensures makes { Lowers nodes.new (equal_formulas equality nodes.old members.now) result }
    ensures front { take (length nodes.old) nodes.new ≡ nodes.old }
{
    match equality {
        Equality::Equal => {
            let number = nodes.equate(alloc, members)?;
            Ok(Lowered::Truth(number))
        }
        Equality::Distinct => {
            let number = nodes.tell_apart(alloc, members)?;
            Ok(Lowered::Truth(number))
        }
    }
}

/// `=` and `distinct` of terms that must all be Bool.
fn equate_formulas(
    alloc: Global,
    equality: Equality,
    nodes: &mut Nodes,
    arguments: &[Lowered],
) -> Result<Lowered, TermError>
    ensures makes { Lowers nodes.new
        (of_sort (equal_formulas equality nodes.old) (formulas_in (shown_terms arguments.now))) result }
    ensures front { take (length nodes.old) nodes.new ≡ nodes.old }
{
    let Some(members) = formulas(alloc, arguments)? else {
        return Err(TermError::Refused(TermRefusal::WrongSort));
    };
    equate(alloc, equality, nodes, &members)
}

/// A sum of any number of terms that must all be Int.
fn sum_many(
    alloc: Global,
    sign: Sign,
    nodes: &Nodes,
    arguments: &[Lowered],
) -> Result<Lowered, TermError>
    ensures { Lowers nodes.now
        (of_sort (summed sign nodes.now) (numbers_in (shown_terms arguments.now))) result }
{
    let Some(terms) = numbers(alloc, arguments)? else {
        return Err(TermError::Refused(TermRefusal::WrongSort));
    };
    let sum = sum_terms(alloc, sign, &terms)?;
    Ok(Lowered::Number(sum))
}

/// A sum of terms that must all be Int.
fn apply_sum(
    alloc: Global,
    sign: Sign,
    nodes: &Nodes,
    arguments: &[Lowered],
) -> Result<Lowered, TermError>
    ensures { Lowers nodes.now
        (of_sort (summed sign nodes.now) (numbers_in (shown_terms arguments.now))) result }
{
    match arguments {
        [Lowered::Number(term)] => {
            let sum = sum_one(alloc, sign, term)?;
            Ok(Lowered::Number(sum))
        }
        [Lowered::Number(first), Lowered::Number(second)] => {
            let sum = sum_two(alloc, sign, first, second)?;
            Ok(Lowered::Number(sum))
        }
        _ => sum_many(alloc, sign, nodes, arguments),
    }
}

/// A relation between terms that must all be Int.
fn relate_numbers(
    alloc: Global,
    relation: Relation,
    nodes: &mut Nodes,
    arguments: &[Lowered],
) -> Result<Lowered, TermError>
    ensures makes { Lowers nodes.new
        (of_sort (related_numbers relation nodes.old) (numbers_in (shown_terms arguments.now))) result }
    ensures front { take (length nodes.old) nodes.new ≡ nodes.old }
{
    if let [Lowered::Number(first), Lowered::Number(second)] = arguments {
        return relate_two(alloc, relation, nodes, first, second);
    }
    let Some(terms) = numbers(alloc, arguments)? else {
        return Err(TermError::Refused(TermRefusal::WrongSort));
    };
    let number = compare_all(alloc, nodes, relation, &terms)?;
    Ok(Lowered::Truth(number))
}

fn relation_of_order(order: Order) -> Relation
    ensures { result ≡ relation_of_order order }
{
    match order {
        Order::AtMost => Relation::AtMost,
        Order::Less => Relation::Less,
        Order::AtLeast => Relation::AtLeast,
        Order::Greater => Relation::Greater,
    }
}

fn relation_of_equality(equality: Equality) -> Relation
    ensures { result ≡ relation_of_equality equality }
{
    match equality {
        Equality::Equal => Relation::Equal,
        Equality::Distinct => Relation::Distinct,
    }
}

/// `=` and `distinct`: all terms have the first one's sort.
fn apply_equality(
    alloc: Global,
    equality: Equality,
    nodes: &mut Nodes,
    arguments: &[Lowered],
) -> Result<Lowered, TermError>
    ensures makes { Lowers nodes.new (of_first_sort equality nodes.old (shown_terms arguments.now)) result }
    ensures front { take (length nodes.old) nodes.new ≡ nodes.old }
{
    match arguments.first() {
        Some(Lowered::Truth(_)) => equate_formulas(alloc, equality, nodes, arguments),
        Some(Lowered::Number(_)) => {
            relate_numbers(alloc, relation_of_equality(equality), nodes, arguments)
        }
        None => Err(TermError::Refused(TermRefusal::WrongSort)),
    }
}

/// `ite` of Int terms, where the node is the condition's.
fn choose_number(
    alloc: Global,
    nodes: &mut Nodes,
    condition: u32,
    yes: &Cases,
    no: &Cases,
) -> Result<Lowered, TermError>
    ensures makes { Lowers nodes.new (branches_made nodes.old condition yes.now no.now) result }
    ensures front { take (length nodes.old) nodes.new ≡ nodes.old }
{
    if yes.len().saturating_add(no.len()) > CASES_LIMIT {
        return Err(TermError::Refused(TermRefusal::TooManyCases));
    }
    let denial = nodes.negate(condition)?;
    let cases = Cases::branched(alloc, condition, denial, yes.copy()?, no.copy()?)?;
    Ok(Lowered::Number(cases))
}

/// `ite`.
fn choose(alloc: Global, nodes: &mut Nodes, arguments: &[Lowered]) -> Result<Lowered, TermError>
    ensures makes { Lowers nodes.new (of_branches nodes.old (shown_terms arguments.now)) result }
    ensures front { take (length nodes.old) nodes.new ≡ nodes.old }
{
    match arguments {
        [
            Lowered::Truth(condition),
            Lowered::Truth(yes),
            Lowered::Truth(no),
        ] => {
            let number = nodes.choose(alloc, *condition, *yes, *no)?;
            Ok(Lowered::Truth(number))
        }
        [
            Lowered::Truth(condition),
            Lowered::Number(yes),
            Lowered::Number(no),
        ] => choose_number(alloc, nodes, *condition, yes, no),
        _ => Err(TermError::Refused(TermRefusal::WrongSort)),
    }
}

/// What the operator makes of the arguments.
#[tactic(auto, unfolding(crate::specs::Applied::applied))]
pub fn apply(
    alloc: Global,
    operator: Operator,
    nodes: &mut Nodes,
    arguments: &[Lowered],
) -> Result<Lowered, TermError>
    ensures makes { Lowers nodes.new (applied operator nodes.old (shown_terms arguments.now)) result }
    ensures front { take (length nodes.old) nodes.new ≡ nodes.old }
{
    match operator {
        Operator::Connective(connective) => apply_connective(alloc, connective, nodes, arguments),
        Operator::Order(order) => {
            relate_numbers(alloc, relation_of_order(order), nodes, arguments)
        }
        Operator::Sum(sign) => apply_sum(alloc, sign, nodes, arguments),
        Operator::Equality(equality) => apply_equality(alloc, equality, nodes, arguments),
        Operator::Ite => choose(alloc, nodes, arguments),
    }
}
