//! The value of an Int term.
ghost use Rattle.std.specs.Prelude.{◌≡◌, ◌<◌, ◌+◌, ◌*ℤ◌, ◌≤ℤ◌, ℕ, Bool, neg_ℤ, pos, IfOk, IfSome, OnErr, List, length, max, slice_index_or, true, false};
ghost use Rattle.std.specs.List.{AllByRecursion, list_all};
ghost use Rattle.stn_core.specs.Literal.{value_at};
ghost use Rattle.stn_core.specs.Named.{AreWithinLimit};
ghost use Rattle.idl_linear.specs.Limits.{coefficient_limit};
ghost use Rattle.idl_linear.specs.Linear.{is_within};
ghost use Rattle.idl_linear.specs.Values.{linear_value};
ghost use Rattle.idl_node.specs.Nodes.{NodeValue};
ghost use Rattle.idl_node.specs.Tables.{IsTableOver};
ghost use Rattle.idl_node.specs.Truth.{point_values, truth, AreTruths, BeginsWith};
ghost use Rattle.idl_cases.specs.code.CaseSums.{added_each};
ghost use Rattle.idl_cases.specs.code.GuardBounds.{AreGuardsBelow};
ghost use Rattle.idl_value.specs.code.Evaluating.{product_limit, both_values, first_value, IsCaseOver, IsTermValue};
ghost use Rattle.idl_value.specs.code.Looking.{branches_cases, step_value, where_true, whole_value, AreBoth, IsStepWithin};
ghost use Rattle.idl_value.specs.CaseValues.{cases_value};

use crate::pending::{Branches, Pending, Step};
use idl_cases::{Case, Cases, Choices, Chosen, Form};
use idl_linear::{Linear, Summand};
use idl_node::{Nodes, eval, eval_on, point_value};
use std::alloc::AllocError;
use stn_core::{NamedValue, NamedValues, Value};

/// The value of a time point times its coefficient: 0 where there is no such time point.
fn product(summand: Summand, values: &[NamedValue]) -> Value
    requires limited { is_within coefficient_limit summand.coefficient ≡ true }
    requires within { AreWithinLimit values.now }
    ensures value { result ≡ (summand.coefficient *ℤ value_at (point_values values.now) summand.point) }
    ensures low { neg_ℤ (pos product_limit) ≤ℤ result }
    ensures high { result ≤ℤ pos product_limit }
{
    if summand.point as usize > values.len() {
        return 0;
    }
    Value::from(summand.coefficient) * point_value(values, summand.point)
}

/// The value of a linear term where the names have these values: of a Bool name's time point 0 where the name is true, else 1.
/// Each Int name's value is within `NAMED_VALUE_LIMIT`, so that the sum is a `Value`. It takes no memory.
fn eval_linear(linear: &Linear, values: &NamedValues) -> Value
    requires within { AreWithinLimit values.now }
    ensures value { result ≡ linear_value (point_values values.now) linear.now }
    ensures small { IsTermValue result }
{
    let values = values.as_slice();
    let mut cursor = linear.cursor();
    let mut sum = Value::from(linear.constant());
    while let Some(summand) = cursor.next() {
        sum += product(summand, values);
    }
    sum
}

/// The sum of the two, where there are both: it is the value of an Int term too.
fn both_values(first: Option<Value>, second: Option<Value>) -> Option<Value>
    requires first { IfSome first IsTermValue }
    requires second { IfSome second IsTermValue }
    requires sum { IfSome (both_values first second) IsTermValue }
    ensures is { result ≡ both_values first second }
    ensures small { IfSome result IsTermValue }
{
    let Some(a) = first else {
        return None;
    };
    let Some(b) = second else {
        return None;
    };
    Some(a + b)
}

/// The step into cases, where their guard is true.
fn enter<'c>(part: Pending<'c>, is_true: bool, cases: &'c Cases, values: &NamedValues) -> Step<'c>
    requires within { AreWithinLimit values.now }
    ensures value { (test : ℕ → Bool) → step_value test (point_values values.now) result
        ≡ whole_value part.entry (where_true is_true (first_value test (point_values values.now) cases.now)) }
    ensures less { (count : ℕ) → AreGuardsBelow count cases.now → IsStepWithin count (length cases.now + 1) result }
{
    if is_true {
        match cases.chosen() {
            Chosen::Plain(linear) => Step::Found(part.whole(Some(eval_linear(linear, values)))),
            Chosen::Choices(choices) => Step::On(part.within(choices)),
            Chosen::Moved(by, choices) => part.summed(Some(eval_linear(by, values)), choices),
        }
    } else {
        Step::Found(part.otherwise)
    }
}

/// The value of the first case whose guards are all true, by the marks of the nodes.
#[cycle(marked)]
fn first_marked(cases: &Cases, values: &NamedValues, marks: &[bool]) -> Option<Value>
    requires guards { AreGuardsBelow (length marks.now) cases.now }
    requires within { AreWithinLimit values.now }
    ensures is { result ≡ first_value (λ g. slice_index_or marks.now g false) (point_values values.now) cases.now }
    ensures small { IfSome result IsTermValue }
{
    match cases.chosen() {
        Chosen::Plain(linear) => Some(eval_linear(linear, values)),
        Chosen::Choices(choices) => first_chosen(choices, values, marks),
        Chosen::Moved(by, choices) => {
            let moved = eval_linear(by, values);
            both_values(Some(moved), first_chosen(choices, values, marks))
        }
    }
}

/// The same of choices. Of two parts the one with fewer cases is gone into by a call, and the other one by a step of the loop: so the
/// calls in one another are no more than the logarithm of the number of cases.
#[cycle(marked)]
fn first_chosen(choices: &Choices, values: &NamedValues, marks: &[bool]) -> Option<Value>
    requires guards { AreGuardsBelow (length marks.now) choices.now }
    requires within { AreWithinLimit values.now }
    ensures is { result ≡ first_value (λ g. slice_index_or marks.now g false) (point_values values.now) choices.now }
    ensures small { IfSome result IsTermValue }
{
    let mut pending = Pending::new(choices);
    loop {
        match step_marked(pending, values, marks) {
            Step::Found(found) => return found,
            Step::On(next) => pending = next,
        }
    }
}

/// A step towards the value.
#[cycle(marked)]
fn step_marked<'c>(pending: Pending<'c>, values: &NamedValues, marks: &[bool]) -> Step<'c>
    requires guards { AreGuardsBelow (length marks.now) pending.choices.now }
    requires within { AreWithinLimit values.now }
    ensures value { step_value (λ g. slice_index_or marks.now g false) (point_values values.now) result
        ≡ whole_value pending.entry (first_value (λ g. slice_index_or marks.now g false) (point_values values.now) pending.entry.choices.now) }
    ensures less { IsStepWithin (length marks.now) (length pending.entry.choices.now) result }
{
    let (form, is_negative) = pending.choices.form();
    let part = pending.signed(is_negative);
    match form {
        Form::Branched {
            condition,
            denial,
            yes,
            no,
        } => {
            let branches = Branches {
                condition,
                denial,
                yes,
                no,
            };
            branch_marked(part, branches, values, marks)
        }
        Form::Sum { first, second } => sum_marked(part, first, second, values, marks),
        Form::Listed(listed) => {
            let found = first_listed(listed, values, marks);
            Step::Found(part.whole(found))
        }
    }
}

/// The step into a branch whose guard is true.
#[cycle(marked)]
fn branch_marked<'c>(
    part: Pending<'c>,
    branches: Branches<'c>,
    values: &NamedValues,
    marks: &[bool],
) -> Step<'c>
    requires condition { branches.condition < length marks.now }
    requires denial { branches.denial < length marks.now }
    requires yes { AreGuardsBelow (length marks.now) branches.yes.now }
    requires no { AreGuardsBelow (length marks.now) branches.no.now }
    requires some { AreBoth branches }
    requires within { AreWithinLimit values.now }
    ensures value { step_value (λ g. slice_index_or marks.now g false) (point_values values.now) result
        ≡ whole_value part.entry (first_value (λ g. slice_index_or marks.now g false) (point_values values.now) (branches_cases branches.entry)) }
    ensures less { IsStepWithin (length marks.now) (length branches.entry.yes.now + length branches.entry.no.now) result }
{
    let Branches { yes, no, .. } = branches;
    let is_yes = marks[branches.condition as usize];
    let is_no = marks[branches.denial as usize];
    if !is_yes {
        return enter(part, is_no, no, values);
    }
    if !is_no {
        return enter(part, is_yes, yes, values);
    }
    if yes.len() < no.len() {
        let found = first_marked(yes, values, marks);
        if found.is_some() {
            return Step::Found(part.whole(found));
        }
        return enter(part, is_no, no, values);
    }
    let found = first_marked(no, values, marks);
    enter(part.before(found), is_yes, yes, values)
}

/// The step into a sum.
#[cycle(marked)]
fn sum_marked<'c>(
    part: Pending<'c>,
    first: &'c Choices,
    second: &'c Choices,
    values: &NamedValues,
    marks: &[bool],
) -> Step<'c>
    requires first { AreGuardsBelow (length marks.now) first.now }
    requires second { AreGuardsBelow (length marks.now) second.now }
    requires within { AreWithinLimit values.now }
    ensures value { step_value (λ g. slice_index_or marks.now g false) (point_values values.now) result
        ≡ whole_value part.entry (first_value (λ g. slice_index_or marks.now g false) (point_values values.now) (added_each first.now second.now)) }
    ensures less { IsStepWithin (length marks.now) (1 + max (length first.now) (length second.now)) result }
{
    if first.len() < second.len() {
        let outside = first_chosen(first, values, marks);
        part.summed(outside, second)
    } else {
        let inside = first_chosen(second, values, marks);
        part.summed(inside, first)
    }
}

/// The same of cases one after the other.
fn first_listed(cases: &[Case], values: &NamedValues, marks: &[bool]) -> Option<Value>
    requires guards { AreGuardsBelow (length marks.now) cases.now }
    requires within { AreWithinLimit values.now }
    ensures is { result ≡ first_value (λ g. slice_index_or marks.now g false) (point_values values.now) cases.now }
    ensures small { IfSome result IsTermValue }
{
    for case in cases {
        if are_marked(case.guards(), marks) {
            return Some(eval_linear(case.linear(), values));
        }
    }
    None
}

fn are_marked(guards: &[u32], marks: &[bool]) -> bool
    requires { AllByRecursion (λ g. g < length marks.now) guards.now }
    ensures { result ≡ list_all (λ g. slice_index_or marks.now g false) guards.now }
{
    for guard in guards {
        if !marks[*guard as usize] {
            return false;
        }
    }
    true
}

/// The value of the case whose guards are true, by the marks of the nodes.
fn eval_marked(cases: &Cases, values: &NamedValues, marks: &[bool]) -> Value
    requires cases { AllByRecursion (IsCaseOver (length values.now + 1) (length marks.now)) cases.now }
    requires within { AreWithinLimit values.now }
    ensures { (nodes : List NodeValue) → AreTruths nodes (point_values values.now) marks.now
        → result ≡ cases_value nodes (point_values values.now) cases.now }
{
    first_marked(cases, values, marks).unwrap_or(0)
}

/// The value of an Int term of the table where the names have these values: that of the case whose guards are true. `marks` is
/// the caller's buffer, as long as the table: it then tells the truth of each node. It takes time of the order of the table and the
/// term, and no memory.
pub fn eval_int(cases: &Cases, nodes: &Nodes, values: &NamedValues, marks: &mut [bool]) -> Value
    requires table { IsTableOver (length values.now + 1) nodes.now }
    requires cases { AllByRecursion (IsCaseOver (length values.now + 1) (length nodes.now)) cases.now }
    requires within { AreWithinLimit values.now }
    requires room { length marks.old ≡ length nodes.now }
    ensures value { result ≡ cases_value nodes.now (point_values values.now) cases.now }
    ensures marks { AreTruths nodes.now (point_values values.now) marks.new }
{
    let count = nodes.len();
    if count > 0 {
        eval(nodes, count as u32 - 1, values, marks);
    }
    eval_marked(cases, values, marks)
}

/// The value of the first case whose guards are all true. `marks` tells the truth of the table's first nodes, and then that of as many
/// as were asked for.
#[cycle(asked)]
fn first_true(
    cases: &Cases,
    nodes: &Nodes,
    values: &NamedValues,
    marks: &mut Vec<bool>,
) -> Result<Option<Value>, AllocError>
    requires table { IsTableOver (length values.now + 1) nodes.now }
    requires guards { AreGuardsBelow (length nodes.now) cases.now }
    requires within { AreWithinLimit values.now }
    requires marks { AreTruths nodes.now (point_values values.now) marks.old.items }
    ensures value { IfOk result (λ o. o
        ≡ first_value (truth nodes.now (point_values values.now)) (point_values values.now) cases.now) }
    ensures small { IfOk result (λ o. IfSome o IsTermValue) }
    ensures marks { AreTruths nodes.now (point_values values.now) marks.new.items }
    ensures front { BeginsWith marks.new.items marks.old.items }
{
    match cases.chosen() {
        Chosen::Plain(linear) => Ok(Some(eval_linear(linear, values))),
        Chosen::Choices(choices) => first_true_chosen(choices, nodes, values, marks),
        Chosen::Moved(by, choices) => {
            let moved = eval_linear(by, values);
            let found = first_true_chosen(choices, nodes, values, marks)?;
            Ok(both_values(Some(moved), found))
        }
    }
}

/// The same of choices. Of two parts the one with fewer cases is gone into by a call, and the other one by a step of the loop.
#[cycle(asked)]
fn first_true_chosen(
    choices: &Choices,
    nodes: &Nodes,
    values: &NamedValues,
    marks: &mut Vec<bool>,
) -> Result<Option<Value>, AllocError>
    requires table { IsTableOver (length values.now + 1) nodes.now }
    requires guards { AreGuardsBelow (length nodes.now) choices.now }
    requires within { AreWithinLimit values.now }
    requires marks { AreTruths nodes.now (point_values values.now) marks.old.items }
    ensures value { IfOk result (λ o. o
        ≡ first_value (truth nodes.now (point_values values.now)) (point_values values.now) choices.now) }
    ensures small { IfOk result (λ o. IfSome o IsTermValue) }
    ensures marks { AreTruths nodes.now (point_values values.now) marks.new.items }
    ensures front { BeginsWith marks.new.items marks.old.items }
{
    let mut pending = Pending::new(choices);
    loop {
        let step = step_true(pending, nodes, values, marks)?;
        match step {
            Step::Found(found) => return Ok(found),
            Step::On(next) => pending = next,
        }
    }
}

/// A step towards the value.
#[cycle(asked)]
fn step_true<'c>(
    pending: Pending<'c>,
    nodes: &Nodes,
    values: &NamedValues,
    marks: &mut Vec<bool>,
) -> Result<Step<'c>, AllocError>
    requires table { IsTableOver (length values.now + 1) nodes.now }
    requires guards { AreGuardsBelow (length nodes.now) pending.choices.now }
    requires within { AreWithinLimit values.now }
    requires marks { AreTruths nodes.now (point_values values.now) marks.old.items }
    ensures value { IfOk result (λ step. step_value (truth nodes.now (point_values values.now)) (point_values values.now) step
        ≡ whole_value pending.entry (first_value (truth nodes.now (point_values values.now)) (point_values values.now) pending.entry.choices.now)) }
    ensures less { IfOk result (IsStepWithin (length nodes.now) (length pending.entry.choices.now)) }
    ensures marks { AreTruths nodes.now (point_values values.now) marks.new.items }
    ensures front { BeginsWith marks.new.items marks.old.items }
{
    let (form, is_negative) = pending.choices.form();
    let part = pending.signed(is_negative);
    match form {
        Form::Branched {
            condition,
            denial,
            yes,
            no,
        } => {
            let branches = Branches {
                condition,
                denial,
                yes,
                no,
            };
            let step = branch_true(part, branches, nodes, values, marks)?;
            Ok(step)
        }
        Form::Sum { first, second } => {
            let step = sum_true(part, first, second, nodes, values, marks)?;
            Ok(step)
        }
        Form::Listed(listed) => {
            let found = first_true_listed(listed, nodes, values, marks)?;
            Ok(Step::Found(part.whole(found)))
        }
    }
}

/// The step into a branch whose guard is true.
#[cycle(asked)]
fn branch_true<'c>(
    part: Pending<'c>,
    branches: Branches<'c>,
    nodes: &Nodes,
    values: &NamedValues,
    marks: &mut Vec<bool>,
) -> Result<Step<'c>, AllocError>
    requires table { IsTableOver (length values.now + 1) nodes.now }
    requires condition { branches.condition < length nodes.now }
    requires denial { branches.denial < length nodes.now }
    requires yes { AreGuardsBelow (length nodes.now) branches.yes.now }
    requires no { AreGuardsBelow (length nodes.now) branches.no.now }
    requires some { AreBoth branches }
    requires within { AreWithinLimit values.now }
    requires marks { AreTruths nodes.now (point_values values.now) marks.old.items }
    ensures value { IfOk result (λ step. step_value (truth nodes.now (point_values values.now)) (point_values values.now) step
        ≡ whole_value part.entry (first_value (truth nodes.now (point_values values.now)) (point_values values.now) (branches_cases branches.entry))) }
    ensures less { IfOk result (IsStepWithin (length nodes.now) (length branches.entry.yes.now + length branches.entry.no.now)) }
    ensures marks { AreTruths nodes.now (point_values values.now) marks.new.items }
    ensures front { BeginsWith marks.new.items marks.old.items }
{
    let Branches { yes, no, .. } = branches;
    let is_yes = eval_on(nodes, branches.condition, values, marks)?;
    let is_no = eval_on(nodes, branches.denial, values, marks)?;
    if !is_yes {
        return Ok(enter(part, is_no, no, values));
    }
    if !is_no {
        return Ok(enter(part, is_yes, yes, values));
    }
    if yes.len() < no.len() {
        let found = first_true(yes, nodes, values, marks)?;
        if found.is_some() {
            return Ok(Step::Found(part.whole(found)));
        }
        return Ok(enter(part, is_no, no, values));
    }
    let found = first_true(no, nodes, values, marks)?;
    Ok(enter(part.before(found), is_yes, yes, values))
}

/// The step into a sum.
#[cycle(asked)]
fn sum_true<'c>(
    part: Pending<'c>,
    first: &'c Choices,
    second: &'c Choices,
    nodes: &Nodes,
    values: &NamedValues,
    marks: &mut Vec<bool>,
) -> Result<Step<'c>, AllocError>
    requires table { IsTableOver (length values.now + 1) nodes.now }
    requires first { AreGuardsBelow (length nodes.now) first.now }
    requires second { AreGuardsBelow (length nodes.now) second.now }
    requires within { AreWithinLimit values.now }
    requires marks { AreTruths nodes.now (point_values values.now) marks.old.items }
    ensures value { IfOk result (λ step. step_value (truth nodes.now (point_values values.now)) (point_values values.now) step
        ≡ whole_value part.entry (first_value (truth nodes.now (point_values values.now)) (point_values values.now) (added_each first.now second.now))) }
    ensures less { IfOk result (IsStepWithin (length nodes.now) (1 + max (length first.now) (length second.now))) }
    ensures marks { AreTruths nodes.now (point_values values.now) marks.new.items }
    ensures front { BeginsWith marks.new.items marks.old.items }
{
    if first.len() < second.len() {
        let outside = first_true_chosen(first, nodes, values, marks)?;
        Ok(part.summed(outside, second))
    } else {
        let inside = first_true_chosen(second, nodes, values, marks)?;
        Ok(part.summed(inside, first))
    }
}

/// The same of cases one after the other.
fn first_true_listed(
    cases: &[Case],
    nodes: &Nodes,
    values: &NamedValues,
    marks: &mut Vec<bool>,
) -> Result<Option<Value>, AllocError>
    requires table { IsTableOver (length values.now + 1) nodes.now }
    requires guards { AreGuardsBelow (length nodes.now) cases.now }
    requires within { AreWithinLimit values.now }
    requires marks { AreTruths nodes.now (point_values values.now) marks.old.items }
    ensures value { IfOk result (λ o. o
        ≡ first_value (truth nodes.now (point_values values.now)) (point_values values.now) cases.now) }
    ensures small { IfOk result (λ o. IfSome o IsTermValue) }
    ensures marks { AreTruths nodes.now (point_values values.now) marks.new.items }
    ensures front { BeginsWith marks.new.items marks.old.items }
{
    for case in cases {
        if are_true(case.guards(), nodes, values, marks)? {
            return Ok(Some(eval_linear(case.linear(), values)));
        }
    }
    Ok(None)
}

fn are_true(
    guards: &[u32],
    nodes: &Nodes,
    values: &NamedValues,
    marks: &mut Vec<bool>,
) -> Result<bool, AllocError>
    requires table { IsTableOver (length values.now + 1) nodes.now }
    requires guards { AllByRecursion (λ g. g < length nodes.now) guards.now }
    requires marks { AreTruths nodes.now (point_values values.now) marks.old.items }
    ensures value { IfOk result (λ all. all ≡ list_all (truth nodes.now (point_values values.now)) guards.now) }
    ensures marks { AreTruths nodes.now (point_values values.now) marks.new.items }
    ensures front { BeginsWith marks.new.items marks.old.items }
{
    for guard in guards {
        if !eval_on(nodes, *guard, values, marks)? {
            return Ok(false);
        }
    }
    Ok(true)
}

/// The value of an Int term of the table where the names have these values: that of the case whose guards are true. `marks` tells
/// the truth of the table's first nodes, and then that of as many as were asked for: of none where the term has no conditions. Where
/// there is no memory, the marks are as they were.
pub fn eval_int_on(
    cases: &Cases,
    nodes: &Nodes,
    values: &NamedValues,
    marks: &mut Vec<bool>,
) -> Result<Value, AllocError>
    requires table { IsTableOver (length values.now + 1) nodes.now }
    requires cases { AllByRecursion (IsCaseOver (length values.now + 1) (length nodes.now)) cases.now }
    requires within { AreWithinLimit values.now }
    requires marks { AreTruths nodes.now (point_values values.now) marks.old.items }
    ensures value { IfOk result (λ n. n ≡ cases_value nodes.now (point_values values.now) cases.now) }
    ensures marks { AreTruths nodes.now (point_values values.now) marks.new.items }
    ensures front { BeginsWith marks.new.items marks.old.items }
    ensures refused { OnErr result (marks.new.items ≡ marks.old.items) }
{
    let before = marks.len();
    match first_true(cases, nodes, values, marks) {
        Ok(found) => Ok(found.unwrap_or(0)),
        Err(error) => {
            marks.truncate(before);
            Err(error)
        }
    }
}
