//! Int terms that are all compared in pairs, row by row: a term with each behind it. What was made of an equal pair isn't made again.
ghost use Rattle.std.specs.Prelude.{◌≡◌, ◌<◌, ◌+◌, ◌-◌, ◌∷◌, ◌++◌, ℕ, List, [], length, map, take, drop, Err, IfErr, IfOk, OnOk};
ghost use Rattle.idl_node.specs.code.Repeats.{AreRows, HasRepeats, IsRow, LeadsBack};
ghost use Rattle.idl_cases.specs.Guarded.{CaseValue};
ghost use Rattle.idl_apply.specs.Comparing.{cases_compared, each_compared};
ghost use Rattle.idl_apply.specs.code.Repeats.{AreCompared, AreGuarded, term_at};
ghost use Rattle.idl_apply.specs.code.Shapes.{Places};

use crate::comparing::Relation;
use crate::error::TermError;
use crate::pairing::compare_cases;
use idl_cases::Cases;
use idl_node::{Nodes, place_before};
use std::alloc::Global;

/// Terms that are compared, and of each the place of an equal one before it, or its own.
#[derive(Clone, Copy)]
pub(crate) struct Operands<'t> {
    pub(crate) relation: Relation,
    pub(crate) terms: &'t [&'t Cases],
    pub(crate) earlier: &'t [usize],
}

/// Two of the terms. What was made of an equal pair is taken from the row so far.
fn compare_at(
    alloc: Global,
    nodes: &mut Nodes,
    all: Operands<'_>,
    i: usize,
    j: usize,
    row: &[u32],
) -> Result<u32, TermError>
    requires leads { LeadsBack (map (λ t. t.now) all.terms.now) all.earlier.now }
    requires guarded { HasRepeats all.earlier.now → AreGuarded (length nodes.old) (map (λ t. t.now) all.terms.now) }
    requires order { i < j }
    requires within { j < length all.terms.now }
    requires count { length row.now ≡ j - (i + 1) }
    requires row { HasRepeats all.earlier.now
        → IsRow (AreCompared all.relation nodes.old) (map (λ t. t.now) all.terms.now) i j row.now }
    ensures makes { Places nodes.new (cases_compared all.entry.relation nodes.old
        (term_at (map (λ t. t.now) all.entry.terms.now) i) (term_at (map (λ t. t.now) all.entry.terms.now) j)) result }
    ensures settled { IfOk result (λ k. HasRepeats all.entry.earlier.now → AreCompared all.entry.relation nodes.new
        (term_at (map (λ t. t.now) all.entry.terms.now) i) (term_at (map (λ t. t.now) all.entry.terms.now) j) k) }
    ensures front { take (length nodes.old) nodes.new ≡ nodes.old }
{
    let before = place_before(all.earlier, j);
    if i < before && before < j {
        return Ok(row[before - (i + 1)]);
    }
    let number = compare_cases(alloc, nodes, all.relation, all.terms[i], all.terms[j])?;
    Ok(number)
}

/// A term with each behind it: a node for each.
fn compare_others(
    alloc: Global,
    nodes: &mut Nodes,
    all: Operands<'_>,
    i: usize,
) -> Result<Vec<u32>, TermError>
    requires leads { LeadsBack (map (λ t. t.now) all.terms.now) all.earlier.now }
    requires guarded { HasRepeats all.earlier.now → AreGuarded (length nodes.old) (map (λ t. t.now) all.terms.now) }
    requires within { i < length all.terms.now }
    ensures made { IfOk result (λ row. (before : List ℕ) (rest : List (List CaseValue × List CaseValue))
        → each_compared all.entry.relation nodes.old before (map (λ b. (term_at (map (λ t. t.now) all.entry.terms.now) i, b))
        (drop (i + 1) (map (λ t. t.now) all.entry.terms.now)) ++ rest) ≡ each_compared all.entry.relation nodes.new (before ++ row.items) rest) }
    ensures refused { IfErr result (λ why. (before : List ℕ) (rest : List (List CaseValue × List CaseValue))
        → Places nodes.new (each_compared all.entry.relation nodes.old before (map (λ b. (term_at (map (λ t. t.now) all.entry.terms.now) i, b))
        (drop (i + 1) (map (λ t. t.now) all.entry.terms.now)) ++ rest)) (Err why)) }
    ensures count { IfOk result (λ row. length row.items ≡ length all.entry.terms.now - (i + 1)) }
    ensures row { IfOk result (λ row. HasRepeats all.entry.earlier.now → IsRow (AreCompared all.entry.relation nodes.new)
        (map (λ t. t.now) all.entry.terms.now) i (length all.entry.terms.now) row.items) }
    ensures front { take (length nodes.old) nodes.new ≡ nodes.old }
{
    let mut row = Vec::new(alloc);
    for j in i + 1..all.terms.len() {
        row.push(compare_at(alloc, nodes, all, i, j, &row)?)?;
    }
    Ok(row)
}

/// The next term with each behind it: their nodes go behind the parts. Where it equals one before it, they stand there already.
pub(crate) fn compare_next(
    alloc: Global,
    nodes: &mut Nodes,
    all: Operands<'_>,
    starts: &[usize],
    parts: &mut Vec<u32>,
) -> Result<(), TermError>
    requires leads { LeadsBack (map (λ t. t.now) all.terms.now) all.earlier.now }
    requires guarded { HasRepeats all.earlier.now → AreGuarded (length nodes.old) (map (λ t. t.now) all.terms.now) }
    requires within { length starts.now < length all.terms.now }
    requires rows { AreRows (HasRepeats all.earlier.now) (AreCompared all.relation nodes.old)
        (map (λ t. t.now) all.terms.now) starts.now parts.old.items }
    ensures made { OnOk result ((rest : List (List CaseValue × List CaseValue))
        → each_compared all.entry.relation nodes.old parts.old.items
        (map (λ b. (term_at (map (λ t. t.now) all.entry.terms.now) (length starts.now), b))
        (drop (length starts.now + 1) (map (λ t. t.now) all.entry.terms.now)) ++ rest)
        ≡ each_compared all.entry.relation nodes.new parts.new.items rest) }
    ensures refused { IfErr result (λ why. (rest : List (List CaseValue × List CaseValue))
        → Places nodes.new (each_compared all.entry.relation nodes.old parts.old.items
        (map (λ b. (term_at (map (λ t. t.now) all.entry.terms.now) (length starts.now), b))
        (drop (length starts.now + 1) (map (λ t. t.now) all.entry.terms.now)) ++ rest)) (Err why)) }
    ensures rows { OnOk result (AreRows (HasRepeats all.entry.earlier.now) (AreCompared all.entry.relation nodes.new)
        (map (λ t. t.now) all.entry.terms.now) (starts.now ++ length parts.old.items ∷ []) parts.new.items) }
    ensures front { take (length nodes.old) nodes.new ≡ nodes.old }
{
    let i = starts.len();
    let before = place_before(all.earlier, i);
    if before < i {
        let from = starts[before] + (i - before);
        parts.extend_from_within(from..from + (all.terms.len() - (i + 1)))?;
        return Ok(());
    }
    let row = compare_others(alloc, nodes, all, i)?;
    parts.extend_from_slice(&row)?;
    Ok(())
}
