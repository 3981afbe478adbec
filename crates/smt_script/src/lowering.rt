//! Terms of the sort that a command wants.
ghost use Rattle.std.specs.Prelude.{◌≡◌, ◌≤◌, ◌+◌, length, take, OnOk, OnErr};
ghost use Rattle.smt_sexpr.specs.Tree.{Sexpr, Items};
ghost use Rattle.smt_sexpr.specs.Table.{Means, MeansEach, HasMeaning};
ghost use Rattle.smt_sexpr.specs.Shapes.{HaveMeaning};
ghost use Rattle.idl_term.specs.Limits.{names_limit};
ghost use Rattle.idl_term.specs.Lowered.{lowered};
ghost use Rattle.idl_term.specs.Scopes.{shown_term};
ghost use Rattle.idl_term.specs.Contexts.{Context};
ghost use Rattle.smt_script.specs.States.{is_of_sort, terms_refusal, with_assumptions};
ghost use Rattle.smt_script.specs.code.Shapes.{only_of_sort, only_formula, TermIs, FormulaIs, IsTested, IsAsked, AreAssumed, IsAssumedOne};

use crate::error::{Refusal, ScriptError};
use idl_node::{Nodes, Sort};
use idl_term::{Lowered, Scope, TermRefusal, lower};
use smt_sexpr::{SexprId, Sexprs};
use std::alloc::Global;

/// Whether the term has the sort.
fn is_of_sort(sort: Sort, term: &Lowered) -> bool
    ensures { result ≡ is_of_sort sort (shown_term term.now) }
{
    match (sort, term) {
        (Sort::Int, Lowered::Number(_)) | (Sort::Bool, Lowered::Truth(_)) => true,
        _ => false,
    }
}

/// A term of the sort. After an error the table is as before.
pub fn lower_of_sort<'a>(
    alloc: Global,
    sexprs: &Sexprs<'a>,
    id: SexprId,
    sort: Sort,
    scope: &Scope<'a>,
    nodes: &mut Nodes,
) -> Result<Lowered, ScriptError>
    requires meaning { HasMeaning sexprs.now id }
    requires few { length scope.now.declared ≤ names_limit }
    ensures lowers { (t : Sexpr) → Means sexprs.now id t
        → TermIs nodes.new (only_of_sort sort (lowered scope.now nodes.old t)) result }
    ensures front { take (length nodes.old) nodes.new ≡ nodes.old }
    ensures err { OnErr result (nodes.new ≡ nodes.old) }
{
    let before = nodes.len();
    let term = lower(alloc, sexprs, id, scope, nodes)?;
    if is_of_sort(sort, &term) {
        return Ok(term);
    }
    nodes.cut(before);
    Err(ScriptError::Refused(Refusal::Term(TermRefusal::WrongSort)))
}

/// The number of the node of a formula. After an error the table is as before.
pub fn lower_formula<'a>(
    alloc: Global,
    sexprs: &Sexprs<'a>,
    id: SexprId,
    scope: &Scope<'a>,
    nodes: &mut Nodes,
) -> Result<u32, ScriptError>
    requires meaning { HasMeaning sexprs.now id }
    requires few { length scope.now.declared ≤ names_limit }
    ensures lowers { (t : Sexpr) → Means sexprs.now id t
        → FormulaIs nodes.new (only_formula (lowered scope.now nodes.old t)) result }
    ensures front { take (length nodes.old) nodes.new ≡ nodes.old }
    ensures err { OnErr result (nodes.new ≡ nodes.old) }
{
    let before = nodes.len();
    match lower(alloc, sexprs, id, scope, nodes)? {
        Lowered::Truth(root) => Ok(root),
        Lowered::Number(_) => {
            nodes.cut(before);
            Err(ScriptError::Refused(Refusal::Term(TermRefusal::WrongSort)))
        }
    }
}

/// Whether each of the terms may stand here: each is read over the table as it is, which stays so.
pub fn test_terms<'a>(
    alloc: Global,
    sexprs: &Sexprs<'a>,
    terms: &[SexprId],
    scope: &Scope<'a>,
    nodes: &mut Nodes,
) -> Result<(), ScriptError>
    requires meaning { HaveMeaning sexprs.now terms.now }
    requires few { length scope.now.declared ≤ names_limit }
    ensures tested { (ts : Items) → MeansEach sexprs.now terms.now ts
        → IsTested (terms_refusal scope.now nodes.old ts) result }
    ensures same { nodes.new ≡ nodes.old }
{
    let before = nodes.len();
    for term in terms {
        lower(alloc, sexprs, *term, scope, nodes)?;
        nodes.cut(before);
    }
    Ok(())
}

/// Makes the assumptions' nodes, one after the other, and puts their numbers behind the roots. After an error table and roots are
/// as before.
pub fn assume_each<'a>(
    alloc: Global,
    sexprs: &Sexprs<'a>,
    terms: &[SexprId],
    scope: &Scope<'a>,
    nodes: &mut Nodes,
    roots: &mut Vec<u32>,
) -> Result<(), ScriptError>
    requires meaning { HaveMeaning sexprs.now terms.now }
    requires few { length scope.now.declared ≤ names_limit }
    ensures assumed { (c : Context) (ts : Items) → IsAsked scope.now nodes.old roots.old.items c
        → MeansEach sexprs.now terms.now ts
        → AreAssumed scope.now nodes.new roots.new.items (with_assumptions c ts) result }
    ensures table { take (length nodes.old) nodes.new ≡ nodes.old }
    ensures front { take (length roots.old.items) roots.new.items ≡ roots.old.items }
    ensures count { OnOk result (length roots.new.items ≡ length roots.old.items + length terms.now) }
    ensures err { OnErr result ((nodes.new ≡ nodes.old) × (roots.new.items ≡ roots.old.items)) }
{
    let before = nodes.len();
    let count = roots.len();
    for term in terms {
        if let Err(error) = assume_one(alloc, sexprs, *term, scope, nodes, roots) {
            nodes.cut(before);
            roots.truncate(count);
            return Err(error);
        }
    }
    Ok(())
}

// Makes the assumption's node, and puts its number behind the roots.
fn assume_one<'a>(
    alloc: Global,
    sexprs: &Sexprs<'a>,
    term: SexprId,
    scope: &Scope<'a>,
    nodes: &mut Nodes,
    roots: &mut Vec<u32>,
) -> Result<(), ScriptError>
    requires meaning { HasMeaning sexprs.now term }
    requires few { length scope.now.declared ≤ names_limit }
    ensures assumed { (t : Sexpr) → Means sexprs.now term t
        → IsAssumedOne (only_formula (lowered scope.now nodes.old t)) nodes.new roots.old.items roots.new.items result }
    ensures front { take (length nodes.old) nodes.new ≡ nodes.old }
    ensures err { OnErr result ((nodes.new ≡ nodes.old) × (roots.new.items ≡ roots.old.items)) }
{
    roots.reserve(1)?;
    let root = lower_formula(alloc, sexprs, term, scope, nodes)?;
    roots.push_reserved(root);
    Ok(())
}
