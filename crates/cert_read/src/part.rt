//! The parts of an entry.
ghost use Rattle.std.specs.Prelude.{◌≡◌, ◌++◌, ◌∷◌, [], Option, Some, option_map, IfOk, OnOk, IfErr};
ghost use Rattle.smt_sexpr.specs.Tree.{Sexpr, Items};
ghost use Rattle.smt_sexpr.specs.Table.{Means, MeansEach, HasMeaning};
ghost use Rattle.cert_text.specs.declared.entry.Version.{Version};
ghost use Rattle.cert_read.specs.Parts.{each_of, bound_of, literal_of, clause_of, single_of, only_in_two, step_named};
ghost use Rattle.cert_read.specs.Parts.{step_of, lemma_from, kept_from, truth_named};
ghost use Rattle.refute_tree.specs.code.Views.{step_seen};
ghost use Rattle.smt_sexpr.specs.Shapes.{headed_of, HaveMeaning, HeadIs};
ghost use Rattle.cert_read.specs.code.Shapes.{Lacks};

use crate::error::PartError;
use crate::number::{index, number, point, whole};
use cert_text::Version;
use kept_lemmas::{Item, Kept};
use refute_tree::{Cycle, Lemma, Step, StepView, Steps};
use smt_sexpr::{SexprId, Sexprs};
use std::alloc::{AllocError, Global};
use stn_core::{Clause, Literal, Literals, NamedValue};

/// What an s-expression can stand for in a certificate.
pub(crate) trait Part {
    ghost meant: { Version → Sexpr → Option Self };

    /// What the s-expression stands for in this version.
    fn read(alloc: Global, version: Version, table: &Sexprs, id: SexprId) -> Result<Self, PartError>
        requires { HasMeaning table.now id }
        ensures ok { IfOk result (λ part. (x : Sexpr) → Means table.now id x → meant version x ≡ Some part) }
        ensures err { IfErr result (λ e. (x : Sexpr) → Means table.now id x → Lacks (meant version x) e) };
}

/// What the items of a list stand for.
pub(crate) fn read_each<T: Part + Drop>(
    alloc: Global,
    version: Version,
    table: &Sexprs,
    ids: &[SexprId],
) -> Result<Vec<T>, PartError>
    requires { HaveMeaning table.now ids.now }
    ensures ok { IfOk result (λ parts. (xs : Items) → MeansEach table.now ids.now xs
        → each_of (T.meant version) xs ≡ Some parts.items) }
    ensures err { IfErr result (λ e. (xs : Items) → MeansEach table.now ids.now xs
        → Lacks (each_of (T.meant version) xs) e) }
{
    let mut parts = Vec::with_capacity(alloc, ids.len())?;
    for id in ids {
        parts.push(T::read(alloc, version, table, *id)?)?;
    }
    Ok(parts)
}

/// A literal, by the ids of `x`, `y` and `c`.
fn bound(table: &Sexprs, ids: &[SexprId]) -> Option<Literal>
    requires { HaveMeaning table.now ids.now }
    ensures { (xs : Items) → MeansEach table.now ids.now xs → result ≡ bound_of xs }
{
    match ids {
        [x, y, c] => Some(Literal {
            x: point(table, *x)?,
            y: point(table, *y)?,
            c: number(table, *c)?,
        }),
        _ => None,
    }
}

impl Part for Literal {
    ghost use Rattle.cert_read.specs.Parts.{literal_of};

    ghost meant = { λ _. literal_of };

    fn read(
        _alloc: Global,
        _version: Version,
        table: &Sexprs,
        id: SexprId,
    ) -> Result<Literal, PartError> {
        let ids = table.items(id).ok_or(PartError::IllFormed)?;
        bound(table, ids).ok_or(PartError::IllFormed)
    }
}

/// The literals of a clause.
fn clause(alloc: Global, version: Version, table: &Sexprs, id: SexprId) -> Result<Clause, PartError>
    requires { HasMeaning table.now id }
    ensures ok { IfOk result (λ literals. (x : Sexpr) → Means table.now id x → clause_of x ≡ Some literals) }
    ensures err { IfErr result (λ e. (x : Sexpr) → Means table.now id x → Lacks (clause_of x) e) }
{
    let ids = table.items(id).ok_or(PartError::IllFormed)?;
    let literals = read_each(alloc, version, table, ids)?;
    Ok(Clause::new(literals))
}

/// An index that stands alone.
fn single(table: &Sexprs, ids: &[SexprId]) -> Option<usize>
    requires { HaveMeaning table.now ids.now }
    ensures { (xs : Items) → MeansEach table.now ids.now xs → result ≡ single_of xs }
{
    match ids {
        [id] => index(table, *id),
        _ => None,
    }
}

/// The number of a clash, which version 2 alone has.
fn clash(version: Version, table: &Sexprs, ids: &[SexprId]) -> Option<usize>
    requires { HaveMeaning table.now ids.now }
    ensures { (xs : Items) → MeansEach table.now ids.now xs → result ≡ only_in_two version (single_of xs) }
{
    match version {
        Version::One => None,
        Version::Two => single(table, ids),
    }
}

/// A step, by its name and what follows it.
fn step(
    alloc: Global,
    version: Version,
    table: &Sexprs,
    name: &[u8],
    ids: &[SexprId],
) -> Result<Step, PartError>
    requires { HaveMeaning table.now ids.now }
    ensures ok { IfOk result (λ step. (xs : Items) → MeansEach table.now ids.now xs
        → step_named version name.now xs ≡ Some step) }
    ensures err { IfErr result (λ e. (xs : Items) → MeansEach table.now ids.now xs
        → Lacks (step_named version name.now xs) e) }
{
    if name == b"cycle".as_slice() {
        let literals = read_each(alloc, version, table, ids)?;
        Ok(Step::Cycle(Literals::new(literals)))
    } else if name == b"input".as_slice() {
        let i = single(table, ids).ok_or(PartError::IllFormed)?;
        Ok(Step::Input(i))
    } else if name == b"lemma".as_slice() {
        let j = single(table, ids).ok_or(PartError::IllFormed)?;
        Ok(Step::Lemma(j))
    } else if name == b"clash".as_slice() {
        let i = clash(version, table, ids).ok_or(PartError::IllFormed)?;
        Ok(Step::Clash(i))
    } else if name == b"either".as_slice() {
        let literal = bound(table, ids).ok_or(PartError::IllFormed)?;
        Ok(Step::Either(literal))
    } else {
        Err(PartError::IllFormed)
    }
}

impl Part for Step {
    ghost use Rattle.cert_read.specs.Parts.{step_of};

    ghost meant = { step_of };

    fn read(
        alloc: Global,
        version: Version,
        table: &Sexprs,
        id: SexprId,
    ) -> Result<Step, PartError> {
        let (name, ids) = table.headed(id).ok_or(PartError::IllFormed)?;
        let step = step(alloc, version, table, name, ids)?;
        Ok(step)
    }
}

/// The step as it is read from a list.
fn view_of(step: &Step) -> StepView<'_>
    ensures { step_seen result ≡ step.now }
{
    match step {
        Step::Cycle(literals) => StepView::Cycle(Cycle::Literals(literals.as_slice())),
        Step::Input(i) => StepView::Input(*i),
        Step::Lemma(j) => StepView::Lemma(*j),
        Step::Clash(i) => StepView::Clash(*i),
        Step::Either(literal) => StepView::Either(*literal),
    }
}

fn push_step(step: Step, steps: &mut Steps) -> Result<(), AllocError>
    ensures { OnOk result (steps.new ≡ steps.old ++ step ∷ []) }
{
    steps.push(view_of(&step))?;
    Ok(())
}

/// The steps that the items of a list stand for.
fn read_steps(
    alloc: Global,
    version: Version,
    table: &Sexprs,
    ids: &[SexprId],
) -> Result<Steps, PartError>
    requires { HaveMeaning table.now ids.now }
    ensures ok { IfOk result (λ steps. (xs : Items) → MeansEach table.now ids.now xs
        → each_of (step_of version) xs ≡ Some steps) }
    ensures err { IfErr result (λ e. (xs : Items) → MeansEach table.now ids.now xs
        → Lacks (each_of (step_of version) xs) e) }
{
    let mut steps = Steps::new(alloc);
    for id in ids {
        push_step(Step::read(alloc, version, table, *id)?, &mut steps)?;
    }
    Ok(steps)
}

/// A lemma, by the ids of its clause and its steps.
fn lemma(
    alloc: Global,
    version: Version,
    table: &Sexprs,
    ids: &[SexprId],
) -> Result<Lemma, PartError>
    requires { HaveMeaning table.now ids.now }
    ensures ok { IfOk result (λ lemma. (xs : Items) → MeansEach table.now ids.now xs
        → lemma_from version xs ≡ Some lemma) }
    ensures err { IfErr result (λ e. (xs : Items) → MeansEach table.now ids.now xs
        → Lacks (lemma_from version xs) e) }
{
    match ids {
        [first, rest @ ..] => {
            let clause = clause(alloc, version, table, *first)?;
            let steps = read_steps(alloc, version, table, rest)?;
            Ok(Lemma { clause, steps })
        }
        _ => Err(PartError::IllFormed),
    }
}

/// The place of a kept lemma, by the ids of its two numbers; version 2 alone has it.
fn kept(version: Version, table: &Sexprs, ids: &[SexprId]) -> Option<Kept>
    requires { HaveMeaning table.now ids.now }
    ensures { (xs : Items) → MeansEach table.now ids.now xs → result ≡ only_in_two version (kept_from xs) }
{
    match (version, ids) {
        (Version::Two, [entry, item]) => Some(Kept {
            entry: index(table, *entry)?,
            item: index(table, *item)?,
        }),
        _ => None,
    }
}

impl Part for Item {
    ghost use Rattle.cert_read.specs.Parts.{item_of};

    ghost meant = { item_of };

    fn read(
        alloc: Global,
        version: Version,
        table: &Sexprs,
        id: SexprId,
    ) -> Result<Item, PartError> {
        let (name, ids) = table.headed(id).ok_or(PartError::IllFormed)?;
        if name == b"lemma".as_slice() {
            let lemma = lemma(alloc, version, table, ids)?;
            Ok(Item::Own(lemma))
        } else if name == b"keep".as_slice() {
            let kept = kept(version, table, ids).ok_or(PartError::IllFormed)?;
            Ok(Item::Keep(kept))
        } else {
            Err(PartError::IllFormed)
        }
    }
}

/// A truth value, by its name.
fn truth(name: &[u8]) -> Option<NamedValue>
    ensures { result ≡ truth_named name.now }
{
    if name == b"true".as_slice() {
        Some(NamedValue::Truth(true))
    } else if name == b"false".as_slice() {
        Some(NamedValue::Truth(false))
    } else {
        None
    }
}

impl Part for NamedValue {
    ghost use Rattle.cert_read.specs.Parts.{named_value_of};

    ghost meant = { λ _. named_value_of };

    fn read(
        _alloc: Global,
        _version: Version,
        table: &Sexprs,
        id: SexprId,
    ) -> Result<NamedValue, PartError> {
        if let Some(n) = whole(table, id) {
            return Ok(NamedValue::Int(n));
        }
        let name = table.symbol(id).ok_or(PartError::IllFormed)?;
        truth(name).ok_or(PartError::IllFormed)
    }
}
