//! A checked lemma into the table.
ghost use Rattle.std.specs.Prelude.{◌≡◌, ◌<◌, [], ◌∷◌, true, false, length, map, All, OnOk, OnErr, IfOk, slice_get, Some};
ghost use Rattle.refute_tree.specs.Trees.{IsRefuted};
ghost use Rattle.refute_tree.specs.code.Views.{step_seen};
ghost use Rattle.kept_lemmas.specs.Facts.{stated_by};
ghost use Rattle.lemma_shelf.specs.code.Tables.{IsKnownStep, step_held, steps_held, AddsHeld, AddsStep, AreRenumbered, BeginsAs, CitesBelow, facts_at};
ghost use Rattle.lemma_shelf.specs.code.Walks.{facts_in, IsWhole, KeepsTrees, HasLemma, BeginsTable, Pushes};

use crate::book::Book;
use crate::needs::needs_of;
use crate::table::Table;
use crate::trees::Trees;
use refute_tree::{Lemma, Reader, StepView, Steps};
use std::alloc::{AllocError, Global};
use stn_core::Problem;

// The number in the book of the problem's clause with this number.
fn number_in(
    book: &mut Book,
    alloc: Global,
    problem: &Problem,
    i: usize,
) -> Result<usize, AllocError>
    requires { i < length problem.now.clauses }
    ensures ok { IfOk result (λ n. slice_get book.new n ≡ slice_get problem.now.clauses i) }
    ensures longer { BeginsAs book.old book.new }
{
    let number = book.add(alloc, problem.clauses.as_slice()[i].as_slice())?;
    Ok(number)
}

// Adds the step by its numbers in the book and in the table.
fn push_step(
    book: &mut Book,
    alloc: Global,
    problem: &Problem,
    numbers: &[usize],
    step: StepView<'_>,
    steps: &mut Steps,
) -> Result<(), AllocError>
    requires { IsKnownStep (length problem.now.clauses) (length numbers.now) (step_seen step) }
    ensures ok { OnOk result (AddsStep problem.now.clauses numbers.now book.new (step_seen step.entry) steps.old steps.new) }
    ensures longer { BeginsAs book.old book.new }
{
    match step {
        StepView::Input(i) => {
            let number = number_in(book, alloc, problem, i)?;
            steps.push_input(number)
        }
        StepView::Clash(i) => {
            let number = number_in(book, alloc, problem, i)?;
            steps.push_clash(number)
        }
        StepView::Lemma(j) => steps.push_lemma(numbers[j]),
        StepView::Cycle(_) => steps.push(step),
        StepView::Pair(_) => steps.push(step),
        StepView::Either(_) => steps.push(step),
    }
}

// Whether the step is held.
fn is_held(trees: Trees, step: StepView<'_>) -> bool
    ensures held { result ≡ true → step_held trees (step_seen step.entry) ≡ step_seen step.entry ∷ [] }
    ensures let_go { result ≡ false → step_held trees (step_seen step.entry) ≡ [] }
{
    match trees {
        Trees::Held => true,
        Trees::LetGo => match step {
            StepView::Cycle(_) | StepView::Pair(_) => false,
            StepView::Input(_) | StepView::Lemma(_) | StepView::Clash(_) => true,
            StepView::Either(_) => true,
        },
    }
}

// Adds the step by its numbers in the book and in the table, where it is held.
fn push_held(
    book: &mut Book,
    alloc: Global,
    problem: &Problem,
    numbers: &[usize],
    trees: Trees,
    step: StepView<'_>,
    steps: &mut Steps,
) -> Result<(), AllocError>
    requires { IsKnownStep (length problem.now.clauses) (length numbers.now) (step_seen step) }
    ensures ok { OnOk result (AddsHeld trees problem.now.clauses numbers.now book.new (step_seen step.entry) steps.old steps.new) }
    ensures longer { BeginsAs book.old book.new }
{
    if is_held(trees, step) {
        push_step(book, alloc, problem, numbers, step, steps)?;
    }
    Ok(())
}

// What is held of the steps, by their numbers in the book and in the table.
fn renumbered(
    book: &mut Book,
    alloc: Global,
    problem: &Problem,
    numbers: &[usize],
    trees: Trees,
    mut reader: Reader<'_>,
) -> Result<Steps, AllocError>
    requires { All (IsKnownStep (length problem.now.clauses) (length numbers.now)) reader }
    ensures ok { IfOk result (AreRenumbered problem.now.clauses numbers.now book.new (steps_held trees reader.entry)) }
    ensures longer { BeginsAs book.old book.new }
{
    let mut steps = Steps::new(alloc);
    'steps: while let Some(step) = reader.next() {
        push_held(book, alloc, problem, numbers, trees, step, &mut steps)?;
    }
    steps.shrink_to_fit();
    Ok(steps)
}

impl Table {
    // Puts the lemma, whose numbers are the table's, behind the others.
    fn push(&mut self, lemma: Lemma) -> Result<(), AllocError>
        requires { All (CitesBelow (length self.old.points.items)) lemma.steps }
        ensures ok { OnOk result (Pushes self.old lemma self.new) }
        ensures front { BeginsTable self.old self.new }
    {
        let needs = needs_of(self.points.as_slice(), &lemma);
        self.points.reserve(1)?;
        self.lemmas.push(lemma)?;
        self.points.push_reserved(needs);
        Ok(())
    }

    /// Adds a lemma that is refuted over the problem's clauses and the lemmas with these numbers, with its tree or
    /// without it. Without memory, the table perhaps has a part of it behind what it had.
    pub fn add(
        &mut self,
        alloc: Global,
        problem: &Problem,
        numbers: &[usize],
        trees: Trees,
        lemma: &Lemma,
    ) -> Result<(), AllocError>
        requires whole { IsWhole self.old }
        requires numbers { All (λ n. n < length self.old.lemmas.items) numbers.now }
        requires refuted { IsRefuted problem.now.points problem.now.clauses
            (map stated_by (facts_at (facts_in self.old) numbers.now)) lemma.now }
        ensures ok { OnOk result (HasLemma self.old problem.now.clauses numbers.now lemma.now self.new) }
        ensures trees { OnOk result (KeepsTrees trees self.old self.new) }
        ensures front { BeginsTable self.old self.new }
    {
        let steps = renumbered(
            &mut self.book,
            alloc,
            problem,
            numbers,
            trees,
            lemma.steps.reader(),
        )?;
        let clause = lemma.clause.copy()?;
        self.push(Lemma { clause, steps })
    }
}
