//! The parts of an entry. When memory ends, a part of the text may have been appended.
#![tactic(auto, unfolding(smt_lex::specs::Bytes::is_symbol_byte))]

ghost use Rattle.std.specs.Prelude.{◌≡◌, ◌≤◌, ◌+◌, ◌++◌, ◌∷◌, [], length, map, take, drop, OnOk};
ghost use Rattle.std.specs.Vec.{vec_len};
ghost use Rattle.smt_sexpr.specs.Tree.{Sexpr};
ghost use Rattle.smt_sexpr.specs.Printing.{text_of, text_behind};
ghost use Rattle.cert_text.specs.Form.{numeral_text, numeral, number_of_value, clause_sexpr, literal_sexpr, step_sexpr, kept_sexpr, value_sexpr};
ghost use Rattle.stn_core.specs.declared.named.NamedValue.TheVariants.{Truth};
ghost use Rattle.refute_tree.specs.declared.step.Step.TheVariants.{Cycle as CycleStep};
ghost use Rattle.refute_tree.specs.Pairs.{pair_of};
ghost use Rattle.refute_tree.specs.code.Views.{literals_of, step_seen};
ghost use Rattle.smt_sexpr.specs.Shapes.{items_of};

use crate::number::{
    byte_before, number_before, numeral_before, word_before, write_number, write_number_next,
    write_numeral,
};
use bstr::ByteVec;
use kept_lemmas::{Item, Kept};
use refute_tree::{Cycle, Lemma, Reader, StepView};
use std::alloc::AllocError;
use stn_core::{Literal, NamedValue, Value, negate};

/// Room for a literal: three numbers of twenty digits at most, a sign, and what stands between them.
const ROOM: usize = 72;

/// Room for the leaf of a literal and its negation: two literals, and what stands around them.
const PAIR_ROOM: usize = 160;

/// What is written as an s-expression.
pub trait Part {
    ghost sexpr: { Self → Sexpr };

    /// Appends its text; when memory ends, perhaps a part of it.
    fn write(&self, out: &mut Vec<u8>) -> Result<(), AllocError>
        ensures ok { OnOk result (out.new.items ≡ out.old.items ++ text_of (sexpr self.now)) }
        ensures front { take (vec_len out.old) out.new.items ≡ out.old.items };

    /// Appends a space and its text; when memory ends, perhaps a part of them.
    fn write_next(&self, out: &mut Vec<u8>) -> Result<(), AllocError>
        ensures ok { OnOk result (out.new.items ≡ out.old.items ++ 32 ∷ text_of (sexpr self.now)) }
        ensures front { take (vec_len out.old) out.new.items ≡ out.old.items };
}

/// Appends what stands in a list behind its first item: the other items, each behind a space, and the closing
/// parenthesis.
fn write_behind<T: Part>(items: &[T], out: &mut Vec<u8>) -> Result<(), AllocError>
    ensures ok { OnOk result (out.new.items
        ≡ out.old.items ++ text_behind (items_of (map (λ x. T.sexpr x) items.now))) }
    ensures front { take (vec_len out.old) out.new.items ≡ out.old.items }
{
    for item in items {
        item.write_next(out)?;
    }
    out.push_str(b")")
}

/// Puts the points and the bound of a literal, and the closing parenthesis, into the text before what stands from a
/// place on, in 67 bytes at most. Where they begin.
#[inline(always)]
fn bound_before(literal: Literal, text: &mut [u8], end: usize) -> usize
    requires { (67 ≤ end) × (end ≤ length text.old) }
    ensures start { (result ≤ end) × (end ≤ result + 67) }
    ensures written { drop result text.new ≡ (text_of (numeral literal.x)
        ++ text_behind (items_of (numeral literal.y ∷ number_of_value literal.c ∷ []))) ++ drop end text.old }
{
    let at = byte_before(b')', text, end);
    let at = number_before(literal.c, text, at);
    let at = byte_before(b' ', text, at);
    let at = numeral_before(u64::from(literal.y), text, at);
    let at = byte_before(b' ', text, at);
    numeral_before(u64::from(literal.x), text, at)
}

/// Puts a literal before it, of 68 bytes at most.
#[inline(always)]
fn literal_before(literal: Literal, text: &mut [u8], end: usize) -> usize
    requires { (68 ≤ end) × (end ≤ length text.old) }
    ensures start { (result ≤ end) × (end ≤ result + 68) }
    ensures written { drop result text.new ≡ text_of (literal_sexpr literal) ++ drop end text.old }
{
    let at = bound_before(literal, text, end);
    byte_before(b'(', text, at)
}

/// Appends the points and the bound of a literal, and the closing parenthesis.
fn write_bound(literal: Literal, out: &mut Vec<u8>) -> Result<(), AllocError>
    ensures ok { OnOk result (out.new.items ≡ out.old.items ++ text_of (numeral literal.x)
        ++ text_behind (items_of (numeral literal.y ∷ number_of_value literal.c ∷ []))) }
    ensures front { take (vec_len out.old) out.new.items ≡ out.old.items }
{
    let mut text = [0u8; ROOM];
    let at = bound_before(literal, &mut text, ROOM);
    out.push_str(&text[at..])
}

impl Part for Literal {
    ghost use Rattle.cert_text.specs.Form.{literal_sexpr};

    ghost sexpr = { literal_sexpr };

    fn write(&self, out: &mut Vec<u8>) -> Result<(), AllocError> {
        let mut text = [0u8; ROOM];
        let at = literal_before(*self, &mut text, ROOM);
        out.push_str(&text[at..])
    }

    fn write_next(&self, out: &mut Vec<u8>) -> Result<(), AllocError> {
        let mut text = [0u8; ROOM];
        let at = literal_before(*self, &mut text, ROOM);
        let at = byte_before(b' ', &mut text, at);
        out.push_str(&text[at..])
    }
}

/// Appends the list of a clause's literals.
fn write_clause(literals: &[Literal], out: &mut Vec<u8>) -> Result<(), AllocError>
    ensures ok { OnOk result (out.new.items ≡ out.old.items ++ text_of (clause_sexpr literals.now)) }
    ensures front { take (vec_len out.old) out.new.items ≡ out.old.items }
{
    match literals.split_first() {
        None => out.push_str(b"()"),
        Some((first, rest)) => {
            out.push_str(b"(")?;
            first.write(out)?;
            write_behind(rest, out)
        }
    }
}

/// Appends a space and a step.
fn write_step(step: StepView<'_>, out: &mut Vec<u8>) -> Result<(), AllocError>
    ensures ok { OnOk result (out.new.items ≡ out.old.items ++ 32 ∷ text_of (step_sexpr (step_seen step.entry))) }
    ensures front { take (vec_len out.old) out.new.items ≡ out.old.items }
{
    match step {
        StepView::Cycle(cycle) => write_cycle(cycle, out),
        StepView::Pair(literal) => write_pair(literal, out),
        StepView::Input(i) => write_numbered(b" (input ", i, out),
        StepView::Lemma(j) => write_numbered(b" (lemma ", j, out),
        StepView::Clash(i) => write_numbered(b" (clash ", i, out),
        StepView::Either(literal) => {
            out.push_str(b" (either ")?;
            write_bound(literal, out)
        }
    }
}

/// Appends what a list begins with, up to a number in its last place, and the rest of the list.
#[inline(always)]
fn write_numbered(head: &[u8], number: usize, out: &mut Vec<u8>) -> Result<(), AllocError>
    requires { length head.now ≡ 8 }
    ensures ok { OnOk result (out.new.items ≡ out.old.items ++ (head.now ++ (numeral_text number ++ 41 ∷ []))) }
    ensures front { take (vec_len out.old) out.new.items ≡ out.old.items }
{
    let mut text = [0u8; 32];
    let at = byte_before(b')', &mut text, 32);
    let at = numeral_before(number as u64, &mut text, at);
    let at = word_before(head, &mut text, at);
    out.push_str(&text[at..])
}

/// Appends a space and the leaf of a literal and its negation, in one piece.
fn write_pair(literal: Literal, out: &mut Vec<u8>) -> Result<(), AllocError>
    ensures ok { OnOk result (out.new.items ≡ out.old.items ++ 32 ∷ text_of (step_sexpr (CycleStep (pair_of literal)))) }
    ensures front { take (vec_len out.old) out.new.items ≡ out.old.items }
{
    let mut text = [0u8; PAIR_ROOM];
    let at = byte_before(b')', &mut text, PAIR_ROOM);
    let at = literal_before(negate(literal), &mut text, at);
    let at = byte_before(b' ', &mut text, at);
    let at = literal_before(literal, &mut text, at);
    let at = word_before(b" (cycle ", &mut text, at);
    out.push_str(&text[at..])
}

/// Appends a space and a leaf.
fn write_cycle(cycle: Cycle<'_>, out: &mut Vec<u8>) -> Result<(), AllocError>
    ensures ok { OnOk result (out.new.items ≡ out.old.items ++ 32 ∷ text_of (step_sexpr (CycleStep (literals_of cycle.entry)))) }
    ensures front { take (vec_len out.old) out.new.items ≡ out.old.items }
{
    out.push_str(b" (cycle")?;
    write_each_behind(cycle, out)
}

/// Appends the literals of a cycle, each behind a space, and the closing parenthesis.
fn write_each_behind(cycle: Cycle<'_>, out: &mut Vec<u8>) -> Result<(), AllocError>
    ensures ok { OnOk result (out.new.items
        ≡ out.old.items ++ text_behind (items_of (map literal_sexpr (literals_of cycle.entry)))) }
    ensures front { take (vec_len out.old) out.new.items ≡ out.old.items }
{
    for place in 0..cycle.len() {
        cycle.at(place).write_next(out)?;
    }
    out.push_str(b")")
}

/// Appends the steps, each behind a space, and the closing parenthesis.
fn write_steps(mut reader: Reader<'_>, out: &mut Vec<u8>) -> Result<(), AllocError>
    ensures ok { OnOk result (out.new.items
        ≡ out.old.items ++ text_behind (items_of (map step_sexpr reader.entry))) }
    ensures front { take (vec_len out.old) out.new.items ≡ out.old.items }
{
    while let Some(step) = reader.next() {
        write_step(step, out)?;
    }
    out.push_str(b")")
}

impl Part for Lemma {
    ghost use Rattle.cert_text.specs.Form.{lemma_sexpr};

    ghost sexpr = { lemma_sexpr };

    fn write(&self, out: &mut Vec<u8>) -> Result<(), AllocError> {
        out.push_str(b"(lemma ")?;
        write_clause(self.clause.as_slice(), out)?;
        write_steps(self.steps.reader(), out)
    }

    fn write_next(&self, out: &mut Vec<u8>) -> Result<(), AllocError> {
        out.push_str(b" ")?;
        self.write(out)
    }
}

/// Appends a lemma of an earlier entry, by its place.
fn write_kept(kept: Kept, out: &mut Vec<u8>) -> Result<(), AllocError>
    ensures ok { OnOk result (out.new.items ≡ out.old.items ++ text_of (kept_sexpr kept)) }
    ensures front { take (vec_len out.old) out.new.items ≡ out.old.items }
{
    out.push_str(b"(keep ")?;
    write_numeral(kept.entry as u128, out)?;
    out.push_str(b" ")?;
    write_numeral(kept.item as u128, out)?;
    out.push_str(b")")
}

impl Part for Item {
    ghost use Rattle.cert_text.specs.Form.{item_sexpr};

    ghost sexpr = { item_sexpr };

    fn write(&self, out: &mut Vec<u8>) -> Result<(), AllocError> {
        match self {
            Item::Own(lemma) => lemma.write(out),
            Item::Keep(kept) => write_kept(*kept, out),
        }
    }

    fn write_next(&self, out: &mut Vec<u8>) -> Result<(), AllocError> {
        out.push_str(b" ")?;
        self.write(out)
    }
}

impl Part for Value {
    ghost use Rattle.cert_text.specs.Form.{number_of_value};

    ghost sexpr = { number_of_value };

    fn write(&self, out: &mut Vec<u8>) -> Result<(), AllocError> {
        write_number(*self, out)
    }

    fn write_next(&self, out: &mut Vec<u8>) -> Result<(), AllocError> {
        write_number_next(*self, out)
    }
}

/// A time point.
impl Part for u32 {
    ghost use Rattle.cert_text.specs.Form.{numeral};

    ghost sexpr = { numeral };

    fn write(&self, out: &mut Vec<u8>) -> Result<(), AllocError> {
        write_numeral(u128::from(*self), out)
    }

    fn write_next(&self, out: &mut Vec<u8>) -> Result<(), AllocError> {
        out.push_str(b" ")?;
        self.write(out)
    }
}

impl Part for NamedValue {
    ghost use Rattle.cert_text.specs.Form.{value_sexpr};

    ghost sexpr = { value_sexpr };

    fn write(&self, out: &mut Vec<u8>) -> Result<(), AllocError> {
        match self {
            NamedValue::Int(n) => write_number(*n, out),
            NamedValue::Truth(true) => out.push_str(b"true"),
            NamedValue::Truth(false) => out.push_str(b"false"),
        }
    }

    fn write_next(&self, out: &mut Vec<u8>) -> Result<(), AllocError> {
        match self {
            NamedValue::Int(n) => write_number_next(*n, out),
            NamedValue::Truth(truth) => write_truth_next(*truth, out),
        }
    }
}

// Appends a space and a truth.
#[inline(never)]
fn write_truth_next(truth: bool, out: &mut Vec<u8>) -> Result<(), AllocError>
    ensures ok { OnOk result (out.new.items ≡ out.old.items ++ 32 ∷ text_of (value_sexpr (Truth truth))) }
    ensures front { take (vec_len out.old) out.new.items ≡ out.old.items }
{
    if truth {
        out.push_str(b" true")
    } else {
        out.push_str(b" false")
    }
}
