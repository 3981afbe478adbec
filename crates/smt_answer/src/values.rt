//! The texts of models, values and least values, appended to what is there. After an error of a public call what is there is as before.
ghost use Rattle.std.specs.Prelude.{◌≡◌, ◌≤◌, ◌++◌, ◌∷◌, [], length, map, take, drop, OnOk, OnErr};
ghost use Rattle.std.specs.Vec.{vec_len};
ghost use Rattle.smt_lex.specs.declared.token.TokenKind.TheVariants.{Symbol};
ghost use Rattle.smt_sexpr.specs.Tree.{Sexpr, Items};
ghost use Rattle.smt_sexpr.specs.Table.{Means, MeansEach, HasMeaning};
ghost use Rattle.smt_sexpr.specs.Shapes.{HaveMeaning};
ghost use Rattle.smt_sexpr.specs.Printing.{written};
ghost use Rattle.idl_node.specs.Sorts.{AreOfSorts};
ghost use Rattle.idl_scope.specs.Scopes.{Declaration};
ghost use Rattle.idl_term.specs.Contexts.{value_of_named};
ghost use Rattle.idl_term.specs.Scopes.{sorts_of};
ghost use Rattle.idl_term.specs.Values.{Value as Meaning};
ghost use Rattle.smt_script.specs.code.TermValues.{value_shown};
ghost use Rattle.smt_answer.specs.Texts.{number_text, truth_text, value_text, sort_text, signature_text, definition_line, definition_lines, model_lines, minimum_line, pair_text, pairs_behind, values_line};
ghost use Rattle.smt_answer.specs.code.Answers.{AreAnswers};

use bstr::ByteVec;
use idl_term::{Names, Sort};
use itoa::Buffer;
use smt_lex::is_simple_symbol;
use smt_script::TermValue;
use smt_sexpr::{SexprId, Sexprs};
use std::alloc::AllocError;
use stn_core::{NamedValue, NamedValues, Value};

/// Appends a number: a numeral, or `(- n)` below 0.
fn write_number(n: Value, out: &mut Vec<u8>) -> Result<(), AllocError>
    ensures ok { OnOk result (out.new.items ≡ out.old.items ++ number_text n) }
    ensures front { take (vec_len out.old) out.new.items ≡ out.old.items }
{
    let mut buffer = Buffer::new();
    if n >= 0 {
        return out.push_str(buffer.format(n.unsigned_abs()).as_bytes());
    }
    out.push_str(b"(- ")?;
    out.push_str(buffer.format(n.unsigned_abs()).as_bytes())?;
    out.push_str(b")")
}

fn write_minimum(minimum: Value, out: &mut Vec<u8>) -> Result<(), AllocError>
    ensures ok { OnOk result (out.new.items ≡ out.old.items ++ minimum_line minimum) }
    ensures front { take (vec_len out.old) out.new.items ≡ out.old.items }
{
    out.push_str(b"(minimum ")?;
    write_number(minimum, out)?;
    out.push_str(b")\n")
}

/// Appends the line of a least value.
pub fn minimum_text(minimum: Value, out: &mut Vec<u8>) -> Result<(), AllocError>
    ensures ok { OnOk result (out.new.items ≡ out.old.items ++ minimum_line minimum) }
    ensures err { OnErr result (out.new.items ≡ out.old.items) }
{
    let before = out.len();
    match write_minimum(minimum, out) {
        Ok(()) => Ok(()),
        Err(error) => {
            out.truncate(before);
            Err(error)
        }
    }
}

fn write_truth(truth: bool, out: &mut Vec<u8>) -> Result<(), AllocError>
    ensures ok { OnOk result (out.new.items ≡ out.old.items ++ truth_text truth) }
    ensures front { take (vec_len out.old) out.new.items ≡ out.old.items }
{
    if truth {
        out.push_str(b"true")
    } else {
        out.push_str(b"false")
    }
}

/// Appends the value of a term.
fn write_value(value: TermValue, out: &mut Vec<u8>) -> Result<(), AllocError>
    ensures ok { OnOk result (out.new.items ≡ out.old.items ++ value_text (value_shown value)) }
    ensures front { take (vec_len out.old) out.new.items ≡ out.old.items }
{
    match value {
        TermValue::Int(n) => write_number(n, out),
        TermValue::Truth(truth) => write_truth(truth, out),
    }
}

/// Appends the value of a name.
fn write_named(value: NamedValue, out: &mut Vec<u8>) -> Result<(), AllocError>
    ensures ok { OnOk result (out.new.items ≡ out.old.items ++ value_text (value_of_named value)) }
    ensures front { take (vec_len out.old) out.new.items ≡ out.old.items }
{
    match value {
        NamedValue::Int(n) => write_number(n, out),
        NamedValue::Truth(truth) => write_truth(truth, out),
    }
}

/// Appends a symbol, in bars where it needs them.
pub fn write_symbol(name: &[u8], out: &mut Vec<u8>) -> Result<(), AllocError>
    ensures ok { OnOk result (out.new.items ≡ out.old.items ++ written Symbol name.now) }
    ensures front { take (vec_len out.old) out.new.items ≡ out.old.items }
{
    if is_simple_symbol(name) {
        return out.push_str(name);
    }
    out.push_str(b"|")?;
    out.push_str(name)?;
    out.push_str(b"|")
}

fn sort_text(sort: Sort) -> &'static str
    ensures { result.now ≡ sort_text sort }
{
    match sort {
        Sort::Int => "Int",
        Sort::Bool => "Bool",
    }
}

/// Appends the line of a name up to its value.
fn write_signature(name: &[u8], sort: Sort, out: &mut Vec<u8>) -> Result<(), AllocError>
    ensures ok { OnOk result (out.new.items ≡ out.old.items ++ signature_text (record { name = name.now; sort = sort })) }
    ensures front { take (vec_len out.old) out.new.items ≡ out.old.items }
{
    out.push_str(b"  (define-fun ")?;
    write_symbol(name, out)?;
    out.push_str(b" () ")?;
    out.push_str(sort_text(sort).as_bytes())?;
    out.push_str(b" ")
}

/// Appends the line of a name with its value.
fn write_definition(
    name: &[u8],
    sort: Sort,
    value: NamedValue,
    out: &mut Vec<u8>,
) -> Result<(), AllocError>
    ensures ok { OnOk result (out.new.items
        ≡ out.old.items ++ definition_line (record { name = name.now; sort = sort }) value) }
    ensures front { take (vec_len out.old) out.new.items ≡ out.old.items }
{
    write_signature(name, sort, out)?;
    write_named(value, out)?;
    out.push_str(b")\n")?;
    Ok(())
}

fn write_definitions(
    names: &Names,
    values: &[NamedValue],
    out: &mut Vec<u8>,
) -> Result<(), AllocError>
    requires { length values.now ≡ length names.now }
    ensures ok { OnOk result (out.new.items ≡ out.old.items ++ definition_lines names.now values.now) }
    ensures front { take (vec_len out.old) out.new.items ≡ out.old.items }
{
    let sorts = names.sorts();
    for i in 0..values.len() {
        write_definition(names.name(i), sorts[i], values[i], out)?;
    }
    Ok(())
}

fn write_model(names: &Names, values: &NamedValues, out: &mut Vec<u8>) -> Result<(), AllocError>
    requires { length values.now ≡ length names.now }
    ensures ok { OnOk result (out.new.items ≡ out.old.items ++ model_lines names.now values.now) }
    ensures front { take (vec_len out.old) out.new.items ≡ out.old.items }
{
    out.push_str(b"(\n")?;
    write_definitions(names, values.as_slice(), out)?;
    out.push_str(b")\n")
}

/// Appends a model: one value of its sort for each name.
pub fn model_text(names: &Names, values: &NamedValues, out: &mut Vec<u8>) -> Result<(), AllocError>
    requires { length values.now ≡ length names.now }
    ensures ok { OnOk result (out.new.items ≡ out.old.items ++ model_lines names.now values.now) }
    ensures err { OnErr result (out.new.items ≡ out.old.items) }
{
    let before = out.len();
    match write_model(names, values, out) {
        Ok(()) => Ok(()),
        Err(error) => {
            out.truncate(before);
            Err(error)
        }
    }
}

/// Appends a term with its value.
fn write_pair(
    sexprs: &Sexprs,
    term: SexprId,
    answer: TermValue,
    out: &mut Vec<u8>,
) -> Result<(), AllocError>
    requires { HasMeaning sexprs.now term }
    ensures ok { OnOk result ((t : Sexpr) → Means sexprs.now term t
        → out.new.items ≡ out.old.items ++ pair_text t (value_shown answer)) }
    ensures front { take (vec_len out.old) out.new.items ≡ out.old.items }
{
    out.push_str(b"(")?;
    sexprs.print(term, out)?;
    out.push_str(b" ")?;
    write_value(answer, out)?;
    out.push_str(b")")?;
    Ok(())
}

/// Appends the terms behind the first with their values, and the end of the line.
fn write_pairs_behind(
    sexprs: &Sexprs,
    terms: &[SexprId],
    answers: &[TermValue],
    out: &mut Vec<u8>,
) -> Result<(), AllocError>
    requires meaning { HaveMeaning sexprs.now terms.now }
    requires counted { length answers.now ≡ length terms.now }
    requires some { 1 ≤ length terms.now }
    ensures ok { OnOk result ((value_of : Sexpr → Meaning) (ts : Items) → MeansEach sexprs.now (drop 1 terms.now) ts
        → AreAnswers value_of ts (drop 1 answers.now)
        → out.new.items ≡ out.old.items ++ pairs_behind value_of ts) }
    ensures front { take (vec_len out.old) out.new.items ≡ out.old.items }
{
    for i in 1..terms.len() {
        out.push_str(b" ")?;
        write_pair(sexprs, terms[i], answers[i], out)?;
    }
    out.push_str(b")\n")?;
    Ok(())
}

fn write_values(
    sexprs: &Sexprs,
    terms: &[SexprId],
    answers: &[TermValue],
    out: &mut Vec<u8>,
) -> Result<(), AllocError>
    requires meaning { HaveMeaning sexprs.now terms.now }
    requires counted { length answers.now ≡ length terms.now }
    ensures ok { OnOk result ((value_of : Sexpr → Meaning) (ts : Items) → MeansEach sexprs.now terms.now ts
        → AreAnswers value_of ts answers.now → out.new.items ≡ out.old.items ++ values_line value_of ts) }
    ensures front { take (vec_len out.old) out.new.items ≡ out.old.items }
{
    out.push_str(b"(")?;
    if terms.len() == 0 {
        out.push_str(b")\n")?;
        return Ok(());
    }
    write_pair(sexprs, terms[0], answers[0], out)?;
    write_pairs_behind(sexprs, terms, answers, out)?;
    Ok(())
}

/// Appends the terms with their values, one for each.
pub fn values_text(
    sexprs: &Sexprs,
    terms: &[SexprId],
    answers: &[TermValue],
    out: &mut Vec<u8>,
) -> Result<(), AllocError>
    requires meaning { HaveMeaning sexprs.now terms.now }
    requires counted { length answers.now ≡ length terms.now }
    ensures ok { OnOk result ((value_of : Sexpr → Meaning) (ts : Items) → MeansEach sexprs.now terms.now ts
        → AreAnswers value_of ts answers.now → out.new.items ≡ out.old.items ++ values_line value_of ts) }
    ensures err { OnErr result (out.new.items ≡ out.old.items) }
{
    let before = out.len();
    match write_values(sexprs, terms, answers, out) {
        Ok(()) => Ok(()),
        Err(error) => {
            out.truncate(before);
            Err(error)
        }
    }
}
