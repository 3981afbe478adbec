//! The line of assumptions that have no solution together, appended to what is there.
ghost use Rattle.std.specs.Prelude.{◌≡◌, ◌++◌, map, take, IfOk, OnOk, OnErr};
ghost use Rattle.std.specs.Vec.{vec_len};
ghost use Rattle.smt_sexpr.specs.Tree.{Items};
ghost use Rattle.smt_sexpr.specs.Shapes.{items_of};
ghost use Rattle.smt_sexpr.specs.Printing.{text_of};
ghost use Rattle.smt_script.specs.code.Shapes.{shown_literal};
ghost use Rattle.smt_answer.specs.Texts.{cited_items, assumptions_line};
ghost use Rattle.smt_answer.specs.code.Answers.{items_to_come, with_found, found_literal, is_marked};

use crate::values::write_symbol;
use bstr::ByteVec;
use smt_script::AssumedLiteral;
use std::alloc::AllocError;

/// Appends an assumption as it was written.
fn write_literal(literal: &AssumedLiteral<'_>, out: &mut Vec<u8>) -> Result<(), AllocError>
    ensures ok { OnOk result (out.new.items ≡ out.old.items ++ text_of (shown_literal literal.now)) }
    ensures front { take (vec_len out.old) out.new.items ≡ out.old.items }
{
    if !literal.is_negated {
        return write_symbol(literal.name, out);
    }
    out.push_str(b"(not ")?;
    write_symbol(literal.name, out)?;
    out.push_str(b")")
}

/// Appends a cited assumption, where there is one, and says whether the next one is the line's first.
fn write_found(
    literal: Option<&AssumedLiteral<'_>>,
    is_first: bool,
    out: &mut Vec<u8>,
) -> Result<bool, AllocError>
    ensures ok { IfOk result (λ next. (items : Items) → out.new.items ++ items_to_come next items
        ≡ out.old.items ++ items_to_come is_first (with_found (found_literal literal.entry) items)) }
    ensures front { take (vec_len out.old) out.new.items ≡ out.old.items }
{
    let Some(literal) = literal else {
        return Ok(is_first);
    };
    if !is_first {
        out.push_str(b" ")?;
    }
    write_literal(literal, out)?;
    Ok(false)
}

fn write_assumptions(
    literals: &[AssumedLiteral<'_>],
    cited: &[bool],
    out: &mut Vec<u8>,
) -> Result<(), AllocError>
    ensures ok { OnOk result (out.new.items ≡ out.old.items
        ++ assumptions_line (cited_items (is_marked cited.now) 0 (items_of (map shown_literal literals.now)))) }
    ensures front { take (vec_len out.old) out.new.items ≡ out.old.items }
{
    out.push_str(b"(")?;
    let mut is_first = true;
    for (number, is_cited) in cited.iter().enumerate() {
        if *is_cited {
            is_first = write_found(literals.get(number), is_first, out)?;
        }
    }
    out.push_str(b")\n")
}

/// Appends the line of the assumptions that are marked, in order, as they were written. After an error what is there is as
/// before.
pub fn assumptions_text(
    literals: &[AssumedLiteral<'_>],
    cited: &[bool],
    out: &mut Vec<u8>,
) -> Result<(), AllocError>
    ensures ok { OnOk result (out.new.items ≡ out.old.items
        ++ assumptions_line (cited_items (is_marked cited.now) 0 (items_of (map shown_literal literals.now)))) }
    ensures err { OnErr result (out.new.items ≡ out.old.items) }
{
    let before = out.len();
    match write_assumptions(literals, cited, out) {
        Ok(()) => Ok(()),
        Err(error) => {
            out.truncate(before);
            Err(error)
        }
    }
}
