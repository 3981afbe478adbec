//! The line of an unsatisfiable core, appended to what is there.
ghost use Rattle.std.specs.Prelude.{◌≡◌, ◌++◌, ℕ, List, true, take, IfOk, OnOk, OnErr};
ghost use Rattle.std.specs.Vec.{vec_len};
ghost use Rattle.smt_script.specs.code.Shapes.{shown_name};
ghost use Rattle.smt_answer.specs.Texts.{with_name, cited_names, core_line};
ghost use Rattle.smt_answer.specs.code.Answers.{names_to_come, is_marked};

use crate::values::write_symbol;
use bstr::ByteVec;
use smt_script::State;
use std::alloc::AllocError;

/// Appends the name of a cited assertion, where it has one, and says whether the next one is the line's first.
fn write_label(label: Option<&[u8]>, is_first: bool, out: &mut Vec<u8>) -> Result<bool, AllocError>
    ensures ok { IfOk result (λ next. (names : List (List ℕ)) → out.new.items ++ names_to_come next names
        ≡ out.old.items ++ names_to_come is_first (with_name true (shown_name label.entry) names)) }
    ensures front { take (vec_len out.old) out.new.items ≡ out.old.items }
{
    let Some(name) = label else {
        return Ok(is_first);
    };
    if !is_first {
        out.push_str(b" ")?;
    }
    write_symbol(name, out)?;
    Ok(false)
}

fn write_core(state: &State<'_>, cited: &[bool], out: &mut Vec<u8>) -> Result<(), AllocError>
    ensures ok { OnOk result (out.new.items ≡ out.old.items
        ++ core_line (cited_names (is_marked cited.now) 0 state.now.labels)) }
    ensures front { take (vec_len out.old) out.new.items ≡ out.old.items }
{
    out.push_str(b"(")?;
    let mut is_first = true;
    for (number, is_cited) in cited.iter().enumerate() {
        if *is_cited {
            is_first = write_label(state.label(number), is_first, out)?;
        }
    }
    out.push_str(b")\n")
}

/// Appends the line of a core: the names of the assertions that are marked, in order, of those that have one. After an error
/// what is there is as before.
pub fn core_text(state: &State<'_>, cited: &[bool], out: &mut Vec<u8>) -> Result<(), AllocError>
    ensures ok { OnOk result (out.new.items ≡ out.old.items
        ++ core_line (cited_names (is_marked cited.now) 0 state.now.labels)) }
    ensures err { OnErr result (out.new.items ≡ out.old.items) }
{
    let before = out.len();
    match write_core(state, cited, out) {
        Ok(()) => Ok(()),
        Err(error) => {
            out.truncate(before);
            Err(error)
        }
    }
}
