//! The printer: the text of an s-expression, with the open lists on a stack of its own.
ghost use Rattle.std.specs.Prelude.{◌≡◌, ◌++◌, ◌∷◌, [], List, ℕ, take, OnOk, if◌then◌else◌, ◌==◌};
ghost use Rattle.std.specs.Vec.{vec_len};
ghost use Rattle.smt_lex.specs.declared.token.TokenKind.{TokenKind as Kind};
ghost use Rattle.smt_sexpr.specs.Tree.{Sexpr, Items, leaf, list};
ghost use Rattle.smt_sexpr.specs.Table.{Means, HasMeaning};
ghost use Rattle.smt_sexpr.specs.Printing.{written, text_of};

use crate::node::SexprId;
use crate::sexprs::Sexprs;
use smt_lex::{TokenKind, is_simple_symbol};
use std::alloc::{AllocError, Global};

/// A list that is being written, and the number of its items that have been.
#[derive(Clone, Copy)]
struct OpenList {
    id: SexprId,
    next: usize,
}

/// Appends a leaf's text, in bars where it needs them.
fn write_leaf(kind: TokenKind, text: &[u8], out: &mut Vec<u8>) -> Result<(), AllocError>
    ensures ok { OnOk result (out.new.items ≡ out.old.items ++ written kind text.now) }
    ensures front { take (vec_len out.old) out.new.items ≡ out.old.items }
{
    match kind {
        TokenKind::Symbol => {
            if is_simple_symbol(text) {
                out.extend_from_slice(text)?;
            } else {
                out.push(b'|')?;
                out.extend_from_slice(text)?;
                out.push(b'|')?;
            }
        }
        _ => out.extend_from_slice(text)?,
    }
    Ok(())
}

/// Appends the space before an item, which the first one of a list has not.
fn separate(next: usize, out: &mut Vec<u8>) -> Result<(), AllocError>
    ensures ok { OnOk result (out.new.items ≡ out.old.items ++ (if next == 0 then [] else 32 ∷ [])) }
    ensures front { take (vec_len out.old) out.new.items ≡ out.old.items }
{
    if next > 0 {
        out.push(b' ')?;
    }
    Ok(())
}

/// Appends a leaf, or opens a list.
fn begin(
    table: &Sexprs,
    id: SexprId,
    stack: &mut Vec<OpenList>,
    out: &mut Vec<u8>,
) -> Result<(), AllocError>
    requires { HasMeaning table.now id }
    ensures leaf { OnOk result ((kind : Kind) (text : List ℕ) → Means table.now id (leaf kind text)
        → (out.new.items ≡ out.old.items ++ written kind text) × (stack.new.items ≡ stack.old.items)) }
    ensures list { OnOk result ((xs : Items) → Means table.now id (list xs)
        → (out.new.items ≡ out.old.items ++ 40 ∷ [])
        × (stack.new.items ≡ stack.old.items ++ record { id = id; next = 0 } ∷ [])) }
    ensures front { take (vec_len out.old) out.new.items ≡ out.old.items }
{
    match table.leaf(id) {
        Some((kind, text)) => write_leaf(kind, text, out),
        None => {
            out.push(b'(')?;
            stack.push(OpenList { id, next: 0 })?;
            Ok(())
        }
    }
}

/// Appends an s-expression; when memory ends, perhaps a part of it.
pub(crate) fn write(
    alloc: Global,
    table: &Sexprs,
    id: SexprId,
    out: &mut Vec<u8>,
) -> Result<(), AllocError>
    requires { HasMeaning table.now id }
    ensures ok { OnOk result ((x : Sexpr) → Means table.now id x
        → out.new.items ≡ out.old.items ++ text_of x) }
    ensures front { take (vec_len out.old) out.new.items ≡ out.old.items }
{
    let mut stack: Vec<OpenList> = Vec::new(alloc);
    begin(table, id, &mut stack, out)?;
    'lists: while let Some(list) = stack.pop() {
        let items = table.items(list.id).unwrap_or(&[]);
        match items.get(list.next) {
            None => out.push(b')')?,
            Some(item) => {
                separate(list.next, out)?;
                stack.push(OpenList {
                    id: list.id,
                    next: list.next + 1,
                })?;
                begin(table, *item, &mut stack, out)?;
            }
        }
    }
    Ok(())
}
