//! The assumptions of a `check-sat-assuming`: symbols, and symbols behind a `not`.
ghost use Rattle.std.specs.Prelude.{◌≡◌, map, true, false, IfOk, MatchOption, option_map};
ghost use Rattle.std.specs.Vec.{vec_len};
ghost use Rattle.smt_sexpr.specs.Tree.{Sexpr, Items};
ghost use Rattle.smt_sexpr.specs.Table.{Means, MeansEach, HasMeaning};
ghost use Rattle.smt_sexpr.specs.Shapes.{HaveMeaning, items_of};
ghost use Rattle.smt_script.specs.Commands.{is_literal, are_literals};
ghost use Rattle.smt_script.specs.code.Shapes.{shown_literal, LiteralIs};

use smt_sexpr::{SexprId, Sexprs};
use std::alloc::{AllocError, Global};

/// A symbol, or one behind a `not`, as it is written. The name is without bars.
#[derive(Clone, Copy, Debug, PartialEq, Eq)]
pub struct AssumedLiteral<'a> {
    pub name: &'a [u8],
    pub is_negated: bool,
}

/// The literal, where the s-expression is one.
fn literal_of<'a>(sexprs: &Sexprs<'a>, id: SexprId) -> Option<AssumedLiteral<'a>>
    requires { HasMeaning sexprs.now id }
    ensures { (x : Sexpr) → Means sexprs.now id x → LiteralIs x result }
{
    if let Some(name) = sexprs.symbol(id) {
        return Some(AssumedLiteral {
            name,
            is_negated: false,
        });
    }
    match sexprs.headed(id) {
        Some((head, [name])) if head == b"not".as_slice() => {
            let name = sexprs.symbol(*name)?;
            Some(AssumedLiteral {
                name,
                is_negated: true,
            })
        }
        _ => None,
    }
}

/// Whether each of the s-expressions is a literal.
pub fn are_literals(sexprs: &Sexprs<'_>, ids: &[SexprId]) -> bool
    requires { HaveMeaning sexprs.now ids.now }
    ensures { (xs : Items) → MeansEach sexprs.now ids.now xs → result ≡ are_literals xs }
{
    for id in ids {
        match literal_of(sexprs, *id) {
            Some(_) => {}
            None => return false,
        }
    }
    true
}

/// The literals that the s-expressions are.
pub fn literals_of<'a>(
    alloc: Global,
    sexprs: &Sexprs<'a>,
    ids: &[SexprId],
) -> Result<Vec<AssumedLiteral<'a>>, AllocError>
    requires { (xs : Items) × MeansEach sexprs.now ids.now xs × (are_literals xs ≡ true) }
    ensures { IfOk result (λ literals. (xs : Items) → MeansEach sexprs.now ids.now xs → are_literals xs ≡ true
        → items_of (map shown_literal literals.items) ≡ xs) }
{
    let mut literals = Vec::new(alloc);
    for id in ids {
        match literal_of(sexprs, *id) {
            Some(literal) => literals.push(literal)?,
            None => unreachable!(),
        }
    }
    Ok(literals)
}
