//! Sums and comparisons of one or two Int terms, for which no lists are made. After an error the table may be longer than
//! before it: the caller cuts it.
ghost use Rattle.std.specs.Prelude.{◌≡◌, ◌∷◌, [], length, map, take};
ghost use Rattle.idl_cases.specs.Guarded.{plain};
ghost use Rattle.idl_apply.specs.Applied.{related_numbers};
ghost use Rattle.idl_apply.specs.code.Applying.{SumsTerms};
ghost use Rattle.idl_apply.specs.code.Shapes.{Lowers};

use crate::arithmetic::total;
use crate::choices::sum_terms;
use crate::comparing::Relation;
use crate::error::TermError;
use crate::operator::Sign;
use crate::pairing::compare_cases;
use idl_cases::Cases;
use idl_linear::Linear;
use idl_node::Nodes;
use idl_scope::Lowered;
use std::alloc::Global;

/// The sum of terms without conditions.
fn sum_plain(alloc: Global, sign: Sign, terms: &[&Linear]) -> Result<Cases, TermError>
    ensures { SumsTerms sign (map (λ l. plain l.now) terms.now) result }
{
    let sum = total(alloc, sign, terms)?;
    Ok(Cases::plain(sum))
}

/// `+` or `-` of one term.
pub(crate) fn sum_one(alloc: Global, sign: Sign, term: &Cases) -> Result<Cases, TermError>
    ensures { SumsTerms sign (term.now ∷ []) result }
{
    match term.plain_linear() {
        Some(linear) => sum_plain(alloc, sign, [linear].as_slice()),
        None => sum_terms(alloc, sign, [term].as_slice()),
    }
}

/// `+` or `-` of two terms.
pub(crate) fn sum_two(
    alloc: Global,
    sign: Sign,
    first: &Cases,
    second: &Cases,
) -> Result<Cases, TermError>
    ensures { SumsTerms sign (first.now ∷ second.now ∷ []) result }
{
    match (first.plain_linear(), second.plain_linear()) {
        (Some(a), Some(b)) => sum_plain(alloc, sign, [a, b].as_slice()),
        _ => sum_terms(alloc, sign, [first, second].as_slice()),
    }
}

/// Two terms in the relation.
pub(crate) fn relate_two(
    alloc: Global,
    relation: Relation,
    nodes: &mut Nodes,
    first: &Cases,
    second: &Cases,
) -> Result<Lowered, TermError>
    ensures makes { Lowers nodes.new (related_numbers relation nodes.old (first.now ∷ second.now ∷ [])) result }
    ensures front { take (length nodes.old) nodes.new ≡ nodes.old }
{
    let number = compare_cases(alloc, nodes, relation, first, second)?;
    Ok(Lowered::Truth(number))
}
