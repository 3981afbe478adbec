//! The clauses of a reduced problem, by where they come from.
ghost use Rattle.std.specs.Prelude.{All, IfOk, IfSome};
ghost use Rattle.stn_core.specs.Literal.{IsOver};
ghost use Rattle.refute_tree.specs.Batches.{LemmaIsOver};
ghost use Rattle.reduced_problem.specs.Reduced.{IsFrom, AreFrom};

use atom_elimination::Origin;
use refute_tree::Lemma;
use std::alloc::{AllocError, Global};
use stn_core::{Clause, Literal, Problem};

fn clause_from<'a>(
    problem: &'a Problem,
    lemmas: &'a [Lemma],
    origin: Origin,
) -> Option<&'a [Literal]>
    requires over { All (LemmaIsOver problem.now.points) lemmas.now }
    ensures from { IfSome result (λ clause. IsFrom problem.now.clauses lemmas.now origin clause.now) }
    ensures over { IfSome result (λ clause. All (IsOver problem.now.points) clause.now) }
{
    match origin {
        Origin::Input(i) => {
            let clause = problem.clauses.as_slice().get(i)?;
            Some(clause.as_slice())
        }
        Origin::Lemma(j) => {
            let lemma = lemmas.get(j)?;
            Some(lemma.clause.as_slice())
        }
    }
}

/// The clauses that come from there, if all of these are there.
pub(crate) fn clauses_from(
    alloc: Global,
    problem: &Problem,
    lemmas: &[Lemma],
    origins: &[Origin],
) -> Result<Option<Vec<Clause>>, AllocError>
    requires over { All (LemmaIsOver problem.now.points) lemmas.now }
    ensures from { IfOk result (λ found. IfSome found (λ clauses.
        AreFrom problem.now.clauses lemmas.now origins.now clauses.items)) }
    ensures over { IfOk result (λ found. IfSome found (λ clauses.
        All (λ clause. All (IsOver problem.now.points) clause) clauses.items)) }
{
    let mut clauses = Vec::with_capacity(alloc, origins.len())?;
    for origin in origins {
        let Some(clause) = clause_from(problem, lemmas, *origin) else {
            return Ok(None);
        };
        clauses.push(Clause::from_slice(alloc, clause)?)?;
    }
    Ok(Some(clauses))
}
