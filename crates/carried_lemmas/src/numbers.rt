//! Of each clause of an earlier problem the number in the new one.
ghost use Rattle.std.specs.Prelude.{IfOk};
ghost use Rattle.carried_lemmas.specs.Carried.{AreEqualAt};
ghost use Rattle.carried_lemmas.specs.code.Carrying.{HasFirsts};

use std::alloc::{AllocError, Global};
use std::collections::HashMap;
use stn_core::{Clause, Literal};

// Of each clause the number of the first that equals it: the later ones are put in before it.
fn first_numbers<'a>(
    alloc: Global,
    clauses: &'a [Clause],
) -> Result<HashMap<&'a [Literal], usize>, AllocError>
    ensures { IfOk result (HasFirsts clauses.now) }
{
    let mut firsts = HashMap::new(alloc);
    let mut number = clauses.len();
    'back: while number > 0 {
        number -= 1;
        firsts.insert(clauses[number].as_slice(), number)?;
    }
    Ok(firsts)
}

/// For each old clause the number of the first new one that equals it. It goes over the text of each list once.
pub fn numbers_in(
    alloc: Global,
    old: &[Clause],
    new: &[Clause],
) -> Result<Vec<Option<usize>>, AllocError>
    ensures { IfOk result (λ numbers. AreEqualAt old.now new.now numbers.items) }
{
    let firsts = first_numbers(alloc, new)?;
    let mut numbers = Vec::with_capacity(alloc, old.len())?;
    for clause in old {
        let number = firsts.get(clause.as_slice()).copied();
        numbers.push(number)?;
    }
    Ok(numbers)
}
