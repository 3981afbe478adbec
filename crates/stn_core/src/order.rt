ghost use Rattle.std.specs.Prelude.{length, All};
ghost use Rattle.stn_core.specs.Literal.{IsOver};
ghost use Rattle.stn_core.specs.code.Uppers.{IsUpper};

use crate::limits::Value;
use crate::literal::Literal;
use crate::lowering::fails;
use crate::tables::{Tables, read, write};
use std::alloc::AllocError;

/// One step along the path, over literals that fail. The answer is a point to which the path comes back.
fn step(
    values: &[Value],
    literals: &[Literal],
    tables: &mut Tables,
    point: u32,
) -> Result<Option<u32>, AllocError>
    requires over { All (IsOver (length values.now)) literals.now }
    requires upper { IsUpper (length values.now) literals.now values.now }
{
    let number = tables.turn(point);
    if number == 0 || number > literals.len() {
        tables.leave(point)?;
        return Ok(None);
    }
    if !fails(values, literals, number - 1) {
        return Ok(None);
    }
    let x = literals[number - 1].x;
    let mark = read(&tables.marks, x as usize);
    if mark < 2 {
        write(&mut tables.tree, x as usize, number);
    }
    if mark == 1 {
        return Ok(Some(x));
    }
    if mark == 0 {
        tables.enter(x)?;
    }
    Ok(None)
}

/// Puts the points into the order that failing literals lead to from a point. The answer is a point to which they lead back.
fn explore(
    values: &[Value],
    literals: &[Literal],
    tables: &mut Tables,
    root: u32,
) -> Result<Option<u32>, AllocError>
    requires over { All (IsOver (length values.now)) literals.now }
    requires upper { IsUpper (length values.now) literals.now values.now }
{
    tables.enter(root)?;
    'steps: for _turn in 0..usize::MAX {
        let point = match tables.path.as_slice().last() {
            None => return Ok(None),
            Some(point) => *point,
        };
        if let Some(back) = step(values, literals, tables, point)? {
            return Ok(Some(back));
        }
    }
    Ok(None)
}

/// The same from all points that wait.
pub fn sort(
    values: &[Value],
    literals: &[Literal],
    tables: &mut Tables,
) -> Result<Option<u32>, AllocError>
    requires over { All (IsOver (length values.now)) literals.now }
    requires upper { IsUpper (length values.now) literals.now values.now }
{
    'roots: for _turn in 0..usize::MAX {
        match tables.active.pop() {
            None => return Ok(None),
            Some(root) => {
                let here = root as usize;
                if read(&tables.waiting, here) == 1 && read(&tables.marks, here) == 0 {
                    if let Some(back) = explore(values, literals, tables, root)? {
                        return Ok(Some(back));
                    }
                }
            }
        }
    }
    Ok(None)
}
