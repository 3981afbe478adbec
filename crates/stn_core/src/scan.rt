ghost use Rattle.std.specs.Prelude.{length, All};
ghost use Rattle.stn_core.specs.Literal.{IsOver};
ghost use Rattle.stn_core.specs.code.Uppers.{IsUpper};

use crate::limits::Value;
use crate::literal::Literal;
use crate::lowering::lower;
use crate::tables::{Tables, read, write};
use std::alloc::AllocError;

/// Lowers along the literals that begin at a point.
fn scan(
    values: &mut [Value],
    literals: &[Literal],
    tables: &mut Tables,
    point: u32,
) -> Result<(), AllocError>
    requires over { All (IsOver (length values.old)) literals.now }
    requires upper { IsUpper (length values.old) literals.now values.old }
    ensures upper { IsUpper (length values.old) literals.now values.new }
{
    let mut number = read(&tables.heads, point as usize);
    'literals: for _turn in 0..literals.len() {
        if number == 0 || number > literals.len() {
            return Ok(());
        }
        if lower(values, literals, number - 1) {
            tables.lowered(literals[number - 1].x, number)?;
        }
        number = read(&tables.nexts, number - 1);
    }
    Ok(())
}

/// Looks at the points of the order, from its end.
pub fn scan_all(
    values: &mut [Value],
    literals: &[Literal],
    tables: &mut Tables,
) -> Result<(), AllocError>
    requires over { All (IsOver (length values.old)) literals.now }
    requires upper { IsUpper (length values.old) literals.now values.old }
    ensures upper { IsUpper (length values.old) literals.now values.new }
{
    'order: for _turn in 0..usize::MAX {
        match tables.order.pop() {
            None => return Ok(()),
            Some(point) => {
                write(&mut tables.marks, point as usize, 0);
                write(&mut tables.waiting, point as usize, 0);
                scan(values, literals, tables, point)?;
            }
        }
    }
    Ok(())
}
