//! Values and points that stand in lists of their own.
ghost use Rattle.std.specs.Prelude.{◌≡◌, min, map, IfOk};
ghost use Rattle.cert_read.specs.Parts.{ascends};

use crate::error::PartError;
use crate::number::{index, whole};
use crate::part::{Part, read_each};
use best_values::Points;
use cert_text::Version;
use smt_sexpr::{SexprId, Sexprs};
use std::alloc::{AllocError, Global};
use stn_core::{NamedValues, Schedule, Value};

impl Part for Value {
    ghost use Rattle.cert_read.specs.Parts.{whole_of};

    ghost meant = { λ _. whole_of };

    fn read(
        _alloc: Global,
        _version: Version,
        table: &Sexprs,
        id: SexprId,
    ) -> Result<Value, PartError> {
        whole(table, id).ok_or(PartError::IllFormed)
    }
}

/// An index.
impl Part for usize {
    ghost use Rattle.cert_read.specs.Parts.{index_of};

    ghost meant = { λ _. index_of };

    fn read(
        _alloc: Global,
        _version: Version,
        table: &Sexprs,
        id: SexprId,
    ) -> Result<usize, PartError> {
        index(table, id).ok_or(PartError::IllFormed)
    }
}

impl Part for NamedValues {
    ghost use Rattle.cert_read.specs.Parts.{values_of};

    ghost meant = { λ _. values_of };

    fn read(
        alloc: Global,
        version: Version,
        table: &Sexprs,
        id: SexprId,
    ) -> Result<NamedValues, PartError> {
        let ids = table.items(id).ok_or(PartError::IllFormed)?;
        let values = read_each(alloc, version, table, ids)?;
        Ok(NamedValues::new(values))
    }
}

impl Part for Schedule {
    ghost use Rattle.cert_read.specs.Parts.{schedule_of};

    ghost meant = { λ _. schedule_of };

    fn read(
        alloc: Global,
        version: Version,
        table: &Sexprs,
        id: SexprId,
    ) -> Result<Schedule, PartError> {
        let ids = table.items(id).ok_or(PartError::IllFormed)?;
        let values = read_each(alloc, version, table, ids)?;
        Ok(Schedule::new(values))
    }
}

/// Whether each number is above the one before it.
fn ascend(numbers: &[usize]) -> bool
    ensures { result ≡ ascends numbers.now }
{
    let Some((first, rest)) = numbers.split_first() else {
        return true;
    };
    let mut last = *first;
    for number in rest {
        if *number <= last {
            return false;
        }
        last = *number;
    }
    true
}

/// The points with these numbers; the greatest one stands for all beyond it.
fn points_with(alloc: Global, numbers: &[usize]) -> Result<Vec<u32>, AllocError>
    ensures { IfOk result (λ points. points.items ≡ map (λ n. min n 4294967295) numbers.now) }
{
    let mut points = Vec::with_capacity(alloc, numbers.len())?;
    for number in numbers {
        points.push((*number).min(4294967295) as u32)?;
    }
    Ok(points)
}

impl Part for Points {
    ghost use Rattle.cert_read.specs.Parts.{points_of};

    ghost meant = { λ _. points_of };

    fn read(
        alloc: Global,
        version: Version,
        table: &Sexprs,
        id: SexprId,
    ) -> Result<Points, PartError> {
        let ids = table.items(id).ok_or(PartError::IllFormed)?;
        let numbers: Vec<usize> = read_each(alloc, version, table, ids)?;
        if !ascend(&numbers) {
            return Err(PartError::IllFormed);
        }
        Ok(Points::new(points_with(alloc, &numbers)?))
    }
}
