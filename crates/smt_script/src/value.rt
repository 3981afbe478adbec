//! The value of a term that was read.
ghost use Rattle.std.specs.Prelude.{◌≡◌, List, IfOk, OnErr};
ghost use Rattle.stn_core.specs.Named.{AreWithinLimit};
ghost use Rattle.idl_node.specs.Sorts.{IsAtomFor, AreOfSorts};
ghost use Rattle.idl_node.specs.Tables.{IsTableOf};
ghost use Rattle.idl_node.specs.Truth.{point_values, AreTruths};
ghost use Rattle.idl_node.specs.declared.sort.Sort.{Sort};
ghost use Rattle.idl_value.specs.CaseValues.{IsTermIn};
ghost use Rattle.idl_term.specs.Meanings.{lowered_value};
ghost use Rattle.idl_term.specs.Scopes.{shown_term};
ghost use Rattle.smt_script.specs.code.TermValues.{value_shown};

use idl_node::{Nodes, eval_on};
use idl_term::{Lowered, eval_int_on};
use std::alloc::AllocError;
use stn_core::{NamedValues, Value};

/// The value of a term.
#[derive(Clone, Copy, Debug, PartialEq, Eq)]
pub enum TermValue {
    /// Of an Int term.
    Int(Value),
    /// Of a Bool term.
    Truth(bool),
}

/// The value of a lowered term of the table, where the names have these values. `marks` tells the truth of the table's first nodes,
/// and then of as many as the term's value asks for. Where there is no memory, the marks are as they were.
pub fn term_value(
    term: &Lowered,
    nodes: &Nodes,
    values: &NamedValues,
    marks: &mut Vec<bool>,
) -> Result<TermValue, AllocError>
    requires term { (sorts : List Sort) × AreOfSorts sorts values.now × IsTableOf (IsAtomFor sorts) nodes.now
        × IsTermIn sorts nodes.now (shown_term term.now) }
    requires within { AreWithinLimit values.now }
    requires marks { AreTruths nodes.now (point_values values.now) marks.old.items }
    ensures value { IfOk result (λ v. lowered_value nodes.now values.now (shown_term term.now) ≡ value_shown v) }
    ensures marks { AreTruths nodes.now (point_values values.now) marks.new.items }
    ensures refused { OnErr result (marks.new.items ≡ marks.old.items) }
{
    match term {
        Lowered::Truth(number) => {
            let truth = eval_on(nodes, *number, values, marks)?;
            Ok(TermValue::Truth(truth))
        }
        Lowered::Number(cases) => {
            let number = eval_int_on(cases, nodes, values, marks)?;
            Ok(TermValue::Int(number))
        }
    }
}
