//! The lines that are written.
ghost use Rattle.std.specs.Prelude.{◌≡◌, IfOk, string_bytes};
ghost use Rattle.dtp_bench.specs.Lines.{plan_line, names_line, clauses_line};
ghost use Rattle.dtp_bench.specs.Benches.{plan_of};
ghost use Rattle.dtp_bench.specs.Lines as spec;

use crate::numbers::PlanNumbers;
use smt_script::Satisfiability;
use std::alloc::{AllocError, Global};

/// The line of the four numbers.
#[tactic(auto, unfolding(crate::specs::Lines::plan_line))]
pub fn plan_line(alloc: Global, plan: PlanNumbers) -> Result<String, AllocError>
    ensures { IfOk result (λ line. string_bytes line ≡ plan_line (plan_of plan)) }
{
    format!(in alloc;
        "jobs {} machines {} start {} deadline {}\n",
        plan.jobs, plan.machines, plan.start, plan.deadline
    )
}

#[tactic(auto, unfolding(crate::specs::Lines::names_line))]
pub fn names_line(alloc: Global, names: u64) -> Result<String, AllocError>
    ensures { IfOk result (λ line. string_bytes line ≡ names_line names) }
{
    format!(in alloc; "names {names}\n")
}

#[tactic(auto, unfolding(crate::specs::Lines::clauses_line))]
pub fn clauses_line(alloc: Global, clauses: u64) -> Result<String, AllocError>
    ensures { IfOk result (λ line. string_bytes line ≡ clauses_line clauses) }
{
    format!(in alloc; "clauses {clauses}\n")
}

#[tactic(auto, unfolding(crate::specs::Lines::verdict_line))]
pub fn verdict_line(verdict: Satisfiability) -> &'static [u8]
    ensures { result.now ≡ spec.verdict_line verdict }
{
    match verdict {
        Satisfiability::Sat => b"verdict sat\n",
        Satisfiability::Unsat => b"verdict unsat\n",
    }
}

/// The last line.
#[tactic(auto, unfolding(crate::specs::Lines::accepted_line))]
pub fn accepted_line() -> &'static [u8]
    ensures { result.now ≡ spec.accepted_line }
{
    b"check accepted\n"
}
