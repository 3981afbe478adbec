//! `dtp`: decides Disjunctive Temporal Problems, read as SMT-LIB 2.6 scripts from standard input.
#![tactic(auto)]

use std::process::ExitCode;

fn main(rt: HostRuntime) -> ExitCode {
    dtp_run::start(&rt)
}
