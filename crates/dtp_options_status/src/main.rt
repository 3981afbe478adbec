//! `dtp`, run once with options behind its command, to a status that is not 0.
#![tactic(auto)]

use std::process::ExitCode;

fn main(rt: HostRuntime) -> ExitCode {
    dtp_run::start(&rt)
}
