//! Searches for a schedule of the clauses on standard input (`reading.rt` has their form), in one slice and with no limit,
//! to be timed from outside (bench/search). Its words leave out mechanisms of the search (`switches.rt`). It prints the verdict, and on standard error, since that changes with each
//! choice of the search, how many conflicts and decisions there were, how many lemmas are delivered, how many steps and
//! bytes they take, and how many literals were added to the net.
#![tactic(auto)]

mod reading;
mod sizes;
mod switches;

use branch_search::{Searcher, Slice};
use inc_paths::Network;
use reading::read_problem;
use refute_tree::Lemma;
use search_guide::Policy;
use sizes::{Size, size_of_lemmas};
use std::alloc::{AllocError, Global};
use std::io::Read;
use std::{env, io};
use stn_core::{Net, Problem};
use switches::policy_of;

/// What a slice without a limit comes to.
#[derive(Clone, Copy)]
struct Outcome {
    verdict: &'static str,
    conflicts: u64,
    decisions: u64,
    size: Size,
    adds: u64,
}

fn search(alloc: Global, problem: &Problem, policy: Policy) -> Result<Outcome, AllocError> {
    let mut net = Network::new(alloc, problem.points)?;
    let handed: &[Lemma] = &[];
    let mut searcher = Searcher::with_policy(alloc, problem, policy)?;
    let answer = searcher.slice(alloc, problem, &handed, &[], u64::MAX, &mut net)?;
    let (verdict, size) = match &answer {
        Slice::Model(_, batch) => ("sat", size_of_lemmas(batch.lemmas())),
        Slice::Refuted(batch, _) => ("unsat", size_of_lemmas(batch.lemmas())),
        Slice::Split(_, batch) => ("split", size_of_lemmas(batch.lemmas())),
    };
    Ok(Outcome {
        verdict,
        conflicts: searcher.conflicts(),
        decisions: searcher.decisions(),
        size,
        adds: net.adds(),
    })
}

fn main(rt: HostRuntime) -> io::Result<()> {
    let alloc = rt.alloc();
    let words: Vec<String> = env::args(&rt)?.collect(alloc)?;
    let Some(policy) = policy_of(words.as_slice()) else {
        println!(rt; "there is no such switch")?;
        return Ok(());
    };
    let mut bytes = Vec::new(alloc);
    rt.reader().read_to_end(&mut bytes)?;
    let Some(problem) = read_problem(alloc, &bytes)? else {
        println!(rt; "these are no clauses")?;
        return Ok(());
    };
    let Outcome {
        verdict,
        conflicts,
        decisions,
        size,
        adds,
    } = search(alloc, &problem, policy)?;
    let Size {
        lemmas,
        steps,
        bytes,
    } = size;
    println!(rt; "{verdict}")?;
    eprintln!(rt;
        "conflicts={conflicts} decisions={decisions} lemmas={lemmas} steps={steps} bytes={bytes} adds={adds}"
    )?;
    Ok(())
}
