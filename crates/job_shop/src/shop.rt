//! Job shops in memory.
ghost use Rattle.std.specs.Prelude.{◌≡◌, ◌<◌, ◌≤◌, ◌++◌, ◌∷◌, [], length, OnOk, OnErr, slice_get, Some};
ghost use Rattle.job_shop.specs.Shops.{IsShop, operation_at, has_machine};

use std::alloc::{AllocFailed, Global};
use std::marker::Model;

/// The greatest count of jobs, and of machines.
pub const COUNT_LIMIT: u32 = 40;

/// The longest duration.
pub const DURATION_LIMIT: u32 = 1_000_000;

/// What a machine does for a job.
#[derive(Clone, Copy, Debug, PartialEq, Eq)]
pub struct Operation {
    pub machine: u32,
    pub duration: u32,
}

/// A job's operations, in the order in which they are done.
pub struct Job {
    operations: Vec<Operation>,
}

impl Drop for Job {
    fn drop(self) {
        let Job { operations } = self;
        drop(operations);
    }
}

impl Model for Job {
    ghost use Rattle.std.specs.Prelude.{List};
    ghost use Rattle.job_shop.specs.declared.shop.Operation.{Operation};

    ghost Value = { List Operation };

    ghost view = { λ j. j.operations.items };
}

impl Job {
    pub fn new(alloc: Global) -> Self
        ensures { result ≡ [] }
    {
        Job {
            operations: Vec::new(alloc),
        }
    }

    pub fn at(&self, k: usize) -> Operation
        requires { k < length self.now }
        ensures { slice_get self.now k ≡ Some result }
    {
        self.operations[k]
    }

    /// Whether an operation has the machine.
    pub fn has(&self, machine: u32) -> bool
        ensures { result ≡ has_machine machine self.now }
    {
        self.operations.iter().any(|o| o.machine == machine)
    }

    pub fn push(&mut self, operation: Operation) -> Result<(), AllocFailed<Operation>>
        ensures ok { OnOk result (self.new ≡ self.old ++ operation ∷ []) }
        ensures err { OnErr result (self.new ≡ self.old) }
    {
        self.operations.push(operation)?;
        Ok(())
    }
}

/// A job shop.
pub struct Jobs {
    machines: u32,
    jobs: Vec<Job>,
}

impl Drop for Jobs {
    fn drop(self) {
        let Jobs { machines: _, jobs } = self;
        drop(jobs);
    }
}

impl Model for Jobs {
    ghost use Rattle.job_shop.specs.Shops.{Shop, IsShop};

    ghost Value = { Shop };

    ghost view = { λ s. record { machines = s.machines; jobs = s.jobs.items } };

    ghost invariant = { λ s. IsShop (record { machines = s.machines; jobs = s.jobs.items }) };
}

impl Jobs {
    pub fn new(machines: u32, jobs: Vec<Job>) -> Self
        requires { IsShop (record { machines = machines; jobs = jobs.items }) }
        ensures { result ≡ record { machines = machines; jobs = jobs.items } }
    {
        Jobs { machines, jobs }
    }

    /// How many jobs there are.
    pub fn count(&self) -> u32
        ensures count { result ≡ length self.now.jobs }
        ensures some { 1 ≤ result }
        ensures few { result ≤ COUNT_LIMIT }
    {
        self.jobs.len() as u32
    }

    pub fn machines(&self) -> u32
        ensures count { result ≡ self.now.machines }
        ensures some { 1 ≤ result }
        ensures few { result ≤ COUNT_LIMIT }
        ensures shop { IsShop self.now }
    {
        self.machines
    }

    /// The job's operation that comes behind k others.
    pub fn operation(&self, job: u32, k: u32) -> Operation
        requires job { job < length self.now.jobs }
        requires place { k < self.now.machines }
        ensures operation { result ≡ operation_at self.now job k }
        ensures machine { result.machine < self.now.machines }
        ensures duration { result.duration ≤ DURATION_LIMIT }
    {
        self.jobs[job as usize].at(k as usize)
    }
}
