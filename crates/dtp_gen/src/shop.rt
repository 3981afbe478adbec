ghost use Rattle.std.specs.Prelude.{◌≡◌, ◌<◌, ◌≤◌, ◌+◌, IfOk};
ghost use Rattle.dtp_gen.specs.Plans.{job_draw, first_machine, duration, operation_on};

use crate::draws::draws;
use std::alloc::{AllocError, Global};
use std::marker::Model;

/// The greatest count of jobs, and of machines.
pub const COUNT_LIMIT: u32 = 40;

/// A plan with its draws.
pub struct Shop {
    jobs: u32,
    machines: u32,
    start: u32,
    deadline: u32,
    /// for each job one for its first machine, and one for each duration
    draws: Vec<u32>,
}

impl Drop for Shop {
    fn drop(self) {
        let Shop {
            jobs: _,
            machines: _,
            start: _,
            deadline: _,
            draws,
        } = self;
        drop(draws);
    }
}

impl Model for Shop {
    ghost use Rattle.dtp_gen.specs.Plans.{Plan};
    ghost use Rattle.dtp_gen.specs.code.Shops.{IsShop};

    ghost Value = { Plan };

    ghost view = { λ s. record {
      jobs = s.jobs;
      machines = s.machines;
      start = s.start;
      deadline = s.deadline;
    } };

    ghost invariant = { λ s. IsShop s.jobs s.machines s.start s.draws.items };
}

impl Shop {
    pub fn new(
        alloc: Global,
        jobs: u32,
        machines: u32,
        start: u32,
        deadline: u32,
    ) -> Result<Self, AllocError>
        requires jobs { jobs ≤ COUNT_LIMIT }
        requires some { 1 ≤ machines }
        requires machines { machines ≤ COUNT_LIMIT }
        ensures { IfOk result (λ shop. shop
            ≡ record { jobs = jobs; machines = machines; start = start; deadline = deadline }) }
    {
        Ok(Shop {
            jobs,
            machines,
            start,
            deadline,
            draws: draws(alloc, jobs * (machines + 1), start)?,
        })
    }

    pub fn jobs(&self) -> u32
        ensures count { result ≡ self.now.jobs }
        ensures few { result ≤ COUNT_LIMIT }
    {
        self.jobs
    }

    pub fn machines(&self) -> u32
        ensures count { result ≡ self.now.machines }
        ensures some { 1 ≤ result }
        ensures few { result ≤ COUNT_LIMIT }
    {
        self.machines
    }

    pub fn deadline(&self) -> u32
        ensures { result ≡ self.now.deadline }
    {
        self.deadline
    }

    // The job's draw at a place of its own.
    fn draw(&self, job: u32, place: u32) -> u32
        requires job { job < self.now.jobs }
        requires place { place ≤ self.now.machines }
        ensures { result ≡ job_draw self.now job place }
    {
        self.draws[(job * (self.machines + 1) + place) as usize]
    }

    fn first_machine(&self, job: u32) -> u32
        requires { job < self.now.jobs }
        ensures first { result ≡ first_machine self.now job }
        ensures within { result < self.now.machines }
    {
        self.draw(job, 0) % self.machines
    }

    /// How long the job's operation takes.
    pub fn duration(&self, job: u32, k: u32) -> u32
        requires job { job < self.now.jobs }
        requires place { k < self.now.machines }
        ensures { result ≡ duration self.now job k }
    {
        let place = job * (self.machines + 1) + 1 + k;
        1 + self.draws[place as usize] % 99
    }

    /// Which of the job's operations runs on the machine.
    pub fn operation_on(&self, machine: u32, job: u32) -> u32
        requires job { job < self.now.jobs }
        requires machine { machine < self.now.machines }
        ensures operation { result ≡ operation_on self.now machine job }
        ensures within { result < self.now.machines }
    {
        (machine + (self.machines - self.first_machine(job))) % self.machines
    }
}
