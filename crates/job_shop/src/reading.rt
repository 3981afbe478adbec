//! Reads an instance.
ghost use Rattle.std.specs.Prelude.{◌≡◌, ◌≤◌, Ok, Err, IfOk, IfErr};
ghost use Rattle.job_shop.specs.Shops.{IsJob, IsShop};
ghost use Rattle.job_shop.specs.code.Reading.{IsOperation, rest_of, ExplainsJob};
ghost use Rattle.job_shop.specs.Instances.{next_operation, next_job, shop_in, ExplainsText};

use crate::fault::{JobError, JobFault, JobRefusal};
use crate::shop::{COUNT_LIMIT, DURATION_LIMIT, Job, Jobs, Operation};
use crate::words::Words;
use std::alloc::Global;

/// The next operation of a job that has these already.
#[tactic(auto, using(crate::proofs::NumberSteps::no_machine, crate::proofs::NumberSteps::machine_twice, crate::proofs::NumberSteps::no_duration, crate::proofs::NumberSteps::operation_found))]
fn next_operation(words: &mut Words, machines: u32, job: &Job) -> Result<Operation, JobRefusal>
    requires { 1 ≤ machines }
    ensures bytes { words.new.bytes.now ≡ words.old.bytes.now }
    ensures ok { IfOk result (λ o. next_operation machines job.now (rest_of words.old.bytes.now words.old.place words.old.number)
        ≡ Ok (o, rest_of words.old.bytes.now words.new.place words.new.number)) }
    ensures fits { IfOk result (λ o. IsOperation machines job.now o) }
    ensures err { IfErr result (λ why. next_operation machines job.now
        (rest_of words.old.bytes.now words.old.place words.old.number) ≡ Err why) }
{
    let number = words.number;
    let machine = words.next_number(0, machines - 1)?;
    if job.has(machine) {
        return Err(JobRefusal {
            number,
            fault: JobFault::MachineTwice,
        });
    }
    let duration = words.next_number(0, DURATION_LIMIT)?;
    Ok(Operation { machine, duration })
}

/// The next job.
fn next_job(alloc: Global, words: &mut Words, machines: u32) -> Result<Job, JobError>
    requires { 1 ≤ machines }
    ensures bytes { words.new.bytes.now ≡ words.old.bytes.now }
    ensures ok { IfOk result (λ job. next_job machines (rest_of words.old.bytes.now words.old.place words.old.number)
        ≡ Ok (job, rest_of words.old.bytes.now words.new.place words.new.number)) }
    ensures fits { IfOk result (λ job. IsJob machines job) }
    ensures err { IfErr result (ExplainsJob (next_job machines (rest_of words.old.bytes.now words.old.place words.old.number))) }
{
    let mut job = Job::new(alloc);
    'operations: for _i in 0..machines {
        let operation = next_operation(words, machines, &job)?;
        job.push(operation)?;
    }
    Ok(job)
}

/// The job shop that the bytes are: words of digits, split at tabs, line ends and spaces. The first is the number of jobs,
/// the second that of machines, 1 to 40 each; then come for each job as many pairs of machine, from 0, and duration, up to
/// 1,000,000, as there are machines.
pub fn read_jobs(alloc: Global, bytes: &[u8]) -> Result<Jobs, JobError>
    ensures ok { IfOk result (λ shop. shop_in bytes.now ≡ Ok shop) }
    ensures within { IfOk result (λ shop. IsShop shop) }
    ensures err { IfErr result (ExplainsText (shop_in bytes.now)) }
{
    let mut words = Words::new(bytes);
    let count = words.next_number(1, COUNT_LIMIT)?;
    let machines = words.next_number(1, COUNT_LIMIT)?;
    let mut jobs = Vec::new(alloc);
    'jobs: for _i in 0..count {
        let job = next_job(alloc, &mut words, machines)?;
        jobs.push(job)?;
    }
    if !words.is_over() {
        return Err(JobError::Refused(JobRefusal {
            number: words.number,
            fault: JobFault::TooManyNumbers,
        }));
    }
    Ok(Jobs::new(machines, jobs))
}
