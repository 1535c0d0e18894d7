//! What a worker does, call by call.

ghost use Rattle.std.specs.Prelude.{◌≡◌, ◌≤◌, false, Some, IfSome, IfOk};
ghost use Rattle.ticket_lock.specs.Names.{lock_id, pass_view, IsPass};
ghost use Rattle.worker_visits.specs.Knowing.{Knows};
ghost use Rattle.fleet_workers_uses.specs.Passes.{IsFirst, IsSecond, IsSame};

use fleet_workers::{Put, PutVisit, Visit, claim_job, put_job, stop_trace};
use scenario_image::Scenario;
use shared_trace::{Claim, Job, Trace};
use std::alloc::{AllocError, Global};
use std::sync::Wait;
use ticket_lock::{Pass, TicketLock};
use trace_file::Entries;

/// A trace of the scenario under a lock, and the passes of workers 1 and 2.
pub fn opened(
    alloc: Global,
    scenario: &Scenario,
) -> Result<(TicketLock<Trace>, Pass<Trace>, Pass<Trace>), AllocError>
    ensures first { IfOk result (λ r. IsPass (lock_id r.0) r.1 × IsFirst scenario.now (pass_view r.1)) }
    ensures second { IfOk result (λ r. IsPass (lock_id r.0) r.2 × IsSecond scenario.now (pass_view r.2)) }
{
    let (lock, pass) = TicketLock::new(Trace::new(alloc, scenario)?, alloc)?;
    let Ok((first, second)) = pass.split(&lock) else {
        unreachable!()
    };
    Ok((lock, first, second))
}

/// The entries that were made, if there is memory for a list of them.
pub fn closed(
    lock: TicketLock<Trace>,
    scenario: &Scenario,
    first: Pass<Trace>,
    second: Pass<Trace>,
) -> Result<Entries, AllocError>
    requires first { IsPass (lock_id lock) first × IsFirst scenario.now (pass_view first) }
    requires second { IsPass (lock_id lock) second × IsSecond scenario.now (pass_view second) }
{
    let pass = first.join(&lock, second);
    let Ok(trace) = lock.close(pass) else {
        unreachable!()
    };
    match trace.into_entries() {
        Ok(entries) => Ok(entries),
        Err((_, fault)) => Err(fault),
    }
}

/// Claims, and gives a job up: whether one was got, or else the word for the answer.
pub fn word_of_claim<R: Wait>(
    rt: &R,
    lock: &TicketLock<Trace>,
    pass: Pass<Trace>,
) -> (Pass<Trace>, &'static str)
    requires pass { IsPass (lock_id lock.now) pass }
    ensures pass { IsPass (lock_id lock.now) result.0 }
    ensures same { IsSame (pass_view pass) (pass_view result.0) }
{
    let Visit { pass, next } = claim_job(rt, lock, pass);
    let word = match next {
        Ok(Claim::Got(job)) => {
            job.abandon();
            "got"
        }
        Ok(Claim::Busy) => "busy",
        Ok(Claim::Done) => "done",
        Ok(Claim::Stalled) => "stalled",
        Ok(Claim::Stopped) => "stopped",
        Err(_) => "spent",
    };
    (pass, word)
}

/// Claims: the job, where one was got.
pub fn claimed<R: Wait>(
    rt: &R,
    lock: &TicketLock<Trace>,
    pass: Pass<Trace>,
) -> (Pass<Trace>, Option<Job>)
    requires pass { IsPass (lock_id lock.now) pass }
    ensures pass { IsPass (lock_id lock.now) result.0 }
    ensures same { IsSame (pass_view pass) (pass_view result.0) }
    ensures knows { IfSome result.1 (λ job. Knows (pass_view result.0) job × (job.spent ≡ false)) }
{
    let Visit { pass, next } = claim_job(rt, lock, pass);
    match next {
        Ok(Claim::Got(job)) => (pass, Some(job)),
        Ok(Claim::Busy) => (pass, None),
        Ok(Claim::Done) => (pass, None),
        Ok(Claim::Stalled) => (pass, None),
        Ok(Claim::Stopped) => (pass, None),
        Err(_) => (pass, None),
    }
}

/// The job after at most n steps, or nothing if memory ran out.
pub fn advanced(pass: &Pass<Trace>, scenario: &Scenario, batch: u32, mut job: Job) -> Option<Job>
    requires knows { Knows (pass_view pass.now) job }
    requires ready { job.spent ≡ false }
    requires subject { (pass_view pass.now).subject ≡ Some scenario.now }
    requires batch { 1 ≤ batch }
    ensures knows { IfSome result (λ job. Knows (pass_view pass.now) job × (job.spent ≡ false)) }
{
    match job.advance(pass, scenario, batch) {
        Ok(()) => Some(job),
        Err(_) => {
            job.abandon();
            None
        }
    }
}

/// Puts the job: whether it was put.
pub fn is_put<R: Wait>(
    rt: &R,
    lock: &TicketLock<Trace>,
    pass: Pass<Trace>,
    job: Job,
) -> (Pass<Trace>, bool)
    requires pass { IsPass (lock_id lock.now) pass }
    requires knows { Knows (pass_view pass) job }
    requires ready { job.spent ≡ false }
    ensures pass { IsPass (lock_id lock.now) result.0 }
    ensures same { IsSame (pass_view pass) (pass_view result.0) }
{
    let PutVisit { pass, put } = put_job(rt, lock, pass, job);
    (pass, matches!(put, Put::Made))
}

/// Stops the trace.
pub fn stopped<R: Wait>(rt: &R, lock: &TicketLock<Trace>, pass: Pass<Trace>) -> Pass<Trace>
    requires pass { IsPass (lock_id lock.now) pass }
    ensures pass { IsPass (lock_id lock.now) result }
    ensures same { IsSame (pass_view pass) (pass_view result) }
{
    stop_trace(rt, lock, pass)
}

/// Claims, makes at most n steps, and puts them: whether they were this many of this device.
pub fn makes<R: Wait>(
    rt: &R,
    lock: &TicketLock<Trace>,
    pass: Pass<Trace>,
    scenario: &Scenario,
    batch: u32,
    device: u16,
    steps: usize,
) -> (Pass<Trace>, bool)
    requires pass { IsPass (lock_id lock.now) pass }
    requires subject { (pass_view pass).subject ≡ Some scenario.now }
    requires batch { 1 ≤ batch }
    ensures pass { IsPass (lock_id lock.now) result.0 }
    ensures same { IsSame (pass_view pass) (pass_view result.0) }
{
    let (pass, job) = claimed(rt, lock, pass);
    let Some(job) = job else {
        return (pass, false);
    };
    let Some(job) = advanced(&pass, scenario, batch, job) else {
        return (pass, false);
    };
    let is_so = job.device() == device && job.entries().len() == steps;
    let (pass, put) = is_put(rt, lock, pass, job);
    (pass, is_so && put)
}
