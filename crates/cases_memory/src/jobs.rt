//! `advance TEXT`: worker 1 claims a device of a scenario, lets it make its steps and puts them. A job that was refused
//! memory can only be given up, and its device stays unfinished.
ghost use Rattle.std.specs.Prelude.{◌≡◌, Some, IfSome, IfOk, IfErr, false};
ghost use Rattle.ticket_lock.specs.Names.{lock_id, pass_view, IsPass};
ghost use Rattle.worker_visits.specs.Knowing.{Knows};

use crate::gathering::gathered;
use crate::given::Given;
use crate::line::Line;
use crate::marks::Marks;
use fleet_workers::{PutVisit, Visit, claim_job, put_job};
use scenario_image::Scenario;
use shared_trace::{AdvanceFault, Claim, Job, Trace};
use std::alloc::{AllocError, Global};
use std::sync::Wait;
use ticket_lock::{Pass, TicketLock};

/// How many steps a job makes at most.
const BATCH: u32 = 16;

/// A trace of the scenario under a lock, and the pass of its workers.
pub fn locked(
    alloc: Global,
    scenario: &Scenario,
) -> Result<(TicketLock<Trace>, Pass<Trace>), AllocError>
    ensures pass { IfOk result (λ r. IsPass (lock_id r.0) r.1) }
    ensures subject { IfOk result (λ r. (pass_view r.1).subject ≡ Some scenario.now) }
{
    TicketLock::new(Trace::new(alloc, scenario)?, alloc)
}

/// Claims: the job, where one was got.
pub fn claimed<R: Wait>(
    rt: &R,
    lock: &TicketLock<Trace>,
    pass: Pass<Trace>,
) -> (Pass<Trace>, Option<Job>)
    requires pass { IsPass (lock_id lock.now) pass }
    ensures pass { IsPass (lock_id lock.now) result.0 }
    ensures subject { (pass_view result.0).subject ≡ (pass_view pass).subject }
    ensures knows { IfSome result.1 (λ job. Knows (pass_view result.0) job × (job.spent ≡ false)) }
{
    let Visit { pass, next } = claim_job(rt, lock, pass);
    match next {
        Ok(Claim::Got(job)) => (pass, Some(job)),
        Ok(Claim::Busy) => (pass, None),
        Ok(Claim::Done) => (pass, None),
        Ok(Claim::Stalled) => (pass, None),
        Ok(Claim::Stopped) => (pass, None),
        Err(_) => (pass, None),
    }
}

/// The job after its steps; or the job, and why it made none or not all.
pub fn advanced(
    pass: &Pass<Trace>,
    scenario: &Scenario,
    mut job: Job,
    marks: &mut Marks,
) -> Result<Job, (Job, AdvanceFault)>
    requires knows { Knows (pass_view pass.now) job }
    requires subject { (pass_view pass.now).subject ≡ Some scenario.now }
    ensures knows { IfOk result (λ job. Knows (pass_view pass.now) job × (job.spent ≡ false)) }
    ensures still { IfErr result (λ e. Knows (pass_view pass.now) e.0) }
{
    marks.begin();
    let advanced = job.advance(pass, scenario, BATCH);
    marks.end();
    match advanced {
        Ok(()) => Ok(job),
        Err(fault) => Err((job, fault)),
    }
}

/// A job that was refused memory is asked to go on, and then given up: what came then.
fn given_up(pass: &Pass<Trace>, scenario: &Scenario, job: Job, marks: &mut Marks) -> &'static str
    requires knows { Knows (pass_view pass.now) job }
    requires subject { (pass_view pass.now).subject ≡ Some scenario.now }
{
    match advanced(pass, scenario, job, marks) {
        Ok(job) => {
            job.abandon();
            "then advanced,"
        }
        Err((job, AdvanceFault::Spent)) => {
            job.abandon();
            "then spent, given up,"
        }
        Err((job, AdvanceFault::Memory)) => {
            job.abandon();
            "then memory,"
        }
    }
}

/// Lets the job make its steps, and puts them. Whether memory was refused, and what came.
fn advance_and_put<R: Wait>(
    rt: &R,
    lock: &TicketLock<Trace>,
    pass: Pass<Trace>,
    scenario: &Scenario,
    job: Job,
    marks: &mut Marks,
) -> (Pass<Trace>, bool, &'static str)
    requires pass { IsPass (lock_id lock.now) pass }
    requires knows { Knows (pass_view pass) job }
    requires subject { (pass_view pass).subject ≡ Some scenario.now }
    ensures pass { IsPass (lock_id lock.now) result.0 }
{
    match advanced(&pass, scenario, job, marks) {
        Ok(job) => {
            let PutVisit { pass, .. } = put_job(rt, lock, pass, job);
            (pass, false, "advanced,")
        }
        Err((job, AdvanceFault::Memory)) => {
            let came = given_up(&pass, scenario, job, marks);
            (pass, true, came)
        }
        Err((job, AdvanceFault::Spent)) => {
            job.abandon();
            (pass, false, "spent,")
        }
    }
}

/// Adds whether the device is at the end of its row, and how many entries there are.
fn add_trace(trace: Trace, device: u16, line: &mut Line) {
    line.add(if trace.unfinished(device) {
        "unfinished,"
    } else {
        "finished,"
    });
    match gathered(trace) {
        Ok(entries) => line.add_count("entries", entries.len() as u64),
        Err(_) => line.cut(),
    }
}

/// Claims a device of a new trace, lets it make its steps and puts them.
fn advance_once<R: Wait>(rt: &R, given: &Given, marks: &mut Marks, line: &mut Line) {
    let Ok((lock, pass)) = locked(given.alloc, given.scenario) else {
        return line.cut();
    };
    let (pass, job) = claimed(rt, &lock, pass);
    let Some(job) = job else {
        return line.add("no job");
    };
    let device = job.device();
    let (pass, is_refused, came) = advance_and_put(rt, &lock, pass, given.scenario, job, marks);
    if is_refused {
        line.refuse();
    }
    line.add(came);
    match lock.close(pass) {
        Ok(trace) => add_trace(trace, device, line),
        Err(_) => line.add("a pass is out"),
    }
}

pub fn advance<R: Wait>(rt: &R, given: &Given, marks: &mut Marks, line: &mut Line) {
    advance_once(rt, given, marks, line);
    if line.is_refused() {
        line.add("then");
        advance_once(rt, given, marks, line);
    }
}
