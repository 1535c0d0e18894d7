//! Rows of calls, each over a trace of its own. Of each it is told whether all answers were those awaited.

ghost use Rattle.ticket_lock.specs.Names.{lock_id, pass_view, IsPass};
ghost use Rattle.fleet_workers_uses.specs.Passes.{IsFirst, IsSecond};

use crate::scenes::{EXCHANGE, SECONDS, scenario_of};
use crate::turns::{advanced, claimed, closed, is_put, makes, opened, stopped, word_of_claim};
use scenario_image::Scenario;
use shared_trace::Trace;
use std::alloc::{AllocError, Global};
use std::sync::Wait;
use ticket_lock::{Pass, TicketLock};
use trace_file::Entry;

/// Whether the entries are those of this worker, device and step, one by one.
fn are(entries: &[Entry], awaited: &[(u16, u16, u32)]) -> bool {
    if entries.len() != awaited.len() {
        return false;
    }
    for (entry, it) in entries.iter().zip(awaited.iter()) {
        if entry.worker != it.0 || entry.device != it.1 || entry.step != it.2 {
            return false;
        }
    }
    true
}

/// Worker 2 finds no device while device 0 is out, which has made the post that device 1 needs.
fn exchange<R: Wait>(
    rt: &R,
    lock: &TicketLock<Trace>,
    one: Pass<Trace>,
    two: Pass<Trace>,
    scenario: &Scenario,
) -> (Pass<Trace>, Pass<Trace>, bool)
    requires first { IsPass (lock_id lock.now) one × IsFirst scenario.now (pass_view one) }
    requires second { IsPass (lock_id lock.now) two × IsSecond scenario.now (pass_view two) }
    ensures first { IsPass (lock_id lock.now) result.0 × IsFirst scenario.now (pass_view result.0) }
    ensures second { IsPass (lock_id lock.now) result.1 × IsSecond scenario.now (pass_view result.1) }
{
    let (one, job) = claimed(rt, lock, one);
    let Some(job) = job else {
        return (one, two, false);
    };
    let Some(job) = advanced(&one, scenario, 16, job) else {
        return (one, two, false);
    };
    let is_one_step = job.device() == 0 && job.entries().len() == 1;
    let (two, found) = word_of_claim(rt, lock, two);
    let (one, put) = is_put(rt, lock, one, job);
    (one, two, is_one_step && put && found == "busy")
}

/// What follows: device 1 makes both of its steps, and device 0 its last one.
fn exchanged<R: Wait>(
    rt: &R,
    lock: &TicketLock<Trace>,
    one: Pass<Trace>,
    two: Pass<Trace>,
    scenario: &Scenario,
) -> (Pass<Trace>, Pass<Trace>, bool)
    requires first { IsPass (lock_id lock.now) one × IsFirst scenario.now (pass_view one) }
    requires second { IsPass (lock_id lock.now) two × IsSecond scenario.now (pass_view two) }
    ensures first { IsPass (lock_id lock.now) result.0 × IsFirst scenario.now (pass_view result.0) }
    ensures second { IsPass (lock_id lock.now) result.1 × IsSecond scenario.now (pass_view result.1) }
{
    let (two, second) = makes(rt, lock, two, scenario, 16, 1, 2);
    let (one, third) = makes(rt, lock, one, scenario, 16, 0, 1);
    let (one, found) = word_of_claim(rt, lock, one);
    (one, two, second && third && found == "done")
}

/// A worker that finds no device, and what each makes once there is one.
pub fn is_exchanged<R: Wait>(rt: &R, alloc: Global) -> Result<bool, AllocError> {
    let Some(scenario) = scenario_of(alloc, EXCHANGE) else {
        return Ok(false);
    };
    let (lock, one, two) = opened(alloc, &scenario)?;
    let (one, two, first) = exchange(rt, &lock, one, two, &scenario);
    let (one, two, then) = exchanged(rt, &lock, one, two, &scenario);
    let entries = closed(lock, &scenario, one, two)?;
    let awaited = [(1, 0, 0), (2, 1, 0), (2, 1, 1), (1, 0, 1)];
    Ok(first && then && are(entries.as_slice(), &awaited))
}

/// A trace is stopped while device 0 is out: no claim gets a device, and the job is put.
fn stop<R: Wait>(
    rt: &R,
    lock: &TicketLock<Trace>,
    one: Pass<Trace>,
    two: Pass<Trace>,
    scenario: &Scenario,
) -> (Pass<Trace>, Pass<Trace>, bool)
    requires first { IsPass (lock_id lock.now) one × IsFirst scenario.now (pass_view one) }
    requires second { IsPass (lock_id lock.now) two × IsSecond scenario.now (pass_view two) }
    ensures first { IsPass (lock_id lock.now) result.0 × IsFirst scenario.now (pass_view result.0) }
    ensures second { IsPass (lock_id lock.now) result.1 × IsSecond scenario.now (pass_view result.1) }
{
    let (one, job) = claimed(rt, lock, one);
    let two = stopped(rt, lock, two);
    let (two, found) = word_of_claim(rt, lock, two);
    let Some(job) = job else {
        return (one, two, false);
    };
    let Some(job) = advanced(&one, scenario, 1, job) else {
        return (one, two, false);
    };
    let (one, put) = is_put(rt, lock, one, job);
    (one, two, put && found == "stopped")
}

/// A stopped trace, and the job that was out.
pub fn is_stopped<R: Wait>(rt: &R, alloc: Global) -> Result<bool, AllocError> {
    let Some(scenario) = scenario_of(alloc, SECONDS) else {
        return Ok(false);
    };
    let (lock, one, two) = opened(alloc, &scenario)?;
    let (one, two, put) = stop(rt, &lock, one, two, &scenario);
    let (one, found) = word_of_claim(rt, &lock, one);
    let entries = closed(lock, &scenario, one, two)?;
    Ok(put && found == "stopped" && are(entries.as_slice(), &[(1, 0, 0)]))
}

/// Worker 1 gives the job of device 0 up, which stays out: worker 2 makes the step of device 1, and finds no device.
pub fn is_given_up<R: Wait>(rt: &R, alloc: Global) -> Result<bool, AllocError> {
    let Some(scenario) = scenario_of(alloc, SECONDS) else {
        return Ok(false);
    };
    let (lock, one, two) = opened(alloc, &scenario)?;
    let (one, given) = word_of_claim(rt, &lock, one);
    let (two, made) = makes(rt, &lock, two, &scenario, 64, 1, 1);
    let (two, found) = word_of_claim(rt, &lock, two);
    let entries = closed(lock, &scenario, one, two)?;
    Ok(given == "got" && made && found == "busy" && are(entries.as_slice(), &[(2, 1, 0)]))
}
