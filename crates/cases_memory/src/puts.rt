//! `put TEXT COUNT`: worker 1 puts as many jobs, and one more; the rest of the run follows. If the last of these is
//! refused memory, the job comes back, the trace's entries are as before, and it is put again.
ghost use Rattle.std.specs.Prelude.{◌≡◌, Some, false};
ghost use Rattle.ticket_lock.specs.Log.{Adds};
ghost use Rattle.ticket_lock.specs.Names.{lock_id, pass_view, IsPass};
ghost use Rattle.shared_trace.specs.Trace.{IsShared, trace_log};
ghost use Rattle.shared_trace.specs.Job.{MayPut};
ghost use Rattle.worker_visits.specs.Knowing.{Knows};

use crate::gathering::{add_gathered, count_of, ended};
use crate::given::Given;
use crate::jobs::{advanced, claimed, locked};
use crate::line::Line;
use crate::marks::{Marks, Mode};
use fleet_workers::{PutVisit, put_job, stop_trace};
use scenario_image::Scenario;
use shared_trace::{Job, Trace};
use std::sync::Wait;
use ticket_lock::{Pass, TicketLock};

/// What came of a put.
#[derive(Clone, Copy)]
struct Came {
    /// How many entries the trace had where the job came back.
    left: Option<usize>,
    words: &'static str,
}

/// Puts a job that came back.
fn put_again(trace: &mut Trace, worker: u16, job: Job) -> Came
    requires { MayPut trace.old worker job }
    ensures adds { Adds trace_log worker trace.old trace.new }
    ensures shared { IsShared trace.new }
{
    let left = count_of(trace);
    match trace.put(worker, job) {
        Ok(()) => Came {
            left: Some(left),
            words: "put,",
        },
        Err((job, _)) => {
            trace.stop(worker);
            job.abandon();
            Came {
                left: Some(left),
                words: "memory,",
            }
        }
    }
}

/// Puts a job, and once more if it comes back.
fn put_twice(trace: &mut Trace, worker: u16, job: Job, marks: &mut Marks) -> Came
    requires { MayPut trace.old worker job }
    ensures adds { Adds trace_log worker trace.old trace.new }
    ensures shared { IsShared trace.new }
{
    marks.begin();
    let put = trace.put(worker, job);
    marks.end();
    match put {
        Ok(()) => Came {
            left: None,
            words: "put,",
        },
        Err((job, _)) => put_again(trace, worker, job),
    }
}

/// Puts a job under the lock.
fn put_in<R: Wait>(
    rt: &R,
    lock: &TicketLock<Trace>,
    pass: Pass<Trace>,
    job: Job,
    marks: &mut Marks,
) -> (Pass<Trace>, Came)
    requires pass { IsPass (lock_id lock.now) pass }
    requires knows { Knows (pass_view pass) job }
    requires ready { job.spent ≡ false }
    ensures pass { IsPass (lock_id lock.now) result.0 }
    ensures subject { (pass_view result.0).subject ≡ (pass_view pass).subject }
{
    let worker = pass.number();
    match lock.take(rt, pass) {
        Ok(mut held) => {
            let came = put_twice(held.value_mut(), worker, job, marks);
            (held.give(), came)
        }
        Err((pass, _)) => {
            job.abandon();
            let came = Came {
                left: None,
                words: "no ticket,",
            };
            (pass, came)
        }
    }
}

/// Claims a device, lets it make its steps and puts them. A job that is given up stops the trace: its device does not
/// come back, and a worker would wait for it.
fn make_one<R: Wait>(
    rt: &R,
    lock: &TicketLock<Trace>,
    pass: Pass<Trace>,
    scenario: &Scenario,
    none: &mut Marks,
) -> Pass<Trace>
    requires pass { IsPass (lock_id lock.now) pass }
    requires subject { (pass_view pass).subject ≡ Some scenario.now }
    ensures pass { IsPass (lock_id lock.now) result }
    ensures subject { (pass_view result).subject ≡ Some scenario.now }
{
    let (pass, job) = claimed(rt, lock, pass);
    let Some(job) = job else {
        return pass;
    };
    match advanced(&pass, scenario, job, none) {
        Ok(job) => {
            let PutVisit { pass, .. } = put_job(rt, lock, pass, job);
            pass
        }
        Err((job, _)) => {
            job.abandon();
            stop_trace(rt, lock, pass)
        }
    }
}

/// The same, as often as this.
fn make_some<R: Wait>(
    rt: &R,
    lock: &TicketLock<Trace>,
    mut pass: Pass<Trace>,
    scenario: &Scenario,
    none: &mut Marks,
    count: usize,
) -> Pass<Trace>
    requires pass { IsPass (lock_id lock.now) pass }
    requires subject { (pass_view pass).subject ≡ Some scenario.now }
    ensures pass { IsPass (lock_id lock.now) result }
    ensures subject { (pass_view result).subject ≡ Some scenario.now }
{
    for _made in 0..count {
        pass = make_one(rt, lock, pass, scenario, none);
    }
    pass
}

/// Claims a device, lets it make its steps and puts them, between the marks. There is no answer if there is no device.
fn put_last<R: Wait>(
    rt: &R,
    lock: &TicketLock<Trace>,
    pass: Pass<Trace>,
    scenario: &Scenario,
    none: &mut Marks,
    marks: &mut Marks,
) -> (Pass<Trace>, Option<Came>)
    requires pass { IsPass (lock_id lock.now) pass }
    requires subject { (pass_view pass).subject ≡ Some scenario.now }
    ensures pass { IsPass (lock_id lock.now) result.0 }
    ensures subject { (pass_view result.0).subject ≡ Some scenario.now }
{
    let (pass, job) = claimed(rt, lock, pass);
    let Some(job) = job else {
        return (pass, None);
    };
    match advanced(&pass, scenario, job, none) {
        Ok(job) => {
            let (pass, came) = put_in(rt, lock, pass, job, marks);
            (pass, Some(came))
        }
        Err((job, _)) => {
            job.abandon();
            (stop_trace(rt, lock, pass), None)
        }
    }
}

/// Adds what came of the put.
fn add_came(came: Option<Came>, line: &mut Line) {
    let Some(came) = came else {
        return line.add("no job,");
    };
    if let Some(left) = came.left {
        line.add_count("memory, entries", left as u64);
        line.add("then");
    }
    line.add(came.words)
}

pub fn put<R: Wait>(rt: &R, given: &Given, marks: &mut Marks, line: &mut Line) {
    let mut none = Marks::new(given.alloc, Mode::Boxes(0));
    let Ok((lock, pass)) = locked(given.alloc, given.scenario) else {
        return line.cut();
    };
    let pass = make_some(rt, &lock, pass, given.scenario, &mut none, given.number(0));
    let (pass, came) = put_last(rt, &lock, pass, given.scenario, &mut none, marks);
    add_came(came, line);
    match ended(rt, lock, pass, given.scenario) {
        Some(trace) => add_gathered(given, trace, line),
        None => line.add("a pass is out"),
    }
}
