//! `into_entries TEXT`: the entries of the run that worker 1 makes, in one list. A trace that was refused memory comes
//! back, and is asked again.
ghost use Rattle.std.specs.Prelude.{◌≡◌, Some};
ghost use Rattle.ticket_lock.specs.Names.{lock_id, pass_view, IsPass};

use crate::given::Given;
use crate::jobs::locked;
use crate::line::Line;
use crate::marks::Marks;
use crate::workers::add_verdict;
use fleet_workers::{OpenGate, worker_loop};
use scenario_image::Scenario;
use shared_trace::Trace;
use std::alloc::AllocError;
use std::sync::Wait;
use ticket_lock::{Pass, TicketLock};
use trace_file::Entries;

/// The trace, once worker 1 has made the rest of the run.
pub fn ended<R: Wait>(
    rt: &R,
    lock: TicketLock<Trace>,
    pass: Pass<Trace>,
    scenario: &Scenario,
) -> Option<Trace>
    requires pass { IsPass (lock_id lock) pass }
    requires subject { (pass_view pass).subject ≡ Some scenario.now }
{
    let (pass, _) = worker_loop(rt, &lock, pass, scenario, 16, &OpenGate);
    lock.close(pass).ok()
}

/// How many entries a trace has.
pub fn count_of(trace: &Trace) -> usize {
    let mut count: usize = 0;
    for _ in trace.entries() {
        count = count.saturating_add(1);
    }
    count
}

/// The entries of a trace.
pub fn gathered(trace: Trace) -> Result<Entries, AllocError> {
    match trace.into_entries() {
        Ok(entries) => Ok(entries),
        Err((_, fault)) => Err(fault),
    }
}

/// Adds how many entries there are, and whether they are a run.
fn add_run(given: &Given, entries: &Entries, line: &mut Line) {
    line.add_count("entries", entries.len() as u64);
    add_verdict(given, entries, line)
}

/// Adds the same of the entries of a trace.
pub fn add_gathered(given: &Given, trace: Trace, line: &mut Line) {
    match gathered(trace) {
        Ok(entries) => add_run(given, &entries, line),
        Err(_) => line.cut(),
    }
}

pub fn gather<R: Wait>(rt: &R, given: &Given, marks: &mut Marks, line: &mut Line) {
    let Ok((lock, pass)) = locked(given.alloc, given.scenario) else {
        return line.cut();
    };
    match ended(rt, lock, pass, given.scenario) {
        Some(trace) => gather_once(given, trace, marks, line),
        None => line.add("a pass is out"),
    }
}

fn gather_once(given: &Given, trace: Trace, marks: &mut Marks, line: &mut Line) {
    marks.begin();
    let entries = trace.into_entries();
    marks.end();
    match entries {
        Ok(entries) => add_run(given, &entries, line),
        Err((trace, _)) => {
            line.add("memory, then");
            add_gathered(given, trace, line)
        }
    }
}
