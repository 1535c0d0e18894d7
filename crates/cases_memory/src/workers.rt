//! `fleet TEXT`: the run that two workers make on two threads. It is whole, or it breaks off for lack of memory, and
//! its entries are a run in any case.
ghost use Rattle.std.specs.Thread.{IsSync};

use crate::given::Given;
use crate::line::Line;
use crate::marks::Marks;
use fleet_core::{Verdict, check};
use fleet_workers::{FleetEnd, FleetRun, OpenGate, RunFault, run_fleet};
use std::sync::Wait;
use std::thread::Threads;
use trace_file::Entries;

pub fn fleet<R: Threads + Wait + Sync>(rt: &R, given: &Given, marks: &mut Marks, line: &mut Line)
    requires { IsSync R.row }
{
    fleet_once(rt, given, marks, line);
    if line.is_refused() {
        line.add("then");
        fleet_once(rt, given, marks, line);
    }
}

fn fleet_once<R: Threads + Wait + Sync>(rt: &R, given: &Given, marks: &mut Marks, line: &mut Line)
    requires { IsSync R.row }
{
    marks.begin();
    let run = run_fleet(rt, given.alloc, given.scenario, 2, 1, &OpenGate);
    marks.end();
    marks.make_up();
    match run {
        Ok(run) => answer(given, &run, line),
        Err(RunFault::Memory(entries)) => {
            line.refuse();
            add_verdict(given, &entries, line)
        }
        Err(_) => line.add("another fault"),
    }
}

fn answer(given: &Given, run: &FleetRun, line: &mut Line) {
    match &run.end {
        FleetEnd::Done => line.add_count("done", run.entries.len() as u64),
        FleetEnd::Stalled(_) => line.add_count("stalled", run.entries.len() as u64),
    }
    add_verdict(given, &run.entries, line)
}

/// Adds whether the entries are a run.
pub fn add_verdict(given: &Given, entries: &Entries, line: &mut Line) {
    match check(given.alloc, given.scenario, entries.as_slice()) {
        Ok(Verdict::Run) => line.add("a run"),
        Ok(Verdict::NotRun(_)) => line.add("not a run"),
        Err(_) => line.cut(),
    }
}
