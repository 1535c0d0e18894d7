//! One run, for bench/ to measure, or the trace of the serial run, for tools/check/many-runs to compare with.
ghost use Rattle.std.specs.Prelude.{◌≤◌};
ghost use Rattle.std.specs.Thread.{IsSync};

use crate::turns::{claimed, is_put};
use fleet_core::{Entries, run_serial, start_devices, write_entries};
use fleet_workers::{OpenGate, run_fleet, worker_loop};
use scenario_image::{Scenario, load};
use shared_trace::Trace;
use std::alloc::Global;
use std::io;
use std::sync::Wait;
use std::thread::Threads;
use ticket_lock::TicketLock;

/// A run that was made. It is held until the number of its steps is printed: letting it go is no step of it.
#[derive(Drop)]
struct Made {
    count: usize,
    _entries: Entries,
}

fn made_of(entries: Entries) -> Made {
    Made {
        count: entries.as_slice().len(),
        _entries: entries,
    }
}

/// Starts the devices, and makes no step.
fn by_nobody(alloc: Global, scenario: &Scenario) -> Option<Made> {
    match start_devices(alloc, scenario) {
        Ok(_) => Some(made_of(Entries::new(alloc))),
        Err(_) => None,
    }
}

/// The serial run.
fn by_serial(alloc: Global, scenario: &Scenario) -> Option<Made> {
    match run_serial(alloc, scenario) {
        Ok(entries) => Some(made_of(entries)),
        Err(_) => None,
    }
}

/// The run that one worker makes, of which each row is a single batch.
fn by_rows<R: Wait>(rt: &R, alloc: Global, scenario: &Scenario) -> Option<Made> {
    let Ok(trace) = Trace::new(alloc, scenario) else {
        return None;
    };
    let Ok((lock, pass)) = TicketLock::new(trace, alloc) else {
        return None;
    };
    let (pass, _) = worker_loop(rt, &lock, pass, scenario, u32::MAX, &OpenGate);
    let Ok(trace) = lock.close(pass) else {
        unreachable!()
    };
    match trace.into_entries() {
        Ok(entries) => Some(made_of(entries)),
        Err(_) => None,
    }
}

/// How many steps one worker makes of which each row is a single batch.
pub fn count_by_rows<R: Wait>(rt: &R, alloc: Global, scenario: &Scenario) -> Option<usize> {
    let made = by_rows(rt, alloc, scenario)?;
    Some(made.count)
}

/// How often one worker claims a device and puts it again without a step: as often as the rows have steps.
fn by_visits<R: Wait>(rt: &R, alloc: Global, scenario: &Scenario) -> Option<Made> {
    let Ok(trace) = Trace::new(alloc, scenario) else {
        return None;
    };
    let Ok((lock, mut pass)) = TicketLock::new(trace, alloc) else {
        return None;
    };
    let count = scenario.steps();
    for _made in 0..count {
        let (outside, job) = claimed(rt, &lock, pass);
        let Some(job) = job else {
            return None;
        };
        let (back, put) = is_put(rt, &lock, outside, job);
        pass = back;
        if !put {
            return None;
        }
    }
    Some(Made {
        count,
        _entries: Entries::new(alloc),
    })
}

/// The run that workers make.
fn by_workers<R: Threads + Wait + Sync>(
    rt: &R,
    alloc: Global,
    scenario: &Scenario,
    workers: u16,
    batch: u32,
) -> Option<Made>
    requires { IsSync R.row }
{
    match run_fleet(rt, alloc, scenario, workers, batch, &OpenGate) {
        Ok(run) => Some(made_of(run.entries)),
        Err(_) => None,
    }
}

/// How many workers a word stands for.
fn workers_of(word: &str) -> u16 {
    match word {
        "one" => 1,
        "two" => 2,
        "four" => 4,
        _ => 64,
    }
}

/// How many steps a worker makes at a time, by a word.
fn batch_of(word: &str) -> u32 {
    match word {
        "1" => 1,
        "16" => 16,
        _ => 64,
    }
}

/// The run of this kind: `image` makes none; `start` starts the devices alone; `serial` is the serial run; `one 16`
/// lets one worker run with batches of 16, where there may stand `two`, `four`, `all` (64), and 1 or 64; `rows` lets
/// one make each row as a single batch; `visits` makes none: it claims and puts as often as there are steps.
fn run_of<R: Threads + Wait + Sync>(
    rt: &R,
    alloc: Global,
    kind: &str,
    scenario: &Scenario,
) -> Option<Made>
    requires { IsSync R.row }
{
    match kind {
        "image" => Some(made_of(Entries::new(alloc))),
        "start" => by_nobody(alloc, scenario),
        "serial" => by_serial(alloc, scenario),
        "rows" => by_rows(rt, alloc, scenario),
        "visits" => by_visits(rt, alloc, scenario),
        _ => {
            let (workers, batch) = kind.split_once(' ')?;
            by_workers(rt, alloc, scenario, workers_of(workers), batch_of(batch))
        }
    }
}

/// The trace file of the serial run, in hexadecimal.
fn serial_trace(alloc: Global, scenario: &Scenario) -> Option<String> {
    let Ok(entries) = run_serial(alloc, scenario) else {
        return None;
    };
    let Ok(bytes) = write_entries(alloc, entries.as_slice()) else {
        return None;
    };
    match hex::encode(alloc, bytes.as_slice()) {
        Ok(text) => Some(text),
        Err(_) => None,
    }
}

fn scenario_of(alloc: Global, hex: &str) -> Option<Scenario> {
    let Ok(image) = hex::decode(alloc, hex) else {
        return None;
    };
    match load(alloc, image.as_slice()) {
        Ok(scenario) => Some(scenario),
        Err(_) => None,
    }
}

/// Makes the run whose kind the first line names, of the scenario whose image the second one has in hexadecimal, and
/// prints how many steps it has; of the kind `trace` it prints the trace file of the serial run.
pub fn run<R: Threads + Wait + Sync + Print>(rt: &R, alloc: Global, text: &str) -> io::Result<()>
    requires { IsSync R.row }
{
    let Some((kind, rest)) = text.split_once('\n') else {
        return println!(rt; "no kind of run");
    };
    let Some(scenario) = scenario_of(alloc, rest.trim()) else {
        return println!(rt; "no scenario");
    };
    if kind == "trace" {
        return match serial_trace(alloc, &scenario) {
            Some(text) => println!(rt; "{text}"),
            None => println!(rt; "no run"),
        };
    }
    match run_of(rt, alloc, kind, &scenario) {
        Some(run) => {
            let count = run.count;
            println!(rt; "steps {count}")
        }
        None => println!(rt; "no run"),
    }
}
