//! What the program prints.
ghost use Rattle.std.specs.Thread.{IsSync};

use crate::compared::{is_all_by_one, is_as_serial, is_refused};
use crate::gates::AllCome;
use crate::pages;
use crate::rows::{is_exchanged, is_given_up, is_stopped};
use crate::scenes::alike;
use fleet_workers::{FleetEnd, run_fleet};
use std::alloc::{AllocError, Global};
use std::io;
use std::sync::Wait;
use std::thread::Threads;
use trace_file::Entry;

fn has_worker(entries: &[Entry], worker: u16) -> bool {
    entries.iter().any(|entry| entry.worker == worker)
}

/// As many devices of three steps as workers, each of which is held until all have a device outside the lock: whether
/// all came, and made all of the steps.
fn do_all_work<R: Threads + Wait + Sync>(
    rt: &R,
    alloc: Global,
    workers: u16,
    gate: &AllCome,
) -> Result<bool, AllocError>
    requires { IsSync R.row }
{
    let Some(scenario) = alike(alloc, workers)? else {
        return Ok(false);
    };
    let Ok(run) = run_fleet(rt, alloc, &scenario, workers, 1, gate) else {
        return Ok(false);
    };
    let entries = run.entries.as_slice();
    Ok(
        matches!(run.end, FleetEnd::Done)
            && entries.len() == usize::from(workers) * 3
            && (1..=workers).all(|worker| has_worker(entries, worker))
            && gate.is_passed(),
    )
}

fn say<R: Print>(rt: &R, what: &str, is_so: bool) -> io::Result<()> {
    let word = if is_so { "yes" } else { "no" };
    println!(rt; "{what}: {word}")
}

/// Prints what came of each, a line each.
pub fn show<R: Threads + Wait + Sync + Print>(rt: &R, alloc: Global) -> io::Result<()>
    requires { IsSync R.row }
{
    say(
        rt,
        "a worker that finds no device finds one after a put",
        is_exchanged(rt, alloc)?,
    )?;
    say(
        rt,
        "a stopped trace hands out no device, and takes the job that is out",
        is_stopped(rt, alloc)?,
    )?;
    say(
        rt,
        "a device whose job was given up stays out",
        is_given_up(rt, alloc)?,
    )?;
    say(
        rt,
        "two workers are outside the lock at once, and both make steps",
        do_all_work(rt, alloc, 2, &AllCome::two())?,
    )?;
    say(
        rt,
        "four workers are outside the lock at once, and all make steps",
        do_all_work(rt, alloc, 4, &AllCome::four())?,
    )?;
    say(
        rt,
        "two workers make what one makes, device by device",
        is_as_serial(rt, alloc, 2, 2)?,
    )?;
    say(rt, "so do 64", is_as_serial(rt, alloc, 64, 64)?)?;
    say(
        rt,
        "one worker makes all under number 1",
        is_all_by_one(rt, alloc)?,
    )?;
    say(
        rt,
        "there is no run of 0 or 65 workers",
        is_refused(rt, alloc, 0)? && is_refused(rt, alloc, 65)?,
    )?;
    pages::show(rt, alloc)
}
