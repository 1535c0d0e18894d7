//! Runs of one device, of fewer and of more steps than a page of the trace has entries, which is 256.
ghost use Rattle.std.specs.Thread.{IsSync};

use crate::measured::count_by_rows;
use crate::scenes::scenario_of;
use fleet_core::{Verdict, check};
use fleet_workers::{FleetEnd, OpenGate, run_fleet};
use scenario_image::Scenario;
use std::alloc::{AllocError, Global};
use std::io;
use std::sync::Wait;
use std::thread::Threads;

/// The steps of a run, and the most that are put at once. A put of 48 steps ends in another page than it begins in,
/// after 240 entries.
const RUNS: [(u32, u32); 5] = [(200, 16), (256, 64), (257, 64), (600, 64), (600, 48)];

/// A device that lets this many seconds pass, one after another.
fn seconds(alloc: Global, count: u32) -> Result<Option<Scenario>, AllocError> {
    let mut text = String::new(alloc);
    text.push_str("scenario 1\nclass\ndevice 0\n")?;
    for _ in 0..count {
        text.push_str("tick 1\n")?;
    }
    Ok(scenario_of(alloc, text.as_str()))
}

/// Whether two workers make as many steps as the device has, and `check` calls them a run.
fn is_made<R: Threads + Wait + Sync>(
    rt: &R,
    alloc: Global,
    steps: u32,
    batch: u32,
) -> Result<bool, AllocError>
    requires { IsSync R.row }
{
    let Some(scenario) = seconds(alloc, steps)? else {
        return Ok(false);
    };
    let Ok(run) = run_fleet(rt, alloc, &scenario, 2, batch, &OpenGate) else {
        return Ok(false);
    };
    let is_done = matches!(run.end, FleetEnd::Done) && run.entries.len() == steps as usize;
    let verdict = check(alloc, &scenario, run.entries.as_slice())?;
    Ok(is_done && matches!(verdict, Verdict::Run))
}

/// Whether one worker makes as many steps as the device has, where a batch may have more than memory has room for.
fn is_made_at_once<R: Wait>(rt: &R, alloc: Global, steps: u32) -> Result<bool, AllocError> {
    let Some(scenario) = seconds(alloc, steps)? else {
        return Ok(false);
    };
    Ok(count_by_rows(rt, alloc, &scenario) == Some(steps as usize))
}

/// Prints a line for each run.
pub fn show<R: Threads + Wait + Sync + Print>(rt: &R, alloc: Global) -> io::Result<()>
    requires { IsSync R.row }
{
    for (steps, batch) in RUNS {
        let word = if is_made(rt, alloc, steps, batch)? {
            "yes"
        } else {
            "no"
        };
        println!(rt; "two workers make {steps} steps of a device, {batch} at a time: {word}")?;
    }
    let word = if is_made_at_once(rt, alloc, 600)? {
        "yes"
    } else {
        "no"
    };
    println!(rt;
        "one worker makes 600 steps of a device at once, in a batch of the largest size: {word}"
    )?;
    Ok(())
}
