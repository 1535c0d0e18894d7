//! Runs of workers beside the serial one.
ghost use Rattle.std.specs.Thread.{IsSync};

use crate::scenes::alike;
use fleet_core::{run_serial, write_entries};
use fleet_workers::{FleetEnd, OpenGate, RunFault, run_fleet};
use std::alloc::{AllocError, Global};
use std::sync::Wait;
use std::thread::Threads;
use trace_file::Entry;

/// The device's entries, as though worker 0 had made them.
fn steps_of(alloc: Global, entries: &[Entry], device: u16) -> Result<Vec<Entry>, AllocError> {
    let mut steps = Vec::new(alloc);
    for entry in entries {
        if entry.device == device {
            let mut step = entry.copy()?;
            step.worker = 0;
            steps.push(step)?;
        }
    }
    Ok(steps)
}

/// Whether the device made as many steps in both runs, with the same outputs: whether these have the same trace file.
fn is_same(
    alloc: Global,
    first: &[Entry],
    second: &[Entry],
    device: u16,
) -> Result<bool, AllocError> {
    let first = steps_of(alloc, first, device)?;
    let second = steps_of(alloc, second, device)?;
    let Ok(first) = write_entries(alloc, first.as_slice()) else {
        return Ok(false);
    };
    let Ok(second) = write_entries(alloc, second.as_slice()) else {
        return Ok(false);
    };
    Ok(first.as_slice() == second.as_slice())
}

fn are_same(
    alloc: Global,
    first: &[Entry],
    second: &[Entry],
    devices: u16,
) -> Result<bool, AllocError> {
    for device in 0..devices {
        if !is_same(alloc, first, second, device)? {
            return Ok(false);
        }
    }
    Ok(true)
}

/// Devices of three steps each, which workers make one by one: whether all steps are made, and each device did what it
/// does in the serial run.
pub fn is_as_serial<R: Threads + Wait + Sync>(
    rt: &R,
    alloc: Global,
    devices: u16,
    workers: u16,
) -> Result<bool, AllocError>
    requires { IsSync R.row }
{
    let Some(scenario) = alike(alloc, devices)? else {
        return Ok(false);
    };
    let Ok(run) = run_fleet(rt, alloc, &scenario, workers, 1, &OpenGate) else {
        return Ok(false);
    };
    let serial = run_serial(alloc, &scenario)?;
    let (entries, serial) = (run.entries.as_slice(), serial.as_slice());
    let count = usize::from(devices) * 3;
    let is_all = entries.len() == count && serial.len() == count;
    let is_done = matches!(run.end, FleetEnd::Done);
    Ok(is_done && is_all && are_same(alloc, entries, serial, devices)?)
}

/// Whether one worker makes the run of 64 devices under the number 1 alone.
pub fn is_all_by_one<R: Threads + Wait + Sync>(rt: &R, alloc: Global) -> Result<bool, AllocError>
    requires { IsSync R.row }
{
    let Some(scenario) = alike(alloc, 64)? else {
        return Ok(false);
    };
    let Ok(run) = run_fleet(rt, alloc, &scenario, 1, 1, &OpenGate) else {
        return Ok(false);
    };
    let entries = run.entries.as_slice();
    let is_done = matches!(run.end, FleetEnd::Done);
    Ok(is_done && entries.len() == 192 && entries.iter().all(|entry| entry.worker == 1))
}

/// Whether no run is made by this many workers.
pub fn is_refused<R: Threads + Wait + Sync>(
    rt: &R,
    alloc: Global,
    workers: u16,
) -> Result<bool, AllocError>
    requires { IsSync R.row }
{
    let Some(scenario) = alike(alloc, 1)? else {
        return Ok(false);
    };
    let run = run_fleet(rt, alloc, &scenario, workers, 1, &OpenGate);
    Ok(matches!(run, Err(RunFault::Workers)))
}
