//! Workers, and the run that they make.

ghost use Rattle.std.specs.Prelude.{◌≡◌, ◌≢◌, ℕ, ◌≤◌, ◌↔◌, [], IsTrue, Err, IfOk, IfErr, IfSome};
ghost use Rattle.std.specs.List.{AllByRecursion};
ghost use Rattle.fleet_core.specs.Run.{IsRun, IsComplete};
ghost use Rattle.ticket_lock.specs.Changes.{opening_view};
ghost use Rattle.ticket_lock.specs.Names.{lock_id, opening_value, pass_view, IsPass};
ghost use Rattle.shared_trace.specs.Trace.{trace_log};
ghost use Rattle.worker_visits.specs.Knowing.{IsStalled};
ghost use Rattle.fleet_workers.specs.Fleet.{IsByWorker, IsFleetRun, IsEndOf, Leaves, IsLeft, HasEnded, left_by};
ghost use Rattle.fleet_workers.specs.Fleet.{IsOutcome, IsMade, IsAnswer, AreByBlocks, LeavesBlocks, AreWorkers};
ghost use Rattle.fleet_workers.specs.Fleet.{IsBatch};

use crate::crew::run_crew;
use fleet_core::unfinished;
use scenario_image::Scenario;
use shared_trace::Trace;
use std::alloc::{AllocError, Global};
use std::sync::Wait;
use std::thread::Threads;
use thiserror::Error;
use ticket_lock::{NUMBERS, Pass, TicketLock};
use trace_file::Entries;
use worker_turns::Gate;
use worker_visits::LoopEnd;

/// How a run ended.
#[derive(Drop)]
pub enum FleetEnd {
    /// Each row is at its end.
    Done,
    /// These devices, in ascending order, are not at the end of their rows, and none can step.
    Stalled(Vec<u16>),
}

impl FleetEnd {
    /// The devices that are not at the end of their rows, in ascending order.
    pub fn waiting(&self) -> &[u16]
        ensures { result.now ≡ left_by self.now }
    {
        match self {
            FleetEnd::Done => &[],
            FleetEnd::Stalled(devices) => devices.as_slice(),
        }
    }
}

/// A run that workers made.
#[derive(Drop)]
pub struct FleetRun {
    /// The entries, in order.
    pub entries: Entries,
    /// How it ended.
    pub end: FleetEnd,
}

/// Why there is no run, or none that is complete.
#[derive(Debug, Drop, Error)]
pub enum RunFault {
    /// Memory ran out. These entries were made. There are none where the run could not begin, a worker could not be
    /// started, or there was no memory for a list of them.
    #[error("out of memory")]
    Memory(Entries),
    /// The lock had no ticket left, and no worker ran out of memory. These entries were made.
    #[error("no ticket is left")]
    Spent(Entries),
    /// The number of workers is not from 1 to 64.
    #[error("the number of workers is not from 1 to 64")]
    Workers,
    /// The batch is not one of 1 to 64 steps.
    #[error("the batch is not from 1 to 64")]
    Batch,
}

/// The run, where no device can step and a row is not at its end.
fn stalled_run(alloc: Global, scenario: &Scenario, entries: Entries) -> Result<FleetRun, RunFault>
    requires stalled { IsStalled scenario.now entries }
    ensures run { (workers : ℕ) → AllByRecursion (IsByWorker workers) entries
        → IfOk result (λ r. IsFleetRun scenario.now workers r) }
    ensures entries { IfOk result (λ r. r.entries ≡ entries) }
    ensures fault { IfErr result (λ e. e ≡ RunFault.Memory entries) }
{
    match unfinished(alloc, scenario, entries.as_slice()) {
        Ok(devices) => Ok(FleetRun {
            entries,
            end: FleetEnd::Stalled(devices),
        }),
        Err(AllocError) => Err(RunFault::Memory(entries)),
    }
}

/// The result for this joint end of the workers, who left these entries: that run, or the fault with exactly these
/// entries. `Memory` comes before `Spent`.
pub fn outcome(
    alloc: Global,
    scenario: &Scenario,
    workers: u16,
    entries: Entries,
    end: LoopEnd,
) -> Result<FleetRun, RunFault>
    requires { IsLeft scenario.now workers entries end }
    ensures run { IfOk result (λ r. IsFleetRun scenario.now workers r) }
    ensures outcome { IsOutcome entries end result }
{
    match end {
        LoopEnd::Done => Ok(FleetRun {
            entries,
            end: FleetEnd::Done,
        }),
        LoopEnd::Stalled => stalled_run(alloc, scenario, entries),
        LoopEnd::Stopped | LoopEnd::Memory => Err(RunFault::Memory(entries)),
        LoopEnd::Spent => Err(RunFault::Spent(entries)),
    }
}

/// The workers of the numbers from 1 on, over a new lock: their trace, and how they ended together. There is none where
/// one can't be started.
fn run_all<R: Threads + Wait + Sync, G: Gate + Sync>(
    rt: &R,
    lock: TicketLock<Trace>,
    pass: Pass<Trace>,
    scenario: &Scenario,
    workers: u16,
    batch: u32,
    gate: &G,
) -> Option<(Trace, LoopEnd)>
    requires pass { IsPass (lock_id lock) pass }
    requires whole { pass_view pass ≡ opening_view trace_log (opening_value lock) 0 }
    requires subject { (opening_value lock).subject ≡ scenario.now }
    requires empty { (opening_value lock).entries ≡ [] }
    requires going { (opening_value lock).stopped_by ≡ [] }
    requires workers { AreWorkers workers }
    requires batch { 1 ≤ batch }
    ensures made { IfSome result (λ r. IsMade (G.came gate.now) scenario.now workers batch r.0.entries r.1) }
{
    let (pass, end) = run_crew(rt, &lock, pass, scenario, batch, gate, workers)?;
    let Ok(trace) = lock.close(pass) else {
        unreachable!()
    };
    Some((trace, end))
}

/// The entries that workers make over a new trace, and how they ended together. There are none where the run can't
/// begin, a worker can't be started, or there is no memory for a list of the entries.
fn make_run<R: Threads + Wait + Sync, G: Gate + Sync>(
    rt: &R,
    alloc: Global,
    scenario: &Scenario,
    workers: u16,
    batch: u32,
    gate: &G,
) -> Option<(Entries, LoopEnd)>
    requires workers { AreWorkers workers }
    requires batch { 1 ≤ batch }
    ensures made { IfSome result (λ r. IsMade (G.came gate.now) scenario.now workers batch r.0 r.1) }
{
    let Ok(trace) = Trace::new(alloc, scenario) else {
        return None;
    };
    let Ok((lock, pass)) = TicketLock::new(trace, alloc) else {
        return None;
    };
    let (trace, end) = run_all(rt, lock, pass, scenario, workers, batch, gate)?;
    match trace.into_entries() {
        Ok(entries) => Some((entries, end)),
        Err(_) => None,
    }
}

/// The run of workers over a new trace.
fn run_new<R: Threads + Wait + Sync, G: Gate + Sync>(
    rt: &R,
    alloc: Global,
    scenario: &Scenario,
    workers: u16,
    batch: u32,
    gate: &G,
) -> Result<FleetRun, RunFault>
    requires workers { AreWorkers workers }
    requires batch { 1 ≤ batch }
    ensures run { IfOk result (λ r. IsFleetRun scenario.now workers r) }
    ensures blocks { IfOk result (λ r. AreByBlocks (G.came gate.now) scenario.now workers batch r.entries) }
    ensures left { IfErr result (λ e. Leaves scenario.now e) }
    ensures left_blocks { IfErr result (λ e. LeavesBlocks (G.came gate.now) scenario.now workers batch e) }
    ensures answer { IsAnswer (G.came gate.now) scenario.now workers batch result }
    ensures workers { result ≢ Err RunFault.Workers }
    ensures batch { result ≢ Err RunFault.Batch }
{
    match make_run(rt, alloc, scenario, workers, batch, gate) {
        Some((entries, end)) => outcome(alloc, scenario, workers, entries, end),
        None => Err(RunFault::Memory(Entries::new(alloc))),
    }
}

fn are_workers(workers: u16) -> bool
    ensures { IsTrue result ↔ AreWorkers workers }
{
    1 <= workers && workers <= NUMBERS
}

fn is_batch(batch: u32) -> bool
    ensures { IsTrue result ↔ IsBatch batch }
{
    1 <= batch && batch <= 64
}

/// Lets this many workers, 1 to 64, each on a thread of its own, make a run of the scenario, each at most `batch` steps
/// of a device at a time, 1 to 64; other numbers are refused, the workers first (`workers`, `batch`). Whatever the
/// order in which they take the lock, what they make is a complete run, and each device has the entries of the serial
/// run, with the same outputs; `Done` exactly if each row is at its end, otherwise `Stalled` with exactly the devices
/// that are not (`run`).
///
/// The own entries of each worker, in order, are exactly the blocks that it put, one after another: each stands in the
/// run as a whole, has 1 to `batch` steps of one device, fewer only where the device could not step by what the worker
/// had seen, and the gate was called for it (`blocks`). Where memory or tickets run out, what was made is a run
/// (`left`), and the fault is one that some workers could have left, with all of their entries, or `Memory` without
/// entries (`answer`). That these workers did is not said.
pub fn run_fleet<R: Threads + Wait + Sync, G: Gate + Sync>(
    rt: &R,
    alloc: Global,
    scenario: &Scenario,
    workers: u16,
    batch: u32,
    gate: &G,
) -> Result<FleetRun, RunFault>
    ensures workers { (result ≡ Err RunFault.Workers) ↔ (AreWorkers workers → ⊥) }
    ensures batch { (result ≡ Err RunFault.Batch) ↔ (AreWorkers workers × (IsBatch batch → ⊥)) }
    ensures run { IfOk result (λ r. IsFleetRun scenario.now workers r) }
    ensures blocks { IfOk result (λ r. AreByBlocks (G.came gate.now) scenario.now workers batch r.entries) }
    ensures left { IfErr result (λ e. Leaves scenario.now e) }
    ensures left_blocks { IfErr result (λ e. LeavesBlocks (G.came gate.now) scenario.now workers batch e) }
    ensures answer { AreWorkers workers → IsBatch batch
        → IsAnswer (G.came gate.now) scenario.now workers batch result }
{
    if !are_workers(workers) {
        return Err(RunFault::Workers);
    }
    if !is_batch(batch) {
        return Err(RunFault::Batch);
    }
    run_new(rt, alloc, scenario, workers, batch, gate)
}
