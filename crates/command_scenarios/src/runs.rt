//! A run of a scenario by workers, and what is said of it.
ghost use Rattle.std.specs.Prelude.{◌≡◌, option_map, IfErr, IfOk};
ghost use Rattle.std.specs.String.{string_bytes};
ghost use Rattle.command_scenarios.specs.Runs.{end_status};
ghost use Rattle.command_texts.specs.Endings.{end_line};
ghost use Rattle.command_files.specs.Answers.{files_of};
ghost use Rattle.command_scenarios.specs.RunAnswer.{run_fault, IsRunBy, IsRunFault, IsSavedAs, IsSavingFault};
ghost use Rattle.command_scenarios.specs.RunAnswer.{IsRunAnswer};

use command_files::{Answer, Fault, NewFile, Status};
use command_texts::end_line;
use fleet_workers::{FleetRun, OpenGate, RunFault, run_fleet};
use scenario_image::Scenario;
use std::alloc::{AllocError, Global};
use std::sync::Wait;
use std::thread::Threads;
use trace_file::{Entry, write_entries};

/// A run of a scenario by workers: what is said of it, and its trace file for the path, if there is one.
#[tactic(auto, using(crate::proofs::Built::run_answer, crate::proofs::Faults::unsaved_run))]
pub fn run_scenario<'a, R: Threads + Wait + Sync>(
    rt: &R,
    alloc: Global,
    scenario: &Scenario,
    workers: u16,
    batch: u32,
    trace: Option<&'a str>,
) -> Result<Answer<'a>, Fault>
    ensures done { IfOk result (IsRunAnswer scenario.now (record { workers = workers; batch = batch })
        (option_map (λ p. p.now) trace.entry)) }
    ensures refused { IfErr result (IsRunFault scenario.now (record { workers = workers; batch = batch })) }
{
    let run = made_by_workers(rt, alloc, scenario, workers, batch)?;
    let ended = end_of(alloc, run.entries.len(), run.end.waiting())?;
    let file = trace_file(alloc, trace, run.entries.as_slice())?;
    Ok(Answer {
        status: ended.status,
        text: ended.text,
        file,
    })
}

#[tactic(auto, using(crate::proofs::Faults::run_fault_is, crate::proofs::Built::run_by))]
fn made_by_workers<R: Threads + Wait + Sync>(
    rt: &R,
    alloc: Global,
    scenario: &Scenario,
    workers: u16,
    batch: u32,
) -> Result<FleetRun, Fault>
    ensures run { IfOk result (IsRunBy scenario.now (record { workers = workers; batch = batch })) }
    ensures refused { IfErr result (IsRunFault scenario.now (record { workers = workers; batch = batch })) }
{
    match run_fleet(rt, alloc, scenario, workers, batch, &OpenGate) {
        Ok(run) => Ok(run),
        Err(fault) => Err(fault_of(fault)),
    }
}

/// The fault of a run that the workers did not end.
fn fault_of(fault: RunFault) -> Fault
    ensures { result ≡ run_fault fault }
{
    match fault {
        RunFault::Memory(_) => Fault::Memory,
        RunFault::Spent(_) => Fault::Spent,
        RunFault::Workers => Fault::Workers,
        RunFault::Batch => Fault::Batch,
    }
}

/// The trace file of the entries for the path, if there is one.
#[tactic(auto, using(crate::proofs::Faults::unsaved, crate::proofs::Built::not_saved, crate::proofs::Built::saved_as))]
fn trace_file<'a>(
    alloc: Global,
    trace: Option<&'a str>,
    entries: &[Entry],
) -> Result<Option<NewFile<'a>>, Fault>
    ensures saved { IfOk result (λ file. IsSavedAs (option_map (λ p. p.now) trace.entry) entries.now (files_of file)) }
    ensures refused { IfErr result (IsSavingFault entries.now) }
{
    match trace {
        Some(path) => {
            let bytes = write_entries(alloc, entries)?;
            Ok(Some(NewFile { path, bytes }))
        }
        None => Ok(None),
    }
}

/// How a run ended, or what a trace is.
#[derive(Drop)]
struct Ending {
    status: Status,
    text: String,
}

/// What is said of a run of `count` entries, after which the devices in `waiting` are not at the end of their rows.
fn end_of(alloc: Global, count: usize, waiting: &[u16]) -> Result<Ending, AllocError>
    ensures text { IfOk result (λ a. string_bytes a.text ≡ end_line count waiting.now) }
    ensures status { IfOk result (λ a. a.status ≡ end_status waiting.now) }
{
    Ok(Ending {
        status: end_status(waiting),
        text: end_line(alloc, count, waiting)?,
    })
}

fn end_status(waiting: &[u16]) -> Status
    ensures { result ≡ end_status waiting.now }
{
    match waiting {
        [] => Status::Done,
        [_, ..] => Status::NotRun,
    }
}
