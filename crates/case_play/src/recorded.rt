//! What is stated of a recorded trace.

ghost use Rattle.std.specs.Prelude.{◌≡◌, ◌↔◌, IsTrue, IfOk};
ghost use Rattle.fleet_core.specs.Run.{IsRun};
ghost use Rattle.fleet_core.specs.Verdict.{BreaksAt};
ghost use Rattle.case_play.specs.Faults.{fault_words};
ghost use Rattle.case_play.specs.Ends.{StatesRefusal, IsOfVerdict, IsOfEntries, IsOfRecorded};

use crate::ends::is_end;
use crate::faults::fault_words;
use byte_layout::LayoutFault;
use case_text::{Answer, Stated, VerdictStated};
use fleet_core::{Entry, Verdict, check, read_entries};
use lwm2m_values::Text;
use scenario_image::Scenario;
use std::alloc::{AllocError, Global};

/// Whether entries are a run of the scenario.
fn are_run(alloc: Global, scenario: &Scenario, entries: &[Entry]) -> Result<bool, AllocError>
    ensures { IfOk result (λ b. IsTrue b ↔ IsRun scenario.now entries.now) }
{
    match check(alloc, scenario, entries)? {
        Verdict::Run => Ok(true),
        Verdict::NotRun(_) => Ok(false),
    }
}

/// Whether the entry at this place, counted from 0, is the first that does not follow.
fn break_at(
    alloc: Global,
    scenario: &Scenario,
    entries: &[Entry],
    place: u64,
) -> Result<bool, AllocError>
    ensures { IfOk result (λ b. IsTrue b ↔ BreaksAt scenario.now entries.now place) }
{
    match check(alloc, scenario, entries)? {
        Verdict::Run => Ok(false),
        Verdict::NotRun(at) => Ok(at as u64 == place),
    }
}

/// Whether a verdict is so of entries.
fn is_verdict(
    alloc: Global,
    scenario: &Scenario,
    entries: &[Entry],
    stated: &VerdictStated,
) -> Result<bool, AllocError>
    ensures { IfOk result (λ b. IsTrue b ↔ IsOfVerdict scenario.now entries.now stated.now) }
{
    match stated {
        VerdictStated::Run => are_run(alloc, scenario, entries),
        VerdictStated::NotARun(place) => break_at(alloc, scenario, entries, *place),
        VerdictStated::Fault(_) => Ok(false),
    }
}

/// Whether an answer is so of entries that were recorded.
fn is_of_entries(
    alloc: Global,
    scenario: &Scenario,
    entries: &[Entry],
    answers: &[Answer],
    stated: &Stated,
) -> Result<bool, AllocError>
    ensures { IfOk result (λ b. IsTrue b ↔ IsOfEntries scenario.now entries.now answers.now stated.now) }
{
    match stated {
        Stated::Verdict(stated) => is_verdict(alloc, scenario, entries, stated),
        Stated::Output(_) | Stated::End(_) | Stated::Written(_) => {
            is_end(alloc, scenario, entries, answers, stated)
        }
    }
}

/// Whether words are those of a fault.
fn are_words(alloc: Global, fault: LayoutFault, words: &Text) -> Result<bool, AllocError>
    ensures { IfOk result (λ b. IsTrue b ↔ (words.now ≡ fault_words fault)) }
{
    let meant = fault_words(alloc, fault)?;
    Ok(words.as_str() == meant.as_str())
}

/// Whether an answer states this fault.
fn states_refusal(alloc: Global, fault: LayoutFault, stated: &Stated) -> Result<bool, AllocError>
    ensures { IfOk result (λ b. IsTrue b ↔ StatesRefusal fault stated.now) }
{
    match stated {
        Stated::Verdict(VerdictStated::Fault(words)) => are_words(alloc, fault, words),
        Stated::Output(_) | Stated::End(_) | Stated::Verdict(_) | Stated::Written(_) => Ok(false),
    }
}

/// Whether an answer, among those below a recorded trace, is so of its bytes.
pub(crate) fn is_of_recorded(
    alloc: Global,
    scenario: &Scenario,
    bytes: &[u8],
    answers: &[Answer],
    stated: &Stated,
) -> Result<bool, AllocError>
    ensures { IfOk result (λ b. IsTrue b ↔ IsOfRecorded scenario.now bytes.now answers.now stated.now) }
{
    match read_entries(alloc, bytes) {
        Ok(entries) => is_of_entries(alloc, scenario, entries.as_slice(), answers, stated),
        Err(LayoutFault::Memory) => Err(AllocError),
        Err(fault) => states_refusal(alloc, fault, stated),
    }
}
