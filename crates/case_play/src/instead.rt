//! What came where something else is stated of the whole scenario, or of a recorded trace.

ghost use Rattle.std.specs.Prelude.{IfOk};
ghost use Rattle.case_play.specs.Came.{ImageCame, TraceCame, TextCame, EndCame, CameInstead, VerdictCame};
ghost use Rattle.case_play.specs.Came.{CameOfEntries, CameOfRecorded, CameBelow};

use crate::below::recorded_in;
use crate::came::Came;
use crate::faults::fault_words;
use byte_layout::LayoutFault;
use case_text::{DeviceNumbers, Part, Stated, WrittenStated};
use fleet_core::{Entry, Verdict, WriteFault, check, read_entries, unfinished, write_entries};
use lwm2m_values::Text;
use octets::Bytes;
use scenario_asm::disassemble;
use scenario_image::{Scenario, save};
use std::alloc::{AllocError, Global};

pub(crate) fn image_came(alloc: Global, scenario: &Scenario) -> Result<Came, AllocError>
    ensures { IfOk result (λ x. ImageCame scenario.now x) }
{
    let image = save(alloc, scenario)?;
    Ok(Came::Image(Bytes::from_vec(image)))
}

pub(crate) fn trace_came(alloc: Global, entries: &[Entry]) -> Result<Came, AllocError>
    ensures { IfOk result (λ x. TraceCame entries.now x) }
{
    match write_entries(alloc, entries) {
        Ok(bytes) => Ok(Came::Trace(bytes)),
        Err(WriteFault::Memory) => Err(AllocError),
        Err(WriteFault::TooLarge) => Ok(Came::TooLarge),
    }
}

pub(crate) fn text_came(alloc: Global, scenario: &Scenario) -> Result<Came, AllocError>
    ensures { IfOk result (λ x. TextCame scenario.now x) }
{
    let text = disassemble(alloc, scenario)?;
    Ok(Came::Text(Text::from_string(text)))
}

/// How entries end.
fn end_came(alloc: Global, scenario: &Scenario, entries: &[Entry]) -> Result<Came, AllocError>
    ensures { IfOk result (λ x. EndCame scenario.now entries.now x) }
{
    let waiting = unfinished(alloc, scenario, entries)?;
    Ok(Came::Run {
        entries: entries.len() as u64,
        waiting: DeviceNumbers::from_vec(waiting),
    })
}

/// What a scenario and its run have in place of what is stated.
fn came_instead(
    alloc: Global,
    scenario: &Scenario,
    entries: &[Entry],
    stated: &Stated,
) -> Result<Came, AllocError>
    ensures { IfOk result (λ x. CameInstead scenario.now entries.now stated.now x) }
{
    match stated {
        Stated::Written(WrittenStated::Image(_)) => image_came(alloc, scenario),
        Stated::Written(WrittenStated::Trace(_)) => trace_came(alloc, entries),
        Stated::Written(WrittenStated::Text) => text_came(alloc, scenario),
        Stated::Output(_) | Stated::End(_) | Stated::Verdict(_) | Stated::Written(_) => {
            end_came(alloc, scenario, entries)
        }
    }
}

/// Whether entries are a run.
fn verdict_came(alloc: Global, scenario: &Scenario, entries: &[Entry]) -> Result<Came, AllocError>
    ensures { IfOk result (λ x. VerdictCame scenario.now entries.now x) }
{
    match check(alloc, scenario, entries)? {
        Verdict::Run => Ok(Came::IsRun),
        Verdict::NotRun(place) => Ok(Came::NotARun(place as u64)),
    }
}

/// What entries that were recorded have in place of what is stated.
fn came_of_entries(
    alloc: Global,
    scenario: &Scenario,
    entries: &[Entry],
    stated: &Stated,
) -> Result<Came, AllocError>
    ensures { IfOk result (λ x. CameOfEntries scenario.now entries.now stated.now x) }
{
    match stated {
        Stated::Verdict(_) => verdict_came(alloc, scenario, entries),
        Stated::Output(_) | Stated::End(_) | Stated::Written(_) => {
            came_instead(alloc, scenario, entries, stated)
        }
    }
}

/// What a recorded trace has in place of what is stated.
fn came_of_recorded(
    alloc: Global,
    scenario: &Scenario,
    bytes: &[u8],
    stated: &Stated,
) -> Result<Came, AllocError>
    ensures { IfOk result (λ x. CameOfRecorded scenario.now bytes.now stated.now x) }
{
    match read_entries(alloc, bytes) {
        Ok(entries) => came_of_entries(alloc, scenario, entries.as_slice(), stated),
        Err(LayoutFault::Memory) => Err(AllocError),
        Err(fault) => Ok(Came::Fault(fault_words(alloc, fault)?)),
    }
}

/// What came where this is stated below an item. The entries are those of the serial run.
pub(crate) fn came_below(
    alloc: Global,
    scenario: &Scenario,
    entries: &[Entry],
    part: &Part,
    stated: &Stated,
) -> Result<Came, AllocError>
    ensures { IfOk result (λ x. CameBelow scenario.now entries.now part.now stated.now x) }
{
    match recorded_in(part) {
        None => came_instead(alloc, scenario, entries, stated),
        Some(bytes) => came_of_recorded(alloc, scenario, bytes.as_slice(), stated),
    }
}
