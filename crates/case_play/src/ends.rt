//! What is stated of a whole scenario.

ghost use Rattle.std.specs.Prelude.{◌≡◌, ◌↔◌, ◌++◌, length, IsTrue, IfOk};
ghost use Rattle.fleet_core.specs.Waiting.{waiting_devices};
ghost use Rattle.scenario_asm.specs.Canonical.{text_of_scenario};
ghost use Rattle.case_play.specs.Ends.{EndsSo, IsEnd, IsImageOf, IsTraceOf, IsWrittenSo, line_in, text_in};

use crate::digits::matches;
use case_text::{Answer, Digit, EndStated, Stated, WrittenStated};
use fleet_core::{Entry, WriteFault, unfinished, write_entries};
use scenario_asm::disassemble;
use scenario_image::{Scenario, save};
use std::alloc::{AllocError, Global};

/// Whether a run has `count` entries and ends with these devices waiting, not at the end of their rows.
fn is_run(
    alloc: Global,
    scenario: &Scenario,
    entries: &[Entry],
    count: u64,
    devices: &[u16],
) -> Result<bool, AllocError>
    ensures { IfOk result (λ b. IsTrue b
        ↔ ((length entries.now ≡ count) × (waiting_devices scenario.now entries.now ≡ devices.now))) }
{
    let left = unfinished(alloc, scenario, entries)?;
    Ok(entries.len() as u64 == count && left.as_slice() == devices)
}

/// Whether these are the digits of the image.
pub(crate) fn is_image(
    alloc: Global,
    scenario: &Scenario,
    digits: &[Digit],
) -> Result<bool, AllocError>
    ensures { IfOk result (λ b. IsTrue b ↔ IsImageOf scenario.now digits.now) }
{
    let image = save(alloc, scenario)?;
    Ok(matches(digits, image.as_slice()))
}

/// Whether these are the digits of the entries' trace file.
pub(crate) fn is_trace(
    alloc: Global,
    entries: &[Entry],
    digits: &[Digit],
) -> Result<bool, AllocError>
    ensures { IfOk result (λ b. IsTrue b ↔ IsTraceOf entries.now digits.now) }
{
    match write_entries(alloc, entries) {
        Ok(bytes) => Ok(matches(digits, bytes.as_slice())),
        Err(WriteFault::Memory) => Err(AllocError),
        Err(WriteFault::TooLarge) => Ok(false),
    }
}

/// Adds the line of a text that an answer states, if it states one.
fn put_line(out: &mut Vec<u8>, stated: &Stated) -> Result<(), AllocError>
    ensures { IfOk result (λ u. out.new.items ≡ out.old.items ++ line_in stated.now) }
{
    if let Stated::Written(WrittenStated::TextLine(text)) = stated {
        out.extend_from_slice(text.as_str().as_bytes())?;
        out.push(b'\n')?;
    }
    Ok(())
}

/// The text whose lines are stated.
fn text_in(alloc: Global, answers: &[Answer]) -> Result<Vec<u8>, AllocError>
    ensures { IfOk result (λ v. v.items ≡ text_in answers.now) }
{
    let mut out = Vec::new(alloc);
    for answer in answers {
        put_line(&mut out, &answer.stated)?;
    }
    Ok(out)
}

/// Whether the lines that are stated are the canonical text of the scenario.
fn is_text(alloc: Global, scenario: &Scenario, answers: &[Answer]) -> Result<bool, AllocError>
    ensures { IfOk result (λ b. IsTrue b ↔ (text_of_scenario scenario.now ≡ text_in answers.now)) }
{
    let stated = text_in(alloc, answers)?;
    let text = disassemble(alloc, scenario)?;
    Ok(text.as_str().as_bytes() == stated.as_slice())
}

/// Whether the serial run ends as an answer states.
fn ends_so(
    alloc: Global,
    scenario: &Scenario,
    entries: &[Entry],
    stated: &EndStated,
) -> Result<bool, AllocError>
    ensures { IfOk result (λ b. IsTrue b ↔ EndsSo scenario.now entries.now stated.now) }
{
    match stated {
        EndStated::Done(count) => is_run(alloc, scenario, entries, *count, &[]),
        EndStated::Stalled { steps, waiting } => {
            is_run(alloc, scenario, entries, *steps, waiting.as_slice())
        }
        EndStated::Fault { .. } => Ok(false),
    }
}

/// Whether what is written of the scenario and its serial run is what an answer states, among those below its item.
fn is_written_so(
    alloc: Global,
    scenario: &Scenario,
    entries: &[Entry],
    answers: &[Answer],
    stated: &WrittenStated,
) -> Result<bool, AllocError>
    ensures { IfOk result (λ b. IsTrue b ↔ IsWrittenSo scenario.now entries.now answers.now stated.now) }
{
    match stated {
        WrittenStated::Image(digits) => is_image(alloc, scenario, digits.as_slice()),
        WrittenStated::Trace(digits) => is_trace(alloc, entries, digits.as_slice()),
        WrittenStated::Text => is_text(alloc, scenario, answers),
        WrittenStated::TextLine(_) => Ok(true),
    }
}

/// Whether an answer, among those below its item, is so of the scenario and its serial run.
pub(crate) fn is_end(
    alloc: Global,
    scenario: &Scenario,
    entries: &[Entry],
    answers: &[Answer],
    stated: &Stated,
) -> Result<bool, AllocError>
    ensures { IfOk result (λ b. IsTrue b ↔ IsEnd scenario.now entries.now answers.now stated.now) }
{
    match stated {
        Stated::Output(_) => Ok(true),
        Stated::End(stated) => ends_so(alloc, scenario, entries, stated),
        Stated::Verdict(_) => Ok(false),
        Stated::Written(stated) => is_written_so(alloc, scenario, entries, answers, stated),
    }
}
