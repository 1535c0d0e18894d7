//! Whether an answer states what is found in a file.

ghost use Rattle.std.specs.Prelude.{◌≡◌, ◌↔◌, length, IsTrue, IfOk};
ghost use Rattle.scenario_asm.specs.Canonical.{text_of_scenario};
ghost use Rattle.case_play.specs.Answers.{count_steps, is_line, lines_below, StatesEntries, StatesFault};
ghost use Rattle.case_play.specs.Answers.{StatesFinding, StatesScenario};
ghost use Rattle.case_play.specs.EntryWords.{entries_in_words};

use crate::ends::{is_image, is_trace};
use crate::entries::entries_in_words;
use crate::finding::Finding;
use crate::written::{are_kept, is_kept};
use case_text::{FileAnswer, FileKind, FileStated};
use scenario_asm::disassemble;
use scenario_image::Scenario;
use std::alloc::{AllocError, Global};
use trace_file::Entry;

/// Whether it is a line of what the answer above states.
pub(crate) fn is_line(stated: &FileStated) -> bool
    ensures { result ≡ is_line stated.now }
{
    match stated {
        FileStated::TextLine(_) => true,
        FileStated::Ok { .. }
        | FileStated::OkEntries(_)
        | FileStated::Fault(_)
        | FileStated::FaultOrOk
        | FileStated::Image(_)
        | FileStated::Trace(_)
        | FileStated::Text
        | FileStated::Entries => false,
    }
}

/// The lines that stand directly below an answer, by the answers below it.
fn lines_below(alloc: Global, below: &[FileAnswer]) -> Result<Vec<u8>, AllocError>
    ensures { IfOk result (λ v. v.items ≡ lines_below below.now) }
{
    let mut lines = Vec::new(alloc);
    for answer in below {
        match &answer.stated {
            FileStated::TextLine(text) => {
                lines.extend_from_slice(text.as_str().as_bytes())?;
                lines.push(b'\n')?;
            }
            FileStated::Ok { .. }
            | FileStated::OkEntries(_)
            | FileStated::Fault(_)
            | FileStated::FaultOrOk
            | FileStated::Image(_)
            | FileStated::Trace(_)
            | FileStated::Text
            | FileStated::Entries => return Ok(lines),
        }
    }
    Ok(lines)
}

/// Whether the lines below an answer are this text.
fn are_lines(alloc: Global, below: &[FileAnswer], text: &str) -> Result<bool, AllocError>
    ensures { IfOk result (λ b. IsTrue b ↔ (text.now ≡ lines_below below.now)) }
{
    let lines = lines_below(alloc, below)?;
    Ok(text.as_bytes() == lines.as_slice())
}

/// Whether a scenario has that many classes, devices and steps.
fn has_counts(scenario: &Scenario, classes: u64, devices: u64, steps: u64) -> bool
    ensures { IsTrue result ↔ ((length scenario.now.classes ≡ classes) × (length scenario.now.rows ≡ devices)
        × (count_steps scenario.now ≡ steps)) }
{
    scenario.classes() as u64 == classes
        && scenario.rows() as u64 == devices
        && scenario.steps() as u64 == steps
}

/// Whether the lines below an answer are the canonical text of the scenario.
fn is_text(alloc: Global, below: &[FileAnswer], scenario: &Scenario) -> Result<bool, AllocError>
    ensures { IfOk result (λ b. IsTrue b ↔ (text_of_scenario scenario.now ≡ lines_below below.now)) }
{
    let text = disassemble(alloc, scenario)?;
    are_lines(alloc, below, text.as_str())
}

/// Whether the lines below an answer are the entries in words.
fn are_entries(alloc: Global, below: &[FileAnswer], entries: &[Entry]) -> Result<bool, AllocError>
    ensures { IfOk result (λ b. IsTrue b ↔ (entries_in_words entries.now ≡ lines_below below.now)) }
{
    let text = entries_in_words(alloc, entries)?;
    are_lines(alloc, below, text.as_str())
}

fn states_scenario(
    alloc: Global,
    kind: FileKind,
    file: &[u8],
    stated: &FileStated,
    below: &[FileAnswer],
    scenario: &Scenario,
) -> Result<bool, AllocError>
    ensures { IfOk result (λ b. IsTrue b ↔ StatesScenario kind file.now stated.now below.now scenario.now) }
{
    match stated {
        FileStated::Ok {
            classes,
            devices,
            steps,
        } => Ok(has_counts(scenario, *classes, *devices, *steps)),
        FileStated::FaultOrOk => is_kept(alloc, kind, file, scenario),
        FileStated::Image(digits) => is_image(alloc, scenario, digits.as_slice()),
        FileStated::Text => is_text(alloc, below, scenario),
        FileStated::OkEntries(_)
        | FileStated::Fault(_)
        | FileStated::Trace(_)
        | FileStated::Entries
        | FileStated::TextLine(_) => Ok(false),
    }
}

fn states_entries(
    alloc: Global,
    file: &[u8],
    stated: &FileStated,
    below: &[FileAnswer],
    entries: &[Entry],
) -> Result<bool, AllocError>
    ensures { IfOk result (λ b. IsTrue b ↔ StatesEntries file.now stated.now below.now entries.now) }
{
    match stated {
        FileStated::OkEntries(count) => Ok(entries.len() as u64 == *count),
        FileStated::FaultOrOk => are_kept(alloc, file, entries),
        FileStated::Trace(digits) => is_trace(alloc, entries, digits.as_slice()),
        FileStated::Entries => are_entries(alloc, below, entries),
        FileStated::Ok { .. }
        | FileStated::Fault(_)
        | FileStated::Image(_)
        | FileStated::Text
        | FileStated::TextLine(_) => Ok(false),
    }
}

fn states_fault(stated: &FileStated, found: &str) -> bool
    ensures { IsTrue result ↔ StatesFault stated.now found.now }
{
    match stated {
        FileStated::Fault(words) => found == words.as_str(),
        FileStated::FaultOrOk => true,
        FileStated::Ok { .. }
        | FileStated::OkEntries(_)
        | FileStated::Image(_)
        | FileStated::Trace(_)
        | FileStated::Text
        | FileStated::Entries
        | FileStated::TextLine(_) => false,
    }
}

/// Whether an answer, above these others, states what is found in a file.
pub(crate) fn states_finding(
    alloc: Global,
    kind: FileKind,
    file: &[u8],
    stated: &FileStated,
    below: &[FileAnswer],
    finding: &Finding,
) -> Result<bool, AllocError>
    ensures { IfOk result (λ b. IsTrue b ↔ StatesFinding kind file.now stated.now below.now finding.now) }
{
    match finding {
        Finding::Scenario(scenario) => {
            states_scenario(alloc, kind, file, stated, below, scenario)
        }
        Finding::Entries(entries) => {
            states_entries(alloc, file, stated, below, entries.as_slice())
        }
        Finding::Fault(words) => Ok(states_fault(stated, words.as_str())),
    }
}
