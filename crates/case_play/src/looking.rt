//! What is found in a file.

ghost use Rattle.std.specs.Prelude.{◌≡◌, ◌≢◌, IfOk};
ghost use Rattle.case_play.specs.Faults.{fault_words};
ghost use Rattle.case_play.specs.FaultWords.{text_fault_words, unreadable_words};
ghost use Rattle.case_play.specs.Trying.{IsOneFinding};

use crate::faults::fault_words;
use crate::finding::Finding;
use crate::text_faults::text_fault_words;
use byte_layout::LayoutFault;
use case_text::FileKind;
use lwm2m_values::Text;
use scenario_asm::{AsmFault, assemble};
use scenario_image::load;
use scenario_words::Cause;
use std::alloc::{AllocError, Global};
use std::str;
use trace_file::read_entries;

/// An image or a trace file is refused so, unless memory ran out.
fn refused_layout(alloc: Global, fault: LayoutFault) -> Result<Finding, AllocError>
    ensures { IfOk result (λ x. (fault ≢ LayoutFault.Memory) × (x ≡ Finding.Fault (fault_words fault))) }
{
    if fault == LayoutFault::Memory {
        return Err(AllocError);
    }
    Ok(Finding::Fault(fault_words(alloc, fault)?))
}

/// A text is refused so, unless memory ran out.
fn refused_text(alloc: Global, fault: AsmFault) -> Result<Finding, AllocError>
    ensures { IfOk result (λ x. (fault.cause ≢ Cause.Memory) × (x ≡ Finding.Fault (text_fault_words fault))) }
{
    if fault.cause == Cause::Memory {
        return Err(AllocError);
    }
    let words = text_fault_words(alloc, fault)?;
    Ok(Finding::Fault(Text::from_string(words)))
}

/// Bytes are refused as a text, since they are not UTF-8.
fn unreadable(alloc: Global) -> Result<Finding, AllocError>
    ensures { IfOk result (λ x. x ≡ Finding.Fault unreadable_words) }
{
    Ok(Finding::Fault(Text::from_str(alloc, "read")?))
}

fn find_in_image(alloc: Global, bytes: &[u8]) -> Result<Finding, AllocError>
    ensures { IfOk result (λ x. IsOneFinding FileKind.Image bytes.now x) }
{
    match load(alloc, bytes) {
        Ok(scenario) => Ok(Finding::Scenario(scenario)),
        Err(fault) => refused_layout(alloc, fault),
    }
}

fn find_in_trace(alloc: Global, bytes: &[u8]) -> Result<Finding, AllocError>
    ensures { IfOk result (λ x. IsOneFinding FileKind.Trace bytes.now x) }
{
    match read_entries(alloc, bytes) {
        Ok(entries) => Ok(Finding::Entries(entries)),
        Err(fault) => refused_layout(alloc, fault),
    }
}

fn find_in_utf8(alloc: Global, text: &str) -> Result<Finding, AllocError>
    ensures { IfOk result (λ x. IsOneFinding FileKind.Text text.now x) }
{
    match assemble(alloc, text) {
        Ok(scenario) => Ok(Finding::Scenario(scenario)),
        Err(fault) => refused_text(alloc, fault),
    }
}

fn find_in_text(alloc: Global, bytes: &[u8]) -> Result<Finding, AllocError>
    ensures { IfOk result (λ x. IsOneFinding FileKind.Text bytes.now x) }
{
    match str::from_utf8(bytes) {
        Ok(text) => find_in_utf8(alloc, text),
        Err(_) => unreadable(alloc),
    }
}

/// What is found in a file of this kind.
pub(crate) fn find(alloc: Global, kind: FileKind, bytes: &[u8]) -> Result<Finding, AllocError>
    ensures { IfOk result (λ x. IsOneFinding kind bytes.now x) }
{
    match kind {
        FileKind::Image => find_in_image(alloc, bytes),
        FileKind::Trace => find_in_trace(alloc, bytes),
        FileKind::Text => find_in_text(alloc, bytes),
    }
}
