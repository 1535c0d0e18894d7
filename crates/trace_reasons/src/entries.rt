//! The text of the entries that are asked for.

ghost use Rattle.std.specs.Prelude.{◌≡◌, ◌+◌, true, false, [], IsSome, IfErr, IfOk, OnOk};
ghost use Rattle.std.specs.String.{string_bytes};
ghost use Rattle.fleet_core.specs.Board.{ShowsAfter};
ghost use Rattle.fleet_core.specs.Run.{IsRun, step_at};
ghost use Rattle.trace_text.specs.Selection.{IsSelectable, IsSelectionFault};
ghost use Rattle.trace_reasons.specs.Text.{IsEntryText, IsReasonedText};

use crate::lines::{entry_with, reason_lines, step_happenings};
use crate::selection::{check, is_between, is_wanted};
use device_machine::Device;
use fleet_core::{make_step, start_devices, step_of};
use scenario_image::Scenario;
use std::alloc::{AllocError, Global};
use trace_file::Entry;
use trace_text::{Selection, SelectionFault, Transcript};

/// The text of those entries of a run that are of a device and have numbers from one number to another, as
/// `trace_text` has it, with one line more below what an arriving datagram says, one below what each datagram says that
/// is sent in a tick, and one for each observation that ends without a datagram, at its place among them: why the
/// device, in the state right before that step, handles the first as it does, sends the others by itself, and ends
/// these; or the first of what the scenario and the trace do not have.
pub fn selected_reasons(
    alloc: Global,
    scenario: &Scenario,
    entries: &[Entry],
    selection: Selection,
) -> Result<String, SelectionFault>
    requires { IsRun scenario.now entries.now }
    ensures selectable { IfOk result (λ _. IsSelectable scenario.now selection entries.now) }
    ensures text { IfOk result (λ t. IsReasonedText scenario.now selection entries.now (string_bytes t)) }
    ensures refused { IfErr result (IsSelectionFault scenario.now selection entries.now) }
{
    check(scenario, entries, selection)?;
    let text = text_of(alloc, scenario, entries, selection)?;
    Ok(text)
}

/// Lets the device of an entry make its step, and returns the text of the entry with the lines of the step's reason, or
/// nothing where it is not asked for.
fn pass(
    alloc: Global,
    scenario: &Scenario,
    transcript: &mut Transcript,
    device: &mut Device,
    number: usize,
    entry: &Entry,
    is_shown: bool,
) -> Result<String, AllocError>
    requires scenario { transcript.old ≡ scenario.now }
    requires stands { IsSome (step_at scenario.now entry.now.device entry.now.step) }
    requires shows { ShowsAfter scenario.now entry.now.device entry.now.step device.old }
    ensures shown { is_shown ≡ true → IfOk result (λ t. IsEntryText scenario.now number entry.now (string_bytes t)) }
    ensures hidden { is_shown ≡ false → IfOk result (λ t. string_bytes t ≡ []) }
    ensures shows { OnOk result (ShowsAfter scenario.now entry.now.device (entry.now.step + 1) device.new) }
    ensures same { transcript.new ≡ transcript.old }
{
    // For the proof alone: a scenario whose rows are counted is known to be valid.
    let _known = scenario.rows();
    let Some(step) = step_of(scenario, entry.device, entry.step) else {
        unreachable!()
    };
    let text = if is_shown {
        let lines = reason_lines(alloc, device, step)?;
        let happenings = step_happenings(alloc, device, step)?;
        let below = happenings.as_slice();
        entry_with(alloc, transcript, number, entry, lines.as_str(), below)?
    } else {
        String::new(alloc)
    };
    let _outputs = make_step(alloc, scenario, device, entry.device, entry.step, step)?;
    Ok(text)
}

/// The text of the selected entries, which may be none. Beside the entries their devices make their steps.
fn text_of(
    alloc: Global,
    scenario: &Scenario,
    entries: &[Entry],
    selection: Selection,
) -> Result<String, AllocError>
    requires { IsRun scenario.now entries.now }
    ensures { IfOk result (λ t. IsReasonedText scenario.now selection entries.now (string_bytes t)) }
{
    let mut transcript = Transcript::new(alloc, scenario)?;
    let mut devices = start_devices(alloc, scenario)?;
    let mut out = String::new(alloc);
    for (number, entry) in entries.iter().enumerate() {
        if is_wanted(selection, entry.device) {
            let is_shown = is_between(selection, number);
            let device = &mut devices[usize::from(entry.device)];
            let text = pass(
                alloc,
                scenario,
                &mut transcript,
                device,
                number,
                entry,
                is_shown,
            )?;
            out.push_str(text.as_str())?;
        }
    }
    Ok(out)
}
