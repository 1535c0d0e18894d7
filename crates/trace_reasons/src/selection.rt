//! Which entries are asked for, and whether the trace has them.

ghost use Rattle.std.specs.Prelude.{◌≡◌, ◌&&◌, IfErr, OnOk};
ghost use Rattle.trace_text.specs.Selection.{IsSelectable, IsSelectionFault, is_from, is_up_to, is_wanted};

use scenario_image::Scenario;
use trace_file::Entry;
use trace_text::{Selection, SelectionFault};

/// Whether entries of a device are asked for.
pub(crate) fn is_wanted(selection: Selection, device: u16) -> bool
    ensures { result ≡ is_wanted selection.device device }
{
    match selection.device {
        None => true,
        Some(wanted) => device == wanted,
    }
}

/// Whether an entry's number is one of those that are asked for.
pub(crate) fn is_between(selection: Selection, number: usize) -> bool
    ensures { result ≡ (is_from selection.from number && is_up_to selection.to number) }
{
    let is_from = match selection.from {
        None => true,
        Some(from) => from as usize <= number,
    };
    let is_up_to = match selection.to {
        None => true,
        Some(to) => number <= to as usize,
    };
    is_from && is_up_to
}

/// Whether the scenario and the trace have what is asked for.
pub(crate) fn check(
    scenario: &Scenario,
    entries: &[Entry],
    selection: Selection,
) -> Result<(), SelectionFault>
    ensures fits { OnOk result (IsSelectable scenario.now selection entries.now) }
    ensures refused { IfErr result (IsSelectionFault scenario.now selection entries.now) }
{
    if let Some(device) = selection.device {
        if usize::from(device) >= scenario.rows() {
            return Err(SelectionFault::NoDevice);
        }
    }
    if let Some(from) = selection.from {
        if from as usize >= entries.len() {
            return Err(SelectionFault::PastEnd);
        }
    }
    match (selection.from, selection.to) {
        (Some(from), Some(to)) if to < from => Err(SelectionFault::Range),
        _ => Ok(()),
    }
}
