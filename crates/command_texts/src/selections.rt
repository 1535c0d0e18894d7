//! Entries that are asked for, and that a run does not have.
ghost use Rattle.std.specs.Prelude.{◌≡◌};
ghost use Rattle.command_texts.specs.Selections.{selection_fault};

use command_files::Fault;
use trace_text::SelectionFault;

/// The fault of entries that a trace does not have.
pub fn selection_fault(fault: SelectionFault) -> Fault
    ensures { result ≡ selection_fault fault }
{
    match fault {
        SelectionFault::NoDevice => Fault::NoDevice,
        SelectionFault::PastEnd => Fault::PastEnd,
        SelectionFault::Range => Fault::Range,
        SelectionFault::Memory => Fault::Memory,
    }
}
