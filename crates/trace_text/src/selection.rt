//! Which entries of a trace are asked for, and why a trace may not have them.

ghost use Rattle.std.specs.Prelude.{◌≡◌, IfErr, OnOk};
ghost use Rattle.trace_text.specs.Selection.{IsSelectable, IsSelectionFault, is_below, is_from, is_ordered};
ghost use Rattle.trace_text.specs.Selection.{is_selected, is_up_to, is_wanted};

use scenario_image::Scenario;
use std::alloc::AllocError;
use trace_file::Entry;

/// Which entries of a trace are asked for: of one device, or of all; and from one number to another one, counted from
/// 0, both of which belong to them.
#[derive(Clone, Copy)]
pub struct Selection {
    /// The number of the device, if the entries of one alone are asked for.
    pub device: Option<u16>,
    /// The first number; none: 0.
    pub from: Option<u32>,
    /// The last number; none: that of the last entry of all. A greater one is the same.
    pub to: Option<u32>,
}

/// Why a trace has no text of the entries that are asked for.
#[derive(Clone, Copy)]
pub enum SelectionFault {
    /// The scenario has no device of this number.
    NoDevice,
    /// The entries end before the first number.
    PastEnd,
    /// The last number is below the first one.
    Range,
    /// No memory was left.
    Memory,
}

impl From<AllocError> for SelectionFault {
    ghost use Rattle.std.specs.Prelude.{◌≡◌};
    ghost use Rattle.trace_text.specs.declared.selection.SelectionFault.TheVariants.{Memory};

    ghost from_gives = { λ _ e. e ≡ Memory };

    fn from(_error: AllocError) -> SelectionFault {
        SelectionFault::Memory
    }
}

impl Selection {
    /// Whether the entry of this number is one of those that are asked for.
    pub fn has(self, number: usize, entry: &Entry) -> bool
        ensures { result ≡ is_selected self number entry.now }
    {
        is_wanted(self.device, entry.device)
            && is_from(self.from, number)
            && is_up_to(self.to, number)
    }

    /// Whether a trace of this many entries has what is asked for.
    pub fn check(self, scenario: &Scenario, entries: &[Entry]) -> Result<(), SelectionFault>
        ensures fits { OnOk result (IsSelectable scenario.now self entries.now) }
        ensures refused { IfErr result (IsSelectionFault scenario.now self entries.now) }
    {
        if !has_row(self.device, scenario.rows()) {
            return Err(SelectionFault::NoDevice);
        }
        if !has_entry(self.from, entries.len()) {
            return Err(SelectionFault::PastEnd);
        }
        if !is_ordered(self.from, self.to) {
            return Err(SelectionFault::Range);
        }
        Ok(())
    }
}

fn is_wanted(device: Option<u16>, of: u16) -> bool
    ensures { result ≡ is_wanted device of }
{
    match device {
        None => true,
        Some(device) => of == device,
    }
}

fn is_from(from: Option<u32>, number: usize) -> bool
    ensures { result ≡ is_from from number }
{
    match from {
        None => true,
        Some(from) => from as usize <= number,
    }
}

fn is_up_to(to: Option<u32>, number: usize) -> bool
    ensures { result ≡ is_up_to to number }
{
    match to {
        None => true,
        Some(to) => number <= to as usize,
    }
}

fn has_row(device: Option<u16>, rows: usize) -> bool
    ensures { result ≡ is_below device rows }
{
    match device {
        None => true,
        Some(device) => usize::from(device) < rows,
    }
}

fn has_entry(from: Option<u32>, entries: usize) -> bool
    ensures { result ≡ is_below from entries }
{
    match from {
        None => true,
        Some(from) => (from as usize) < entries,
    }
}

fn is_ordered(from: Option<u32>, to: Option<u32>) -> bool
    ensures { result ≡ is_ordered from to }
{
    match (from, to) {
        (Some(from), Some(to)) => from <= to,
        (None, _) | (Some(_), None) => true,
    }
}
