//! The latest step of a device, and what it output.

ghost use Rattle.std.specs.Prelude.{◌≡◌, ◌<◌, ◌≤◌, length};
ghost use Rattle.std.specs.Option.{option_copied};
ghost use Rattle.fleet_core.specs.Run.{IsRun};
ghost use Rattle.device_entries.specs.Places.{HasPlaces};
ghost use Rattle.debugger.specs.Moves.{HasSteps};
ghost use Rattle.debugger.specs.Shown.{latest, latest_step};

use device_machine::Output;
use fleet_core::step_of;
use scenario_image::{Scenario, Step};
use trace_file::Entry;

/// The step that a device makes as the last of its first ones; none before its first one.
pub(crate) fn latest_step(scenario: &Scenario, device: u16, made: u64) -> Option<&Step>
    requires device { device < length scenario.now.rows }
    requires row { HasSteps scenario.now device made }
    ensures { option_copied result ≡ latest_step scenario.now device made }
{
    // For the proof alone: a scenario whose rows are counted is known to be valid.
    let _known = scenario.rows();
    if made == 0 {
        return None;
    }
    let place = made - 1;
    step_of(scenario, device, place as u32)
}

/// The outputs of a device's latest entry, if this many of its entries are passed; none if it is none. The scenario and
/// the device are for the contract alone, which says whose run the entries are, and whose the indexes.
pub(crate) fn latest_outputs<'a>(
    _scenario: &Scenario,
    entries: &'a [Entry],
    indexes: &[usize],
    _device: u16,
    made: u64,
) -> &'a [Output]
    requires run { IsRun _scenario.now entries.now }
    requires places { HasPlaces entries.now (length entries.now) _device indexes.now }
    requires made { made ≤ length indexes.now }
    ensures { result.now ≡ latest _scenario.now _device made }
{
    if made == 0 {
        return &[];
    }
    let index = indexes[made as usize - 1];
    let entry = &entries[index];
    entry.outputs.as_slice()
}
