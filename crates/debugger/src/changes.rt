//! Where a device's value changes.

ghost use Rattle.std.specs.Prelude.{◌≡◌, ◌+◌, ◌<◌, ◌↔◌, IsTrue, true, false, length, take, Some, slice_get};
ghost use Rattle.std.specs.Option.{option_copied};
ghost use Rattle.device_machine.specs.State.{Device};
ghost use Rattle.fleet_core.specs.Run.{IsRun};
ghost use Rattle.debugger.specs.Shown.{value_shown};
ghost use Rattle.debugger.specs.Stops.{HasChanged};
ghost use Rattle.debugger.specs.Searches.{HasWatch, AreWatched, IsChanged, IsUnchanged, IsStillAt};

use crate::watches::{Watch, watched_device};
use device_machine::Device;
use lwm2m_values::Value;
use object_defs::Path;
use scenario_image::Scenario;
use trace_file::Entry;

/// Whether two values, where they are there, are the same.
fn is_same(before: Option<&Value>, after: Option<&Value>) -> bool
    ensures { IsTrue result ↔ (option_copied before.entry ≡ option_copied after.entry) }
{
    match (before, after) {
        (None, None) => true,
        (Some(before), Some(after)) => before == after,
        (None, Some(_)) | (Some(_), None) => false,
    }
}

/// Whether the value of a device at the path is another one than that of its copy.
fn value_changed(devices: &[Device], watched: &[Watch], device: u16, path: &Path) -> bool
    requires { device < length devices.now → HasWatch watched.now device }
    ensures changed { result ≡ true → IsChanged devices.now watched.now device path.now }
    ensures still { result ≡ false → (x : Device) → slice_get devices.now device ≡ Some x
        → IsUnchanged x watched.now device path.now }
{
    let Some(before) = devices.get(usize::from(device)) else {
        return false;
    };
    let Some(after) = watched_device(watched, device) else {
        unreachable!()
    };
    let same = is_same(before.value(path), after.value(path));
    !same
}

/// Whether the entry at this index changes the device's value at the path. Those before it, from the place of the
/// devices on, did not: so the value of the device is compared with that of the copy that has made the entry's step.
pub(crate) fn changes_after(
    scenario: &Scenario,
    entries: &[Entry],
    devices: &[Device],
    watched: &[Watch],
    device: u16,
    path: &Path,
    index: usize,
) -> bool
    requires run { IsRun scenario.now entries.now }
    requires within { index < length entries.now }
    requires rows { length devices.now ≡ length scenario.now.rows }
    requires watched { AreWatched scenario.now (take (index + 1) entries.now) watched.now }
    requires own { device < length devices.now → HasWatch watched.now device }
    requires still { IsStillAt scenario.now entries.now devices.now index device path.now }
    ensures changed { IsTrue result
        ↔ HasChanged (λ n. value_shown scenario.now entries.now n device path.now) (index + 1) }
    ensures still { result ≡ false → IsStillAt scenario.now entries.now devices.now (index + 1) device path.now }
{
    // For the proof alone: a scenario whose rows are counted is known to be valid.
    let _known = scenario.rows();
    let entry = &entries[index];
    if entry.device != device {
        return false;
    }
    value_changed(devices, watched, device, path)
}
