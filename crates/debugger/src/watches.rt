//! Copies of the devices whose values breakpoints watch, which go along the run.

ghost use Rattle.std.specs.Prelude.{◌≡◌, ℕ, ◌+◌, ◌<◌, length, take, true, IfSome, IfNone, IfOk, OnOk};
ghost use Rattle.fleet_core.specs.Run.{IsRun};
ghost use Rattle.fleet_core.specs.Board.{ShowsAfter};
ghost use Rattle.debugger.specs.Moves.{HasSteps};
ghost use Rattle.debugger.specs.Searches.{change_in, HasWatch, HasNoWatch, IsWatched, AreCopiesOf, AreWatched};
ghost use Rattle.debugger.specs.Searches.{IsWatching, AreWatching};

use crate::breaks::Break;
use crate::points::Numbered;
use device_machine::Device;
use fleet_core::{make_step, step_of};
use object_defs::Path;
use scenario_image::Scenario;
use std::alloc::{AllocError, Global};
use trace_file::Entry;

/// A copy of a device.
#[derive(Drop)]
pub(crate) struct Watch {
    /// Its row.
    pub(crate) device: u16,
    /// The copy.
    pub(crate) machine: Device,
}

/// The device and the path of a breakpoint that is that of a value.
pub(crate) fn change_in(point: &Break) -> Option<(u16, Path)>
    ensures { result ≡ change_in point.now }
{
    match point {
        Break::Changed { device, path } => Some((*device, *path)),
        Break::At(_) | Break::DeviceStep { .. } | Break::Code { .. } | Break::Notified { .. } =>
            None,
    }
}

/// The copy of this row's device, if there is one.
pub(crate) fn watched_device(watched: &[Watch], device: u16) -> Option<&Device>
    ensures some { IfSome result (λ m. IsWatched watched.now device m.now) }
    ensures none { IfNone result (HasNoWatch watched.now (length watched.now) device) }
{
    for watch in watched {
        if watch.device == device {
            return Some(&watch.machine);
        }
    }
    None
}

/// Whether there is a copy of this row's device.
fn has_watch(watched: &[Watch], device: u16) -> bool
    ensures { result ≡ true → HasWatch watched.now device }
{
    match watched_device(watched, device) {
        None => false,
        Some(_) => true,
    }
}

/// Adds a copy of this row's device, if there is the device and no copy yet.
fn watch_device(devices: &[Device], watched: &mut Vec<Watch>, device: u16) -> Result<(), AllocError>
    requires { AreCopiesOf devices.now watched.old.items }
    ensures copies { OnOk result (AreCopiesOf devices.now watched.new.items) }
    ensures own { OnOk result (device < length devices.now → HasWatch watched.new.items device) }
    ensures others { OnOk result ((d : ℕ) → HasWatch watched.old.items d → HasWatch watched.new.items d) }
{
    if has_watch(watched.as_slice(), device) {
        return Ok(());
    }
    match devices.get(usize::from(device)) {
        None => Ok(()),
        Some(kept) => {
            let machine = kept.copy()?;
            watched.push(Watch { device, machine })?;
            Ok(())
        }
    }
}

/// Adds a copy of the device whose value the breakpoint watches, if it watches one.
fn watch_point(
    devices: &[Device],
    watched: &mut Vec<Watch>,
    point: &Break,
) -> Result<(), AllocError>
    requires { AreCopiesOf devices.now watched.old.items }
    ensures copies { OnOk result (AreCopiesOf devices.now watched.new.items) }
    ensures own { OnOk result (IsWatching watched.new.items (length devices.now) point.now) }
    ensures others { OnOk result ((d : ℕ) → HasWatch watched.old.items d → HasWatch watched.new.items d) }
{
    match change_in(point) {
        None => Ok(()),
        Some((device, _path)) => {
            watch_device(devices, watched, device)?;
            Ok(())
        }
    }
}

/// Copies of just those devices whose values these breakpoints watch.
pub(crate) fn watch_devices(
    alloc: Global,
    devices: &[Device],
    points: &[Numbered],
) -> Result<Vec<Watch>, AllocError>
    ensures copies { IfOk result (λ v. AreCopiesOf devices.now v.items) }
    ensures all { IfOk result (λ v. AreWatching v.items (length devices.now) (length points.now) points.now) }
{
    let mut watched = Vec::new(alloc);
    for one in points {
        watch_point(devices, &mut watched, &one.point)?;
    }
    Ok(watched)
}

/// Lets a copy that has made the steps before it make this step of its row.
fn step_watch(
    alloc: Global,
    scenario: &Scenario,
    watch: &mut Watch,
    place: u32,
) -> Result<(), AllocError>
    requires shows { ShowsAfter scenario.now watch.old.device place watch.old.machine }
    requires row { HasSteps scenario.now watch.old.device (place + 1) }
    ensures shows { OnOk result (ShowsAfter scenario.now watch.old.device (place + 1) watch.new.machine) }
    ensures device { watch.new.device ≡ watch.old.device }
{
    let device = watch.device;
    let Some(step) = step_of(scenario, device, place) else {
        unreachable!()
    };
    let _outputs = make_step(alloc, scenario, &mut watch.machine, device, place, step)?;
    Ok(())
}

/// Lets each copy of the device of the entry at this index make the entry's step.
pub(crate) fn step_watched(
    alloc: Global,
    scenario: &Scenario,
    entries: &[Entry],
    watched: &mut Vec<Watch>,
    index: usize,
) -> Result<(), AllocError>
    requires run { IsRun scenario.now entries.now }
    requires within { index < length entries.now }
    requires watched { AreWatched scenario.now (take index entries.now) watched.old.items }
    ensures watched { OnOk result (AreWatched scenario.now (take (index + 1) entries.now) watched.new.items) }
    ensures others { OnOk result ((d : ℕ) → HasWatch watched.old.items d → HasWatch watched.new.items d) }
{
    let entry = &entries[index];
    let count = watched.len();
    for place in 0..count {
        let watch = &watched[place];
        if watch.device != entry.device {
            continue;
        }
        let own = &mut watched[place];
        step_watch(alloc, scenario, own, entry.step)?;
    }
    Ok(())
}
