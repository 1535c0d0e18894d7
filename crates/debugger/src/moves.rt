//! How the devices of a debugger are moved to another place of a run.

ghost use Rattle.std.specs.Prelude.{◌≡◌, ◌-◌, ◌*◌, ◌/◌, ◌<◌, ◌≤◌, length, take, IfOk};
ghost use Rattle.fleet_core.specs.Run.{IsRun};
ghost use Rattle.fleet_core.specs.Board.{ShowsAfter};
ghost use Rattle.debugger.specs.Copies.{AreCopiesAlong, AreCopied};
ghost use Rattle.device_entries.specs.Places.{ArePlaced};
ghost use Rattle.debugger.specs.Session.{AreAt, AreCounted};
ghost use Rattle.debugger.specs.Replayed.{events_by};
ghost use Rattle.debugger.specs.Moves.{HasSteps, IsMoved, AreMoved, steps_between, steps_over};

use crate::copies::{COPY_STEPS, Copies, copy_at};
use crate::steps::advance;
use device_entries::{Places, count_before, has_earlier};
use device_machine::Device;
use fleet_core::count_entries;
use scenario_image::Scenario;
use std::alloc::{AllocError, Global};
use trace_file::Entry;

/// A device that is to take the place of another.
#[derive(Drop)]
pub(crate) struct Moved {
    /// Its row.
    pub(crate) device: u16,
    /// How many steps it has made.
    pub(crate) made: u64,
    /// The device.
    pub(crate) machine: Device,
    /// How many events it took for this move.
    pub(crate) steps: u64,
}

/// The devices that a move to another place changes.
#[derive(Drop)]
pub(crate) struct Moves {
    /// Those that take the places of others.
    pub(crate) moved: Vec<Moved>,
    /// How many events they took for it together.
    pub(crate) steps: u64,
}

/// How many entries the device of each row has among the first ones, up to the place.
pub(crate) fn count_rows(
    alloc: Global,
    scenario: &Scenario,
    entries: &[Entry],
    place: usize,
) -> Result<Vec<u64>, AllocError>
    requires { place ≤ length entries.now }
    ensures { IfOk result (λ v. AreCounted scenario.now (take place entries.now) v.items) }
{
    let rows = scenario.rows();
    let (passed, _) = entries.split_at(place);
    let made = count_entries(alloc, rows, passed)?;
    Ok(made)
}

/// A copy of a device that has made the first steps of its row, after those up to the last of these numbers.
fn device_after(
    alloc: Global,
    scenario: &Scenario,
    machine: &Device,
    device: u16,
    from: u32,
    to: u32,
) -> Result<Moved, AllocError>
    requires shows { ShowsAfter scenario.now device from machine.now }
    requires order { from ≤ to }
    requires row { HasSteps scenario.now device to }
    ensures { IfOk result (λ m. IsMoved scenario.now device to
        (events_by scenario.now device to - events_by scenario.now device from) m) }
{
    let mut later = machine.copy()?;
    let steps = advance(alloc, scenario, &mut later, device, from, to)?;
    Ok(Moved {
        device,
        made: u64::from(to),
        machine: later,
        steps,
    })
}

/// The device of a row after its first steps: the latest of its copies that is not after them goes on.
pub(crate) fn device_before(
    alloc: Global,
    scenario: &Scenario,
    copies: &[Device],
    device: u16,
    to: u32,
) -> Result<Moved, AllocError>
    requires device { device < length scenario.now.rows }
    requires row { HasSteps scenario.now device to }
    requires copied { AreCopiesAlong scenario.now device copies.now }
    requires enough { to / 64 ≤ length copies.now }
    ensures { IfOk result (λ m. IsMoved scenario.now device to
        (events_by scenario.now device to - events_by scenario.now device (64 * (to / 64))) m) }
{
    let number = to / COPY_STEPS;
    let mut earlier = copy_at(scenario, copies, device, number)?;
    let steps = advance(
        alloc,
        scenario,
        &mut earlier,
        device,
        COPY_STEPS * number,
        to,
    )?;
    let made = u64::from(to);
    Ok(Moved {
        device,
        made,
        machine: earlier,
        steps,
    })
}

/// The device that takes the place of one that has made another number of steps.
fn moved_device(
    alloc: Global,
    scenario: &Scenario,
    copies: &[Device],
    machine: &Device,
    device: u16,
    from: u64,
    to: u64,
) -> Result<Moved, AllocError>
    requires copied { AreCopiesAlong scenario.now device copies.now }
    requires enough { to < from → to / 64 ≤ length copies.now }
    requires shows { ShowsAfter scenario.now device from machine.now }
    requires device { device < length scenario.now.rows }
    requires first { HasSteps scenario.now device from }
    requires last { HasSteps scenario.now device to }
    ensures { IfOk result (λ m. IsMoved scenario.now device to
        (steps_between scenario.now device from to) m) }
{
    // For the proof alone: a scenario whose rows are counted is known to be valid.
    let _known = scenario.rows();
    if from <= to {
        let later = device_after(alloc, scenario, machine, device, from as u32, to as u32)?;
        return Ok(later);
    }
    let earlier = device_before(alloc, scenario, copies, device, to as u32)?;
    Ok(earlier)
}

/// The devices that take the place of those that have an entry between the two places. Only the entries between the two
/// are looked at: the first one of each device moves it.
pub(crate) fn moved_devices(
    alloc: Global,
    scenario: &Scenario,
    entries: &[Entry],
    places: &[Places],
    copies: &[Copies],
    devices: &[Device],
    made: &[u64],
    from: usize,
    to: usize,
) -> Result<Moves, AllocError>
    requires run { IsRun scenario.now entries.now }
    requires listed { length places.now ≡ length scenario.now.rows }
    requires placed { ArePlaced entries.now (length entries.now) places.now }
    requires copied { AreCopied scenario.now entries.now copies.now }
    requires rows { length devices.now ≡ length scenario.now.rows }
    requires shown { AreAt scenario.now made.now devices.now }
    requires counted { AreCounted scenario.now (take from entries.now) made.now }
    requires from { from ≤ length entries.now }
    requires to { to ≤ length entries.now }
    ensures moved { IfOk result (λ v. AreMoved scenario.now (take to entries.now) made.now devices.now v.moved.items) }
    ensures steps { IfOk result (λ v. v.steps ≡ steps_over scenario.now entries.now from to) }
{
    // For the proof alone: a scenario whose rows are counted is known to be valid.
    let _known = scenario.rows();
    let first = from.min(to);
    let last = from.max(to);
    let mut moved = Vec::new(alloc);
    let mut steps = 0;
    for index in first..last {
        let entry = &entries[index];
        let row = usize::from(entry.device);
        let own = &places[row];
        let indexes = own.indexes.as_slice();
        if has_earlier(entries, entry.device, indexes, entry.step, first) {
            continue;
        }
        let count = count_before(entries, entry.device, indexes, to);
        let kept = &copies[row];
        let sources = kept.devices.as_slice();
        let machine = &devices[row];
        let next = moved_device(
            alloc,
            scenario,
            sources,
            machine,
            entry.device,
            made[row],
            count as u64,
        )?;
        steps += next.steps;
        moved.push(next)?;
    }
    Ok(Moves { moved, steps })
}

/// Puts the moved devices and their counts in the places of others. The scenario, the entries and the place are for the
/// contract alone, which says where the devices are.
pub(crate) fn settle(
    _scenario: &Scenario,
    _entries: &[Entry],
    _to: usize,
    made: &mut Vec<u64>,
    devices: &mut Vec<Device>,
    mut moved: Vec<Moved>,
)
    requires { AreMoved _scenario.now (take _to _entries.now) made.old.items devices.old.items moved.items }
    ensures counted { AreCounted _scenario.now (take _to _entries.now) made.new.items }
    ensures count { length devices.new.items ≡ length devices.old.items }
    ensures shown { AreAt _scenario.now made.new.items devices.new.items }
{
    while let Some(next) = moved.pop() {
        let Moved {
            device,
            made: count,
            machine,
            steps: _,
        } = next;
        let row = usize::from(device);
        made[row] = count;
        devices[row] = machine;
    }
}
