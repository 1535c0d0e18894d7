//! Copies of each device along its row, from which a move back goes on.

ghost use Rattle.std.specs.Prelude.{◌≡◌, ℕ, ◌*◌, ◌<◌, ◌≤◌, [], true, false, length, Err, IfOk, OnOk};
ghost use Rattle.fleet_core.specs.Run.{IsRun};
ghost use Rattle.fleet_core.specs.Board.{ShowsAfter, Replays};
ghost use Rattle.fleet_core.specs.Verdict.{BreaksAt};
ghost use Rattle.debugger.specs.Copies.{AreCopiesAlong, AreCopied};

use crate::fault::OpenFault;
use device_machine::Device;
use fleet_core::{Replay, count_entries, start_of_row};
use scenario_image::Scenario;
use std::alloc::{AllocError, Global};
use trace_file::Entry;

/// How many steps of its row a device makes from one of its copies to the next.
pub(crate) const COPY_STEPS: u32 = 64;

/// The copies of a device, in the order of its row: that at k has made the first 64 * (k + 1) steps.
#[derive(Drop)]
pub(crate) struct Copies {
    /// The copies.
    pub(crate) devices: Vec<Device>,
}

/// For each row no copy yet, with room for one after each 64 of these entries of its device.
fn no_copies(
    alloc: Global,
    scenario: &Scenario,
    entries: &[Entry],
) -> Result<Vec<Copies>, AllocError>
    ensures { IfOk result (λ v. AreCopied scenario.now [] v.items) }
{
    let rows = scenario.rows();
    let counts = count_entries(alloc, rows, entries)?;
    let mut all = Vec::with_capacity(alloc, rows)?;
    for row in 0..rows {
        let room = counts[row] / u64::from(COPY_STEPS);
        let devices = Vec::with_capacity(alloc, room as usize)?;
        all.push(Copies { devices })?;
    }
    Ok(all)
}

/// Takes an entry into the replay, and returns whether it comes next. After each 64 of its entries a device is copied.
fn take_entry(
    replay: &mut Replay,
    copies: &mut Vec<Copies>,
    entry: &Entry,
) -> Result<bool, AllocError>
    requires ready { replay.old.spent ≡ false }
    requires copied { AreCopied replay.old.scenario replay.old.entries copies.old.items }
    ensures replays { IfOk result (λ fits. Replays replay.old replay.new entry.now fits) }
    ensures copied { IfOk result (λ fits. fits ≡ true
        → AreCopied replay.new.scenario replay.new.entries copies.new.items) }
{
    if entry.step % COPY_STEPS != COPY_STEPS - 1 {
        let fits = replay.take(entry)?;
        return Ok(fits);
    }
    match replay.take_copied(entry)? {
        None => Ok(false),
        Some(copy) => {
            let own = &mut copies[usize::from(entry.device)];
            own.devices.push(copy)?;
            Ok(true)
        }
    }
}

/// The copies of each row's device along its entries, if these are a run. Each step of it is made once.
pub(crate) fn copies_of_run(
    alloc: Global,
    scenario: &Scenario,
    entries: &[Entry],
) -> Result<Vec<Copies>, OpenFault>
    ensures run { OnOk result (IsRun scenario.now entries.now) }
    ensures copied { IfOk result (λ v. AreCopied scenario.now entries.now v.items) }
    ensures not_run { (at : ℕ) → result ≡ Err (OpenFault.NotRun at) → BreaksAt scenario.now entries.now at }
{
    let mut replay = Replay::new(alloc, scenario)?;
    let mut copies = no_copies(alloc, scenario, entries)?;
    for (at, entry) in entries.iter().enumerate() {
        if !take_entry(&mut replay, &mut copies, entry)? {
            return Err(OpenFault::NotRun(at));
        }
    }
    Ok(copies)
}

/// A copy of a device's copy of this number, counted from 1; at 0 the device at the start of its row.
pub(crate) fn copy_at(
    scenario: &Scenario,
    copies: &[Device],
    device: u16,
    number: u32,
) -> Result<Device, AllocError>
    requires device { device < length scenario.now.rows }
    requires copied { AreCopiesAlong scenario.now device copies.now }
    requires enough { number ≤ length copies.now }
    ensures { IfOk result (λ x. ShowsAfter scenario.now device (64 * number) x) }
{
    if number == 0 {
        let anew = start_of_row(scenario, device)?;
        return Ok(anew);
    }
    let kept = &copies[number as usize - 1];
    let copy = kept.copy()?;
    Ok(copy)
}
