//! The devices that are not at the end of their rows.

ghost use Rattle.std.specs.Prelude.{◌≡◌, ℕ, ◌+◌, ◌^◌, ◌<◌, length, slice_get, slice_index, slice_set, IfOk};
ghost use Rattle.fleet_core.specs.Run.{steps_in, made_by};
ghost use Rattle.fleet_core.specs.Waiting.{waiting_devices};

use scenario_image::Scenario;
use std::alloc::{AllocError, Global};
use trace_file::Entry;

/// Counts an entry of a device, if there is a count for it.
fn count_one(made: &mut Vec<u64>, device: u16)
    requires { slice_index made.old.items device + 1 < 2 ^ 64 }
    ensures { made.new.items ≡ slice_set made.old.items device (slice_index made.old.items device + 1) }
{
    if usize::from(device) < made.len() {
        made[usize::from(device)] += 1;
    }
}

/// How many entries each of the first devices has.
pub fn count_entries(alloc: Global, rows: usize, entries: &[Entry]) -> Result<Vec<u64>, AllocError>
    ensures count { IfOk result (λ v. length v.items ≡ rows) }
    ensures made { IfOk result (λ v. (d : ℕ) → d < rows → slice_index v.items d ≡ made_by d entries.now) }
{
    let mut made = vec![in alloc; 0u64; rows]?;
    for entry in entries {
        count_one(&mut made, entry.device);
    }
    Ok(made)
}

/// How many steps the device's row has.
fn steps_of(scenario: &Scenario, device: u16) -> usize
    ensures { result ≡ length (steps_in (slice_get scenario.now.rows device)) }
{
    match scenario.row(device) {
        None => 0,
        Some((_, steps)) => steps.len(),
    }
}

/// The devices that have fewer entries than their rows have steps, in ascending order. Whether the entries are a run is
/// not asked.
pub fn unfinished(
    alloc: Global,
    scenario: &Scenario,
    entries: &[Entry],
) -> Result<Vec<u16>, AllocError>
    ensures { IfOk result (λ v. v.items ≡ waiting_devices scenario.now entries.now) }
{
    let rows = scenario.rows();
    let made = count_entries(alloc, rows, entries)?;
    let mut waiting = Vec::new(alloc);
    for device in 0..rows {
        if made[device] >= steps_of(scenario, device as u16) as u64 {
            continue;
        }
        waiting.push(device as u16)?;
    }
    Ok(waiting)
}
