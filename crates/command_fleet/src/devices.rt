//! Which devices of a scenario are put on ports.
ghost use Rattle.std.specs.Prelude.{◌≡◌, ◌+◌, ◌%◌, ◌<◌, ◌≤◌, [], IfErr, IfNone, IfOk, IfSome, Some, length, option_map};
ghost use Rattle.std.specs.Prelude.{unwrap_or};
ghost use Rattle.command_files.specs.declared.devices.Devices.{Devices as DevicesData};
ghost use Rattle.command_fleet.specs.Devices.{AreChosen, IsPart, count_of};

use crate::rows::steps_to_play;
use command_files::{Devices, Fault, read_devices};
use fleet_link::add_row;
use scenario_image::Scenario;
use std::alloc::Global;

/// The devices of a scenario that `--devices` names, or all of them; none where it does not have them, or has none.
pub fn chosen_devices(scenario: &Scenario, text: Option<&str>) -> Option<Devices>
    ensures chosen { IfSome result (AreChosen scenario.now (option_map (λ w. w.now) text.entry)) }
    ensures missing { IfNone result ((devices : DevicesData)
        → AreChosen scenario.now (option_map (λ w. w.now) text.entry) devices → ⊥) }
{
    let rows = scenario.rows();
    let devices = match text {
        None => Devices {
            first: 0,
            last: rows.checked_sub(1)? as u16,
        },
        Some(text) => read_devices(text)?,
    };
    if usize::from(devices.last) >= rows {
        return None;
    }
    Some(devices)
}

/// The classes of a scenario, without a row.
fn copy_classes(alloc: Global, scenario: &Scenario) -> Result<Scenario, Fault>
    ensures classes { IfOk result (λ s. s.classes ≡ scenario.now.classes) }
    ensures rows { IfOk result (λ s. s.rows ≡ []) }
    ensures refused { IfErr result (λ fault. fault ≡ Fault.Memory) }
{
    // For the proof alone: a scenario whose rows are counted is known to be valid.
    let _known = scenario.rows();
    let mut copy = Scenario::empty(alloc);
    for place in 0..scenario.classes() {
        let Some(class) = scenario.class(place as u16) else {
            return Err(Fault::Memory);
        };
        let class = class.copy()?;
        match copy.add_class(class) {
            Ok(()) => {}
            Err(_) => return Err(Fault::Memory),
        }
    }
    Ok(copy)
}

/// How many devices there are: as many as copies are asked for, or one for each row.
fn count_of(devices: Devices, copies: Option<u16>) -> usize
    requires { devices.first ≤ devices.last }
    ensures { result ≡ unwrap_or copies (count_of devices) }
{
    match copies {
        None => usize::from(devices.last) + 1 - usize::from(devices.first),
        Some(copies) => usize::from(copies),
    }
}

/// Which row of the scenario is that of the device at this place.
fn row_at(devices: Devices, place: usize) -> u16
    requires { devices.first ≤ devices.last }
    ensures { result ≡ devices.first + place % count_of devices }
{
    let width = u32::from(devices.last) + 1 - u32::from(devices.first);
    let row = usize::from(devices.first) + place % width as usize;
    row as u16
}

/// The classes of a scenario and the rows of these devices, one after another; if a number is given, this many rows,
/// over and over. They have the steps that are played, if they are. A part of a valid scenario is valid: only memory
/// may lack for it.
pub fn part_of(
    alloc: Global,
    scenario: &Scenario,
    devices: Devices,
    copies: Option<u16>,
    played: bool,
) -> Result<Scenario, Fault>
    requires some { devices.first ≤ devices.last }
    requires there { devices.last < length scenario.now.rows }
    ensures part { IfOk result (IsPart scenario.now devices copies played) }
    ensures refused { IfErr result (λ fault. fault ≡ Fault.Memory) }
{
    // For the proof alone: a scenario whose rows are counted is known to be valid.
    let _known = scenario.rows();
    let mut part = copy_classes(alloc, scenario)?;
    for place in 0..count_of(devices, copies) {
        let Some((class, steps)) = scenario.row(row_at(devices, place)) else {
            return Err(Fault::Memory);
        };
        let own = steps_to_play(alloc, steps, played)?;
        match add_row(&mut part, class, own) {
            Ok(()) => {}
            Err(_) => return Err(Fault::Memory),
        }
    }
    Ok(part)
}
