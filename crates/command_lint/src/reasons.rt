//! Why a device handles what it receives as it does.
ghost use Rattle.std.specs.Prelude.{◌≡◌, ◌<◌, ◌≤◌, ◌+◌, IfOk, OnOk, length};
ghost use Rattle.std.specs.String.{string_bytes};
ghost use Rattle.fleet_core.specs.Board.{ShowsAfter};
ghost use Rattle.command_lint.specs.History.{step_count};
ghost use Rattle.command_lint.specs.Reasons.{AreReasonsAt, IsBelow};

use crate::form::LintForm;
use device_machine::Device;
use fleet_core::{make_step, start_of_row, step_of};
use scenario_image::Scenario;
use server_lint::{Sender, Transmission};
use std::alloc::{AllocError, Global};
use trace_reasons::reason_lines;

/// A device within its row.
#[derive(Drop)]
pub(crate) struct Cursor {
    /// The device after the steps before the place.
    pub machine: Device,
    /// The place of its next step.
    pub place: u32,
}

/// The device at the start of its row.
pub(crate) fn first_place(scenario: &Scenario, device: u16) -> Result<Cursor, AllocError>
    requires { device < length scenario.now.rows }
    ensures shows { IfOk result (λ c. ShowsAfter scenario.now device c.place c.machine) }
    ensures first { IfOk result (λ c. c.place ≡ 0) }
{
    let machine = start_of_row(scenario, device)?;
    Ok(Cursor { machine, place: 0 })
}

/// Lets the device make the steps from one place up to another.
fn make_steps(
    alloc: Global,
    scenario: &Scenario,
    device: u16,
    machine: &mut Device,
    from: u32,
    to: u32,
) -> Result<(), AllocError>
    requires shows { ShowsAfter scenario.now device from machine.old }
    requires order { from ≤ to }
    requires within { to ≤ step_count scenario.now device }
    ensures { OnOk result (ShowsAfter scenario.now device to machine.new) }
{
    for place in from..to {
        let Some(step) = step_of(scenario, device, place) else {
            unreachable!()
        };
        let _outputs = make_step(alloc, scenario, machine, device, place, step)?;
    }
    Ok(())
}

/// Begins the row anew, if the device is past this place.
fn go_back(
    scenario: &Scenario,
    device: u16,
    cursor: &mut Cursor,
    place: u32,
) -> Result<(), AllocError>
    requires row { device < length scenario.now.rows }
    requires shows { ShowsAfter scenario.now device cursor.old.place cursor.old.machine }
    ensures shows { OnOk result (ShowsAfter scenario.now device cursor.new.place cursor.new.machine) }
    ensures order { OnOk result (cursor.new.place ≤ place) }
{
    if cursor.place <= place {
        return Ok(());
    }
    *cursor = first_place(scenario, device)?;
    Ok(())
}

/// Moves the device to a place of its row.
fn move_to(
    alloc: Global,
    scenario: &Scenario,
    device: u16,
    cursor: &mut Cursor,
    place: u32,
) -> Result<(), AllocError>
    requires row { device < length scenario.now.rows }
    requires within { place ≤ step_count scenario.now device }
    requires shows { ShowsAfter scenario.now device cursor.old.place cursor.old.machine }
    ensures shows { OnOk result (ShowsAfter scenario.now device cursor.new.place cursor.new.machine) }
    ensures place { OnOk result (cursor.new.place ≡ place) }
{
    go_back(scenario, device, cursor, place)?;
    make_steps(
        alloc,
        scenario,
        device,
        &mut cursor.machine,
        cursor.place,
        place,
    )?;
    cursor.place = place;
    Ok(())
}

/// The lines why the device answered like that in a step of its row: one if a datagram arrives, else none.
#[tactic(auto, using(crate::proofs::Below::no_step, crate::proofs::Below::step_within, crate::proofs::Below::of_step))]
fn reasons_at(
    alloc: Global,
    scenario: &Scenario,
    device: u16,
    cursor: &mut Cursor,
    place: u32,
) -> Result<String, AllocError>
    requires row { device < length scenario.now.rows }
    requires shows { ShowsAfter scenario.now device cursor.old.place cursor.old.machine }
    ensures shows { OnOk result (ShowsAfter scenario.now device cursor.new.place cursor.new.machine) }
    ensures lines { IfOk result (λ text. AreReasonsAt scenario.now device place (string_bytes text)) }
{
    let Some(step) = step_of(scenario, device, place) else {
        return Ok(String::new(alloc));
    };
    move_to(alloc, scenario, device, cursor, place)?;
    reason_lines(alloc, &cursor.machine, step)
}

/// What stands below the line of a datagram.
pub(crate) fn below(
    alloc: Global,
    form: LintForm,
    scenario: &Scenario,
    device: u16,
    cursor: &mut Cursor,
    t: &Transmission,
) -> Result<String, AllocError>
    requires row { device < length scenario.now.rows }
    requires shows { ShowsAfter scenario.now device cursor.old.place cursor.old.machine }
    ensures shows { OnOk result (ShowsAfter scenario.now device cursor.new.place cursor.new.machine) }
    ensures lines { IfOk result (λ text. IsBelow form scenario.now device t.now (string_bytes text)) }
{
    match (form, t.sender()) {
        (LintForm::Reasons, Sender::Server) => {
            reasons_at(alloc, scenario, device, cursor, t.step())
        }
        (LintForm::Reasons, Sender::Device) | (LintForm::Text | LintForm::JsonLines, _) => {
            Ok(String::new(alloc))
        }
    }
}
