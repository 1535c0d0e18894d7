//! One step of one device, and the posts after it.

ghost use Rattle.std.specs.Prelude.{◌≡◌, ℕ, ◌+◌, ◌^◌, ◌<◌, List, false, Some, length, slice_get, slice_index, IfOk};
ghost use Rattle.std.specs.Prelude.{OnOk, IfSome};
ghost use Rattle.std.specs.Option.{option_copied};
ghost use Rattle.std.specs.Result.{IsOk};
ghost use Rattle.device_template.specs.Template.{Template};
ghost use Rattle.device_machine.specs.State.{Machine, Shows};
ghost use Rattle.device_machine.specs.Reactions.{is_refused, outputs_of, flat_after};
ghost use Rattle.scenario_image.specs.Scenario.{Scenario};
ghost use Rattle.scenario_image.specs.Play.{start, step_outputs, step_after, is_event, is_step_refused, IsRowOf};
ghost use Rattle.fleet_core.specs.Run.{step_at, out_at};
ghost use Rattle.fleet_core.specs.Board.{AreStarted, ShowsAfter, posts_after};
ghost use Rattle.scenario_image.specs.declared.step.Step.{Step};
ghost use Rattle.scenario_image.specs.declared.step.Step.TheVariants.{Post};

use device_machine::{Device, Event, Outputs};
use device_template::Template;
use scenario_image::{Scenario, Step};
use std::alloc::{AllocError, Global};

/// A reference to the step of this number, counted from 0, in the device's row; none after its last one.
pub fn step_of(scenario: &Scenario, device: u16, place: u32) -> Option<&Step>
    ensures { option_copied result ≡ step_at scenario.now device place }
{
    let (_, steps) = scenario.row(device)?;
    steps.get(place as usize)
}

/// The class of the device's row.
pub(crate) fn class_of_row(scenario: &Scenario, device: u16) -> &Template
    requires { device < length scenario.now.rows }
    ensures { (class : Template) (steps : List Step) → IsRowOf scenario.now device class steps → result.now ≡ class }
{
    // For the proof alone: a scenario whose rows are counted is known to be valid.
    let _known = scenario.rows();
    let Some((class, _)) = scenario.row(device) else {
        unreachable!()
    };
    let Some(class) = scenario.class(class) else {
        unreachable!()
    };
    class
}

/// A device at the start of a row.
pub fn start_of_row(scenario: &Scenario, device: u16) -> Result<Device, AllocError>
    requires { device < length scenario.now.rows }
    ensures { IfOk result (λ x. (class : Template) (steps : List Step) → IsRowOf scenario.now device class steps
        → Shows x (start class)) }
{
    Device::start(class_of_row(scenario, device))
}

/// The devices of a scenario, each at the start of its row. There is room for just these devices.
pub fn start_devices(alloc: Global, scenario: &Scenario) -> Result<Vec<Device>, AllocError>
    ensures count { IfOk result (λ v. length v.items ≡ length scenario.now.rows) }
    ensures started { IfOk result (λ v. AreStarted scenario.now v.items) }
{
    let rows = scenario.rows();
    let mut devices = Vec::with_capacity(alloc, rows)?;
    for device in 0..rows {
        devices.push(start_of_row(scenario, device as u16)?)?;
    }
    Ok(devices)
}

/// Lets a device take an event that it does not refuse, and gives what it outputs.
fn perform_event(device: &mut Device, event: &Event) -> Result<Outputs, AllocError>
    requires { is_refused device.old event.now ≡ false }
    ensures outputs { (f : Machine) → Shows device.old f → IfOk result (λ o. o ≡ outputs_of f event.now) }
    ensures shows { (f : Machine) → Shows device.old f → OnOk result (Shows device.new (flat_after f event.now)) }
{
    device.take(event)
}

/// Lets a device take a step that it does not refuse, and gives what it outputs.
pub(crate) fn perform(
    alloc: Global,
    device: &mut Device,
    step: &Step,
) -> Result<Outputs, AllocError>
    requires { is_step_refused device.old step.now ≡ false }
    ensures outputs { (f : Machine) → Shows device.old f → IfOk result (λ o. o ≡ step_outputs f step.now) }
    ensures shows { (f : Machine) → Shows device.old f → OnOk result (Shows device.new (step_after f step.now)) }
    ensures silent { is_event step.now ≡ false → IsOk result }
{
    match step {
        Step::Event(event) => perform_event(device, event),
        Step::Post(_) | Step::Need(_, _) => Ok(Outputs::from_vec(Vec::new(alloc))),
    }
}

/// Lets a device that has made the steps before it make the step of this number in its row, and returns what it
/// outputs. The device refuses none, so only an allocation can fail; nothing is promised of the device then.
pub fn make_step(
    alloc: Global,
    scenario: &Scenario,
    machine: &mut Device,
    device: u16,
    place: u32,
    step: &Step,
) -> Result<Outputs, AllocError>
    requires stands { step_at scenario.now device place ≡ Some step.now }
    requires shows { ShowsAfter scenario.now device place machine.old }
    ensures outputs { IfOk result (λ o. o ≡ out_at scenario.now device place) }
    ensures shows { OnOk result (ShowsAfter scenario.now device (place + 1) machine.new) }
    // A post and a need take no memory.
    ensures silent { is_event step.now ≡ false → IsOk result }
{
    // For the proof alone: a scenario whose rows are counted is known to be valid.
    let _known = scenario.rows();
    perform(alloc, machine, step)
}

/// Counts a step that is a post. The table has a place for the post's group.
pub fn note_post(posts: &mut Vec<u32>, step: &Step)
    requires within { (group : ℕ) → step.now ≡ Post group → group < length posts.old.items }
    requires room { (g : ℕ) → slice_index posts.old.items g + 1 < 2 ^ 32 }
    ensures { posts.new.items ≡ posts_after posts.old.items step.now }
{
    match step {
        Step::Event(_) | Step::Need(_, _) => {}
        Step::Post(group) => posts[usize::from(*group)] += 1,
    }
}
