//! The steps that a device makes in a move.

ghost use Rattle.std.specs.Prelude.{◌≡◌, ◌+◌, ◌≤◌, cond, IfOk, OnOk};
ghost use Rattle.scenario_image.specs.Play.{is_event};
ghost use Rattle.fleet_core.specs.Board.{ShowsAfter};
ghost use Rattle.debugger.specs.Moves.{HasSteps};
ghost use Rattle.debugger.specs.Replayed.{events_by};

use device_machine::Device;
use fleet_core::{make_step, step_of};
use scenario_image::{Scenario, Step};
use std::alloc::{AllocError, Global};

/// How many events a step is: a post or a need is none.
fn events_of(step: &Step) -> u64
    ensures { result ≡ cond (is_event step.now) 1 0 }
{
    match step {
        Step::Event(_) => 1,
        Step::Post(_) | Step::Need(_, _) => 0,
    }
}

/// Lets a device that has made the first steps of its row make those up to the last of these numbers, and returns how
/// many events it took. All steps of moves are made here, and the events are counted as they are taken.
#[tactic(auto, using(crate::proofs::Events::events_next))]
pub(crate) fn advance(
    alloc: Global,
    scenario: &Scenario,
    machine: &mut Device,
    device: u16,
    from: u32,
    to: u32,
) -> Result<u64, AllocError>
    requires shows { ShowsAfter scenario.now device from machine.old }
    requires order { from ≤ to }
    requires row { HasSteps scenario.now device to }
    ensures shows { OnOk result (ShowsAfter scenario.now device to machine.new) }
    ensures count { IfOk result (λ n. events_by scenario.now device from + n
        ≡ events_by scenario.now device to) }
{
    let mut steps: u64 = 0;
    for place in from..to {
        let Some(step) = step_of(scenario, device, place) else {
            unreachable!()
        };
        let _outputs = make_step(alloc, scenario, machine, device, place, step)?;
        steps += events_of(step);
    }
    Ok(steps)
}
