//! What comes of an item.

ghost use Rattle.std.specs.Prelude.{◌≡◌, IfOk};
ghost use Rattle.std.specs.Option.{option_copied};
ghost use Rattle.device_machine.specs.State.{Machine, Shows};
ghost use Rattle.case_play.specs.Spots.{Spot, spot_after, PutsOut};
ghost use Rattle.case_play.specs.Came.{RepliesWith, CameThere};
ghost use Rattle.case_play.specs.Walks.{IsAt, CameAsked};

use crate::came::Came;
use crate::items::is_met;
use crate::walk::Walk;
use case_text::{Part, Question};
use device_machine::{Device, Outputs};
use lwm2m_values::Value;
use scenario_image::Scenario;
use std::alloc::AllocError;

/// A copy of a value, if there is one.
fn copy_of(value: Option<&Value>) -> Result<Option<Value>, AllocError>
    ensures { IfOk result (λ o. o ≡ option_copied value.entry) }
{
    match value {
        None => Ok(None),
        Some(value) => Ok(Some(value.copy()?)),
    }
}

/// What a device answers to a question.
fn reply(question: &Question, device: &Device) -> Result<Came, AllocError>
    ensures { (f : Machine) → Shows device.now f → IfOk result (λ x. RepliesWith question.now f x) }
{
    match question {
        Question::Value { path, .. } => {
            let value = copy_of(device.value(path))?;
            Ok(Came::Value(value))
        }
        Question::Clock(_) => Ok(Came::Clock(device.clock())),
        Question::Observations(_) => Ok(Came::Observations(device.observations().len() as u64)),
        Question::Due(_) => Ok(Came::Due(device.due())),
    }
}

/// What came of a question to a device, at which this is output.
fn came_asked(
    question: &Question,
    must_not: bool,
    device: &Device,
    outputs: Outputs,
) -> Result<Came, AllocError>
    ensures { (f : Machine) → Shows device.now f
        → IfOk result (λ x. CameAsked must_not question.now f outputs x) }
{
    if is_met(question, must_not, device) {
        return Ok(Came::Outputs(outputs));
    }
    reply(question, device)
}

/// What came of an item, of which this is output, and after which the walk is.
pub(crate) fn came_after(
    scenario: &Scenario,
    walk: &Walk,
    part: &Part,
    outputs: Outputs,
) -> Result<Came, AllocError>
    ensures { (spot : Spot) → PutsOut scenario.now spot part.now outputs
        → IsAt scenario.now (spot_after spot part.now) walk.now
        → IfOk result (λ x. CameThere scenario.now spot part.now x) }
{
    match part {
        Part::Ask { must_not, question } => match walk.asked(scenario) {
            None => Ok(Came::Nowhere),
            Some(device) => came_asked(question, *must_not, device, outputs),
        },
        Part::Start
        | Part::Device { .. }
        | Part::Step { .. }
        | Part::Line
        | Part::Aside(_)
        | Part::Recorded(_) => Ok(Came::Outputs(outputs)),
    }
}
