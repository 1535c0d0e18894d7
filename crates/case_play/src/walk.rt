//! The devices of a scenario, which make their steps as the text of a case has them.

ghost use Rattle.std.specs.Prelude.{◌≡◌, ◌+◌, ◌<◌, [], IfOk};
ghost use Rattle.std.specs.Option.{option_copied};
ghost use Rattle.device_machine.specs.State.{Machine, Shows};
ghost use Rattle.fleet_core.specs.Board.{ShowsAfter};
ghost use Rattle.scenario_image.specs.Scenario.{Scenario};
ghost use Rattle.case_play.specs.Spots.{Spot, first_spot};
ghost use Rattle.case_play.specs.Walks.{Asks, Takes, Advances, Passes, IsAt, IsSomewhere};

use case_text::Part;
use device_machine::{Device, Event, Outputs, StepFault};
use fleet_core::{make_step, start_of_row, step_of};
use scenario_image::Scenario;
use std::alloc::{AllocError, Global};

/// Where a case is in its scenario.
pub(crate) struct Walk {
    /// How many devices have begun.
    pub(crate) begun: u16,
    /// How many steps the last of them has made.
    pub(crate) steps: u32,
    /// That device; none before the first one.
    pub(crate) machine: Option<Device>,
    /// A copy of it, which takes the events that are no steps; none where there was no such event.
    pub(crate) copy: Option<Device>,
}

/// By hand, so that a caller's proof has one step where a walk is dropped, and no case for each device in it.
impl Drop for Walk {
    fn drop(self) {
        let Walk {
            begun: _,
            steps: _,
            machine: _machine,
            copy: _copy,
        } = self;
    }
}

/// No output.
fn no_outputs(alloc: Global) -> Outputs
    ensures { result ≡ [] }
{
    Outputs::from_vec(Vec::new(alloc))
}

/// Lets a device take an event, and gives what it outputs; none where it refuses the event.
fn take_event(device: &mut Device, event: &Event) -> Result<Option<Outputs>, AllocError>
    ensures { (f : Machine) → Shows device.old f → IfOk result (λ r. Takes f event.now r device.new) }
{
    match device.step(event) {
        Ok(outputs) => Ok(Some(outputs)),
        Err(StepFault::Memory) => Err(AllocError),
        Err(StepFault::Spent) => Ok(None),
    }
}

/// Lets a device that has made its first steps make `times` more, and gives what the last of them outputs; none where
/// fewer are left in its row.
fn advance(
    alloc: Global,
    scenario: &Scenario,
    machine: &mut Device,
    device: u16,
    from: u32,
    times: u32,
) -> Result<Option<Outputs>, AllocError>
    requires { ShowsAfter scenario.now device from machine.old }
    ensures { IfOk result (λ r. 0 < times → Advances scenario.now device (from + times) r machine.new) }
{
    // For the proof alone: a scenario whose rows are counted is known to be valid.
    let _known = scenario.rows();
    let mut last = no_outputs(alloc);
    let mut place = from;
    for _made in 0..times {
        let Some(step) = step_of(scenario, device, place) else {
            return Ok(None);
        };
        last = make_step(alloc, scenario, machine, device, place, step)?;
        place += 1;
    }
    Ok(Some(last))
}

impl Walk {
    /// Before the first device.
    pub(crate) fn new() -> Walk
        ensures { (s : Scenario) → IsAt s first_spot result }
    {
        Walk {
            begun: 0,
            steps: 0,
            machine: None,
            copy: None,
        }
    }

    /// The device that is asked: the copy, where it took an event.
    pub(crate) fn asked(&self, scenario: &Scenario) -> Option<&Device>
        ensures { (spot : Spot) → IsAt scenario.now spot self.now → Asks scenario.now spot (option_copied result) }
    {
        // For the proof alone: a scenario whose rows are counted is known to be valid.
        let _known = scenario.rows();
        match &self.copy {
            Some(copy) => Some(copy),
            None => self.machine.as_ref(),
        }
    }

    /// Begins `times` devices; none where the scenario has fewer rows.
    fn begin(
        &mut self,
        alloc: Global,
        scenario: &Scenario,
        times: u32,
    ) -> Result<Option<Outputs>, AllocError>
        ensures { (spot : Spot) → IsAt scenario.now spot self.old
            → IfOk result (λ r. Passes scenario.now spot (Part.Device times) r self.new) }
    {
        let rows = scenario.rows();
        let begun = usize::from(self.begun) + times as usize;
        if times == 0 || begun > rows {
            return Ok(None);
        }
        let machine = start_of_row(scenario, (begun - 1) as u16)?;
        self.begun = begun as u16;
        self.steps = 0;
        self.machine = Some(machine);
        self.copy = None;
        Ok(Some(no_outputs(alloc)))
    }

    /// Lets the device make `times` steps, and gives what the last of them outputs; none where fewer are left in its
    /// row.
    fn make_steps(
        &mut self,
        alloc: Global,
        scenario: &Scenario,
        times: u32,
    ) -> Result<Option<Outputs>, AllocError>
        requires { IsSomewhere scenario.now self.old }
        ensures { (spot : Spot) → IsAt scenario.now spot self.old
            → IfOk result (λ r. Passes scenario.now spot (Part.Step times) r self.new) }
    {
        // For the proof alone: a scenario whose rows are counted is known to be valid.
        let _known = scenario.rows();
        if times == 0 || self.begun == 0 {
            return Ok(None);
        }
        let device = self.begun - 1;
        let from = self.steps;
        let made = match &mut self.machine {
            None => return Ok(None),
            Some(machine) => advance(alloc, scenario, machine, device, from, times)?,
        };
        let Some(outputs) = made else {
            return Ok(None);
        };
        self.steps = from + times;
        self.copy = None;
        Ok(Some(outputs))
    }

    /// Lets a copy take an event, after those that it took since the last line of the text; none where there is no
    /// device, or the copy refuses it.
    fn take_aside(
        &mut self,
        scenario: &Scenario,
        event: &Event,
    ) -> Result<Option<Outputs>, AllocError>
        ensures { (spot : Spot) → IsAt scenario.now spot self.old
            → IfOk result (λ r. Passes scenario.now spot (Part.Aside event.now) r self.new) }
    {
        let Some(asked) = self.asked(scenario) else {
            return Ok(None);
        };
        let mut copy = asked.copy()?;
        let outputs = take_event(&mut copy, event)?;
        self.copy = Some(copy);
        Ok(outputs)
    }

    /// Goes past an item, and gives what it outputs; none where it can't be so in this scenario.
    pub(crate) fn pass(
        &mut self,
        alloc: Global,
        scenario: &Scenario,
        part: &Part,
    ) -> Result<Option<Outputs>, AllocError>
        requires { IsSomewhere scenario.now self.old }
        ensures { (spot : Spot) → IsAt scenario.now spot self.old
            → IfOk result (λ r. Passes scenario.now spot part.now r self.new) }
    {
        match part {
            Part::Start | Part::Ask { .. } | Part::Recorded(_) => Ok(Some(no_outputs(alloc))),
            Part::Device { times } => self.begin(alloc, scenario, *times),
            Part::Step { times } => self.make_steps(alloc, scenario, *times),
            Part::Line => {
                self.copy = None;
                Ok(Some(no_outputs(alloc)))
            }
            Part::Aside(event) => self.take_aside(scenario, event),
        }
    }
}
