//! What is recorded of a device's steps, so that they can be saved as the row of a scenario.
ghost use Rattle.std.specs.Prelude.{◌≡◌, ◌≤◌, ◌<◌, ◌∷◌, ◌++◌, [], List, true, false};
ghost use Rattle.std.specs.Prelude.{IfOk, OnOk, vec_capacity, vec_len};
ghost use Rattle.scenario_image.specs.declared.step.Step.{Step};
ghost use Rattle.scenario_image.specs.declared.step.Step.TheVariants.{Event as event_step};
ghost use Rattle.fleet_link.specs.Recorded.{size_of_event, HasNoRoom, HasRoom, IsRecorded};

use device_machine::Event;
use scenario_image::Step;
use std::alloc::{AllocError, Global};

/// How many steps a row of a scenario may have.
const MOST_STEPS: usize = 4096;

/// How many bytes a step takes in an image at most, beside those of a datagram.
const STEP_BYTES: usize = 8;

/// How many bytes a value takes in an image at most, and the rest of its step.
const PUT_BYTES: usize = 1500;

/// The steps of a device, while it is complete. Once a step has no room, no more are recorded.
#[derive(Drop)]
pub struct Recording {
    steps: Vec<Step>,
    /// How many bytes of an image it may take.
    share: usize,
    /// How many of them are left.
    left: usize,
    /// Whether all steps so far are recorded.
    complete: bool,
}

/// How many bytes the step takes in an image, at most.
fn size_of_event(event: &Event) -> usize
    ensures { result ≡ size_of_event event.now }
{
    match event {
        Event::Recv { bytes, .. } => bytes.len().saturating_add(STEP_BYTES),
        Event::Put { .. } => PUT_BYTES,
        Event::Firmware(_) | Event::Tick(_) => STEP_BYTES,
    }
}

/// A copy of a step.
fn copy_step(step: &Step) -> Result<Step, AllocError>
    ensures { IfOk result (λ copy. copy ≡ step.now) }
{
    step.clone()
}

/// Copies of steps.
fn copies_of(alloc: Global, steps: &[Step]) -> Result<Vec<Step>, AllocError>
    ensures { IfOk result (λ copies. copies.items ≡ steps.now) }
{
    let mut copies = Vec::with_capacity(alloc, steps.len())?;
    for step in steps {
        copies.push(copy_step(step)?)?;
    }
    Ok(copies)
}

impl Recording {
    /// An empty one, which may take this many bytes.
    pub(crate) fn new(alloc: Global, share: usize) -> Recording
        ensures steps { result.steps.items ≡ [] }
        ensures share { result.share ≡ share }
        ensures left { result.left ≡ share }
        ensures complete { result.complete ≡ true }
    {
        Recording {
            steps: Vec::new(alloc),
            share,
            left: share,
            complete: true,
        }
    }

    /// Whether an event has room.
    fn has_room(&self, event: &Event) -> bool
        ensures room { result ≡ true → HasRoom self.now event.now }
        ensures full { result ≡ false → self.now.complete ≡ true → HasNoRoom self.now event.now }
    {
        if !self.complete {
            return false;
        }
        if self.steps.len() >= MOST_STEPS {
            return false;
        }
        size_of_event(event) <= self.left
    }

    /// Takes memory for an event, if it has room.
    pub(crate) fn make_room(&mut self, event: &Event) -> Result<(), AllocError>
        ensures steps { self.new.steps.items ≡ self.old.steps.items }
        ensures share { self.new.share ≡ self.old.share }
        ensures left { self.new.left ≡ self.old.left }
        ensures complete { self.new.complete ≡ self.old.complete }
        ensures room { OnOk result (HasRoom self.new event.now → vec_len self.new.steps < vec_capacity self.new.steps) }
    {
        if !self.has_room(event) {
            return Ok(());
        }
        self.steps.reserve(1)?;
        Ok(())
    }

    /// Notes an event that was taken, if it has room, for which memory was taken then. Where it has none, it is not
    /// recorded, and nothing after it.
    pub(crate) fn note(&mut self, event: Event)
        requires { HasRoom self.old event → vec_len self.old.steps < vec_capacity self.old.steps }
        ensures recorded { (steps : List Step) → IsRecorded self.old steps
            → IsRecorded self.new (steps ++ event_step event ∷ []) }
        ensures share { self.new.share ≡ self.old.share }
    {
        if !self.has_room(&event) {
            self.complete = false;
            return;
        }
        self.left -= size_of_event(&event);
        self.steps.push_reserved(Step::Event(event));
    }

    /// Whether all steps are recorded.
    pub(crate) fn is_complete(&self) -> bool
        ensures { result ≡ self.now.complete }
    {
        self.complete
    }

    /// The recorded steps.
    pub(crate) fn steps(&self) -> &[Step]
        ensures { result.now ≡ self.now.steps.items }
    {
        self.steps.as_slice()
    }

    /// Copies of the recorded steps.
    pub(crate) fn copy_steps(&self, alloc: Global) -> Result<Vec<Step>, AllocError>
        ensures { IfOk result (λ steps. steps.items ≡ self.now.steps.items) }
    {
        copies_of(alloc, self.steps.as_slice())
    }

    /// The recorded steps.
    pub(crate) fn into_steps(self) -> Vec<Step>
        ensures { result.items ≡ self.steps.items }
    {
        self.steps
    }
}
