//! What is held of a device: its class alone before its first step, and nothing after its last one.

ghost use Rattle.std.specs.Prelude.{◌≡◌, ℕ, ◌+◌, ◌<◌, List, [], false, Some, is_some, length, IfOk, OnOk};
ghost use Rattle.std.specs.Option.{option_copied};
ghost use Rattle.device_template.specs.Template.{Template};
ghost use Rattle.device_machine.specs.State.{Device, Shows};
ghost use Rattle.scenario_image.specs.declared.step.Step.{Step};
ghost use Rattle.scenario_image.specs.Scenario.{Scenario};
ghost use Rattle.scenario_image.specs.Play.{start, IsRowOf};
ghost use Rattle.fleet_core.specs.Run.{step_at, out_at};
ghost use Rattle.fleet_core.specs.Board.{ShowsAfter, HoldsAfter, AreParked};

use crate::performing::{class_of_row, make_step, start_of_row, step_of};
use device_machine::{Device, Outputs};
use device_template::Template;
use scenario_image::{Scenario, Step};
use std::alloc::{AllocError, Global};
use std::marker::Model;
use std::snapshot::Snapshot;
use trace_file::Entry;

/// What there is of a device.
#[derive(Drop)]
enum State {
    /// It is yet to be started, as one of this class.
    Fresh(Snapshot<Template>),
    Here(Device),
    /// It was let go of, as this one.
    Gone(Snapshot<Device>),
}

/// What is held of a device. Contracts see a device at any time: one that is yet to be started is the start of its
/// class, and one whose memory was let go of is the very device.
pub struct Held {
    state: State,
}

/// By hand, so that a caller's proof has one step where it is dropped, and no case for each of its parts.
impl Drop for Held {
    fn drop(self) {
        let Held { state: _state } = self;
    }
}

impl Model for Held {
    ghost use Rattle.std.specs.Coded.{codes};
    ghost use Rattle.instance_store.specs.Stored.{stored_code};
    ghost use Rattle.device_requests.specs.Client.{attributes_code};
    ghost use Rattle.fleet_core.specs.Board.{Holding};
    ghost use Rattle.fleet_core.specs.Held.{holding_of};

    ghost Value = { Holding };

    ghost coded = { Prim.hlevel (codes, stored_code, attributes_code) };

    ghost view = { λ h. holding_of h.state };
}

impl Held {
    /// What is held of a device before its first step.
    pub fn new(scenario: &Scenario, device: u16) -> Held
        requires { device < length scenario.now.rows }
        ensures { HoldsAfter scenario.now device 0 result }
    {
        Held {
            state: State::Fresh(Snapshot::of(class_of_row(scenario, device))),
        }
    }

    /// Starts the device, if it is yet to be started. Its memory was not let go of.
    fn start(&mut self, scenario: &Scenario, device: u16) -> Result<(), AllocError>
        requires row { device < length scenario.now.rows }
        requires left { self.old.gone ≡ false }
        ensures shows { (k : ℕ) → HoldsAfter scenario.now device k self.old
            → OnOk result (ShowsAfter scenario.now device k self.new.shown) }
        ensures here { OnOk result ((self.new.fresh ≡ false) × (self.new.gone ≡ false)) }
    {
        match self.state {
            State::Fresh(_) => {}
            State::Here(_) => return Ok(()),
            State::Gone(_) => unreachable!(),
        }
        self.begin(scenario, device)?;
        Ok(())
    }

    /// Holds the device at the start of its row. This is done once a device, so it stays out of what a step costs.
    #[cold]
    #[inline(never)]
    fn begin(&mut self, scenario: &Scenario, device: u16) -> Result<(), AllocError>
        requires { device < length scenario.now.rows }
        ensures begun { OnOk result ((class : Template) (steps : List Step) → IsRowOf scenario.now device class steps
            → Shows self.new.shown (start class)) }
        ensures here { OnOk result ((self.new.fresh ≡ false) × (self.new.gone ≡ false)) }
    {
        self.state = State::Here(start_of_row(scenario, device)?);
        Ok(())
    }

    /// A copy of the device, which is here, if one is wanted.
    #[inline(always)]
    fn copy(&self, wanted: bool) -> Result<Option<Device>, AllocError>
        requires fresh { self.now.fresh ≡ false }
        requires gone { self.now.gone ≡ false }
        ensures there { IfOk result (λ copy. is_some copy ≡ wanted) }
        ensures shown { IfOk result (λ copy. (x : Device) → copy ≡ Some x → x ≡ self.now.shown) }
    {
        if !wanted {
            return Ok(None);
        }
        match &self.state {
            State::Here(machine) => {
                let copy = machine.copy()?;
                Ok(Some(copy))
            }
            State::Fresh(_) | State::Gone(_) => unreachable!(),
        }
    }

    /// Lets go of the device's memory, once, after its last step.
    #[cold]
    #[inline(never)]
    fn let_go(&mut self)
        ensures shown { self.new.shown ≡ self.old.shown }
        ensures fresh { self.new.fresh ≡ self.old.fresh }
    {
        let gone = match &self.state {
            State::Here(machine) => Snapshot::of(machine),
            State::Fresh(_) | State::Gone(_) => return,
        };
        self.state = State::Gone(gone);
    }
}

/// What is held of each device before its first step.
pub(crate) fn held_of_rows(alloc: Global, scenario: &Scenario) -> Result<Vec<Held>, AllocError>
    ensures count { IfOk result (λ v. length v.items ≡ length scenario.now.rows) }
    ensures parked { IfOk result (λ v. AreParked scenario.now [] v.items) }
{
    let rows = scenario.rows();
    let mut devices = Vec::with_capacity(alloc, rows)?;
    for device in 0..rows {
        devices.push(Held::new(scenario, device as u16))?;
    }
    Ok(devices)
}

/// Lets the device make the step of this number in its row, and returns what it outputs; it is started first if it is
/// yet to be. Only an allocation can fail; nothing is promised of what is held then. Every step is made by it, so it is
/// a part of each loop over steps.
#[inline(always)]
pub(crate) fn step_held(
    alloc: Global,
    scenario: &Scenario,
    held: &mut Held,
    device: u16,
    place: u32,
    step: &Step,
) -> Result<Outputs, AllocError>
    requires stands { step_at scenario.now device place ≡ Some step.now }
    requires holds { HoldsAfter scenario.now device place held.old }
    ensures outputs { IfOk result (λ o. o ≡ out_at scenario.now device place) }
    ensures holds { OnOk result (HoldsAfter scenario.now device (place + 1) held.new) }
    ensures here { OnOk result ((held.new.fresh ≡ false) × (held.new.gone ≡ false)) }
{
    held.start(scenario, device)?;
    match &mut held.state {
        State::Here(machine) => make_step(alloc, scenario, machine, device, place, step),
        State::Fresh(_) | State::Gone(_) => unreachable!(),
    }
}

/// Lets go of the memory of a device that has no next step. One that is held for longer takes memory, and shows the
/// same.
pub(crate) fn let_go_at_end(held: &mut Held, next: Option<&Step>)
    ensures { (s : Scenario) (d : ℕ) (k : ℕ) → option_copied next.entry ≡ step_at s d k → HoldsAfter s d k held.old
        → HoldsAfter s d k held.new }
{
    match next {
        None => held.let_go(),
        Some(_) => {}
    }
}

/// Lets the device make the step of this number in its row, and returns what it outputs. The device is started before
/// its first step, and its memory is let go of where no step comes next. Only an allocation can fail; nothing is
/// promised of what is held then.
pub(crate) fn make_outputs(
    alloc: Global,
    scenario: &Scenario,
    held: &mut Held,
    device: u16,
    place: u32,
    step: &Step,
    next: Option<&Step>,
) -> Result<Outputs, AllocError>
    requires stands { step_at scenario.now device place ≡ Some step.now }
    requires next { option_copied next ≡ step_at scenario.now device (place + 1) }
    requires holds { HoldsAfter scenario.now device place held.old }
    ensures outputs { IfOk result (λ o. o ≡ out_at scenario.now device place) }
    ensures holds { OnOk result (HoldsAfter scenario.now device (place + 1) held.new) }
{
    let outputs = step_held(alloc, scenario, held, device, place, step)?;
    let_go_at_end(held, next);
    Ok(outputs)
}

/// Lets the device make a step as `make_outputs` does, and returns a copy of it after the step too, if one is wanted.
/// The copy is made before the device's memory is let go of, so there is one after its last step too.
#[inline(always)]
pub(crate) fn make_copied(
    alloc: Global,
    scenario: &Scenario,
    held: &mut Held,
    device: u16,
    place: u32,
    step: &Step,
    next: Option<&Step>,
    wanted: bool,
) -> Result<(Outputs, Option<Device>), AllocError>
    requires stands { step_at scenario.now device place ≡ Some step.now }
    requires next { option_copied next ≡ step_at scenario.now device (place + 1) }
    requires holds { HoldsAfter scenario.now device place held.old }
    ensures outputs { IfOk result (λ made. made.0 ≡ out_at scenario.now device place) }
    ensures there { IfOk result (λ made. is_some made.1 ≡ wanted) }
    ensures shows { IfOk result (λ made. (x : Device) → made.1 ≡ Some x
        → ShowsAfter scenario.now device (place + 1) x) }
    ensures holds { OnOk result (HoldsAfter scenario.now device (place + 1) held.new) }
{
    let outputs = step_held(alloc, scenario, held, device, place, step)?;
    let copy = held.copy(wanted)?;
    let_go_at_end(held, next);
    Ok((outputs, copy))
}

/// Lets the device make the step of this number in its row, and returns its entry under the worker's number. The device
/// is started before its first step, and its memory is let go of after its last one. Only an allocation can fail;
/// nothing is promised of what is held then.
pub fn make_entry(
    alloc: Global,
    scenario: &Scenario,
    held: &mut Held,
    worker: u16,
    device: u16,
    place: u32,
    step: &Step,
) -> Result<Entry, AllocError>
    requires stands { step_at scenario.now device place ≡ Some step.now }
    requires holds { HoldsAfter scenario.now device place held.old }
    ensures entry { IfOk result (λ e. e ≡ record {
      worker = worker;
      device = device;
      step = place;
      outputs = out_at scenario.now device place;
    }) }
    ensures holds { OnOk result (HoldsAfter scenario.now device (place + 1) held.new) }
{
    // For the proof alone: a scenario whose rows are counted is known to be valid.
    let _known = scenario.rows();
    let next = place + 1;
    let following = step_of(scenario, device, next);
    let outputs = make_outputs(alloc, scenario, held, device, place, step, following)?;
    Ok(Entry {
        worker,
        device,
        step: place,
        outputs,
    })
}
