ghost use Rattle.std.specs.Prelude.{◌≡◌, ℕ, ◌↔◌, ◌++◌, ◌∷◌, [], List, Option, Some, Err, false, is_some, length, map};
ghost use Rattle.std.specs.Prelude.{slice_get, Ok, None, IfOk, OnOk, OnErr, IsTrue};
ghost use Rattle.std.specs.List.{list_any};
ghost use Rattle.std.specs.Result.{IsErr};
ghost use Rattle.device_machine.specs.declared.output.Output.{Output};
ghost use Rattle.device_machine.specs.State.{Machine, Shows};
ghost use Rattle.scenario_image.specs.Play.{start, state_at, step_outputs, step_after, state_after, PutsOut};
ghost use Rattle.scenario_image.specs.Play.{is_step_refused, is_event, outputs_in, IsStopped, IsLeft};

use crate::step::Step;
use device_machine::{Device, Outputs, StepFault, Template};
use std::alloc::{AllocError, Global};

/// Lets a device take a step, and returns what it outputs: none at a post and a need, of which the device hears
/// nothing; these are taken also by a spent device, and take no memory. `Memory` leaves the device spent. `Spent`: it
/// was spent; nothing changes.
pub fn take_step(device: &mut Device, step: &Step) -> Result<Option<Outputs>, StepFault>
    ensures outputs { (f : Machine) → Shows device.old f → IfOk result (λ o. outputs_in o ≡ step_outputs f step.now) }
    ensures shows { (f : Machine) → Shows device.old f → OnOk result (Shows device.new (step_after f step.now)) }
    ensures spent { (result ≡ Err StepFault.Spent) ↔ IsTrue (is_step_refused device.old step.now) }
    ensures unchanged { result ≡ Err StepFault.Spent → device.new ≡ device.old }
    ensures unheard { is_event step.now ≡ false → device.new ≡ device.old }
    ensures asked { IfOk result (λ o. is_some o ≡ is_event step.now) }
    ensures memory { result ≡ Err StepFault.Memory → IsTrue device.new.spent }
    // Nor does a spent device keep a post or a need from being taken.
    ensures silent { is_event step.now ≡ false → result ≡ Ok None }
{
    match step {
        Step::Event(event) => {
            let outputs = device.step(event)?;
            Ok(Some(outputs))
        }
        Step::Post(_) | Step::Need(_, _) => Ok(None),
    }
}

/// Keeps what was output after the others.
fn keep(all: &mut Vec<Option<Outputs>>, outputs: Option<Outputs>) -> Result<(), AllocError>
    ensures { OnOk result (all.new.items ≡ all.old.items ++ outputs ∷ []) }
{
    all.push(outputs)?;
    Ok(())
}

/// Lets a device take steps, one after another, and returns what each outputs. `Spent`: the device refuses one of them
/// after those before it; a spent one refuses each event. After an error the device is spent, or shows the state after
/// some of the steps.
pub fn take_steps(
    alloc: Global,
    device: &mut Device,
    steps: &[Step],
) -> Result<Vec<Option<Outputs>>, StepFault>
    ensures count { IfOk result (λ v. length v.items ≡ length steps.now) }
    ensures outputs { (f : Machine) → Shows device.old f → IfOk result (λ v.
        (k : ℕ) (o : Option (List Output)) → slice_get v.items k ≡ Some o → PutsOut f steps.now k (outputs_in o)) }
    ensures shows { (f : Machine) → Shows device.old f → OnOk result (Shows device.new (state_after f steps.now)) }
    ensures asked { IfOk result (λ v. map is_some v.items ≡ map is_event steps.now) }
    ensures spent { (f : Machine) → Shows device.old f → result ≡ Err StepFault.Spent → IsStopped f steps.now }
    ensures stopped { (f : Machine) → Shows device.old f → IsStopped f steps.now → IsErr result }
    ensures deaf { IsTrue device.old.spent → OnOk result (list_any is_event steps.now ≡ false) }
    ensures left { (f : Machine) → Shows device.old f → OnErr result (IsLeft device.new f steps.now) }
{
    let mut all = Vec::with_capacity(alloc, steps.len())?;
    for step in steps {
        let outputs = take_step(device, step)?;
        keep(&mut all, outputs)?;
    }
    Ok(all)
}

/// Lets a new device of the class take steps, and gives the device and what each step outputs.
///
/// `Spent` says that the device refuses one of them after those before it.
pub fn play(
    alloc: Global,
    class: &Template,
    steps: &[Step],
) -> Result<(Device, Vec<Option<Outputs>>), StepFault>
    ensures count { IfOk result (λ r. length r.1.items ≡ length steps.now) }
    ensures outputs { IfOk result (λ r. (k : ℕ) (o : Option (List Output)) → slice_get r.1.items k ≡ Some o
        → PutsOut (start class.now) steps.now k (outputs_in o)) }
    ensures shows { IfOk result (λ r. Shows r.0 (state_at class.now steps.now (length steps.now))) }
    ensures asked { IfOk result (λ r. map is_some r.1.items ≡ map is_event steps.now) }
    ensures spent { result ≡ Err StepFault.Spent → IsStopped (start class.now) steps.now }
    ensures stopped { IsStopped (start class.now) steps.now → IsErr result }
{
    let mut device = Device::start(class)?;
    let all = take_steps(alloc, &mut device, steps)?;
    Ok((device, all))
}
