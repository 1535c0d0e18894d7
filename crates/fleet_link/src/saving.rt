//! The recorded rows of a fleet, as a scenario.
ghost use Rattle.std.specs.Prelude.{◌≡◌, ◌≤◌, ◌∷◌, ◌++◌, [], count_by, if◌then◌else◌, IfOk, OnOk, not};
ghost use Rattle.fleet_link.specs.Saved.{IsSaved};

use crate::fleet::Fleet;
use crate::slot::Slot;
use scenario_image::{Scenario, ScenarioFault, Step};
use std::alloc::Global;

/// The classes of a scenario, without a row.
fn copy_classes(alloc: Global, scenario: &Scenario) -> Result<Scenario, ScenarioFault>
    ensures classes { IfOk result (λ s. s.classes ≡ scenario.now.classes) }
    ensures rows { IfOk result (λ s. s.rows ≡ []) }
{
    // For the proof alone: a scenario whose rows are counted is known to be valid.
    let _known = scenario.rows();
    let mut copy = Scenario::empty(alloc);
    for place in 0..scenario.classes() {
        let Some(class) = scenario.class(place as u16) else {
            return Err(ScenarioFault::Missing);
        };
        let class = class.copy()?;
        copy.add_class(class)?;
    }
    Ok(copy)
}

/// Adds the row of a device of this class, with these steps.
pub fn add_row(scenario: &mut Scenario, class: u16, steps: Vec<Step>) -> Result<(), ScenarioFault>
    ensures classes { OnOk result (scenario.new.classes ≡ scenario.old.classes) }
    ensures rows { OnOk result (scenario.new.rows
        ≡ scenario.old.rows ++ record { class = class; steps = steps.items } ∷ []) }
{
    scenario.add_row(class)?;
    for step in steps {
        scenario.add_step(step)?;
    }
    Ok(())
}

/// 1 where the device has steps that were not recorded.
fn cut_of(slot: &Slot) -> usize
    ensures one { result ≡ (if not slot.now.recording.complete then 1 else 0) }
    ensures few { result ≤ 1 }
{
    if slot.is_recorded() { 0 } else { 1 }
}

impl Fleet {
    /// How many devices have steps that were not recorded, since there was no room for them.
    pub fn cut_rows(&self) -> usize
        ensures { result ≡ count_by (λ slot. not slot.recording.complete) self.now.slots.items }
    {
        let mut cut = 0usize;
        for slot in &self.slots {
            cut += cut_of(slot);
        }
        cut
    }

    /// A scenario of the same classes, with a row for each device, which has copies of the steps that it has recorded
    /// so far; so a session can be saved while it goes on. It is refused as by `into_scenario`.
    pub fn to_scenario(&self, alloc: Global, scenario: &Scenario) -> Result<Scenario, ScenarioFault>
        ensures { IfOk result (λ saved. IsSaved scenario.now self.now.slots.items saved) }
    {
        // For the proof alone: a scenario whose rows are counted is known to be valid.
        let _known = scenario.rows();
        let mut saved = copy_classes(alloc, scenario)?;
        let mut device = 0u16;
        for slot in &self.slots {
            let Some((class, _)) = scenario.row(device) else {
                return Err(ScenarioFault::Missing);
            };
            add_row(&mut saved, class, slot.copy_steps(alloc)?)?;
            device = device.saturating_add(1);
        }
        Ok(saved)
    }

    /// A scenario of the same classes, with a row for each device, which has its recorded steps. It is refused where a
    /// step cannot be one of a scenario: a datagram of a server that is no account of the device, or of over 1,500
    /// bytes.
    pub fn into_scenario(
        self,
        alloc: Global,
        scenario: &Scenario,
    ) -> Result<Scenario, ScenarioFault>
        ensures { IfOk result (λ saved. IsSaved scenario.now self.slots.items saved) }
    {
        // For the proof alone: a scenario whose rows are counted is known to be valid.
        let _known = scenario.rows();
        let mut saved = copy_classes(alloc, scenario)?;
        let mut device = 0u16;
        for slot in self.slots {
            let Some((class, _)) = scenario.row(device) else {
                return Err(ScenarioFault::Missing);
            };
            add_row(&mut saved, class, slot.into_steps())?;
            device = device.saturating_add(1);
        }
        Ok(saved)
    }
}
