//! Rows of a scenario, after those of another.
ghost use Rattle.std.specs.Prelude.{◌≡◌, ◌+◌, ◌≤◌, ◌∷◌, ◌++◌, [], IfErr, IfOk, OnOk, length};
ghost use Rattle.scenario_image.specs.Scenario.{most_rows};
ghost use Rattle.command_files.specs.declared.fault.Fault.TheVariants.{Memory};

use command_files::Fault;
use scenario_image::{Scenario, ScenarioFault, Step};
use std::alloc::AllocError;

/// A step that equals this one.
fn copy_step(step: &Step) -> Result<Step, AllocError>
    ensures { IfOk result (λ s. s ≡ step.now) }
{
    step.clone()
}

/// Adds the row of a device of this class, with copies of these steps.
fn add_row(whole: &mut Scenario, class: u16, steps: &[Step]) -> Result<(), ScenarioFault>
    ensures classes { OnOk result (whole.new.classes ≡ whole.old.classes) }
    ensures rows { OnOk result (whole.new.rows
        ≡ whole.old.rows ++ record { class = class; steps = steps.now } ∷ []) }
{
    whole.add_row(class)?;
    for step in steps {
        whole.add_step(copy_step(step)?)?;
    }
    Ok(())
}

/// Adds the rows of a part. A part of the same classes is valid among them: where there is room for its rows, only
/// memory may lack for them.
pub(crate) fn add_rows(whole: &mut Scenario, part: &Scenario) -> Result<(), Fault>
    requires same { part.now.classes ≡ whole.old.classes }
    requires room { length whole.old.rows + length part.now.rows ≤ most_rows }
    ensures classes { OnOk result (whole.new.classes ≡ whole.old.classes) }
    ensures rows { OnOk result (whole.new.rows ≡ whole.old.rows ++ part.now.rows) }
    ensures refused { IfErr result (λ fault. fault ≡ Memory) }
{
    for device in 0..part.rows() {
        let Some((class, steps)) = part.row(device as u16) else {
            return Err(Fault::Memory);
        };
        match add_row(whole, class, steps) {
            Ok(()) => {}
            Err(_) => return Err(Fault::Memory),
        }
    }
    Ok(())
}
