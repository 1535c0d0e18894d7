ghost use Rattle.std.specs.Prelude.{◌≡◌, ◌≢◌, IfOk, IfErr, IsErrAnd};
ghost use Rattle.scenario_image.specs.Scenario.{one_row, AreTaken, IsFirstRefusal};
ghost use Rattle.scenario_image.specs.declared.fault.ScenarioFault.{ScenarioFault};
ghost use Rattle.scenario_image.specs.declared.fault.ScenarioFault.TheVariants.{Memory};

use crate::fault::ScenarioFault;
use crate::scenario::Scenario;
use crate::step::Step;
use device_machine::Template;
use std::alloc::Global;

impl Scenario {
    /// A scenario of this class alone, with one device, whose row has these steps.
    ///
    /// The first step that `add_step` refuses after those before it is refused as there.
    pub fn single(
        alloc: Global,
        class: Template,
        steps: Vec<Step>,
    ) -> Result<Scenario, ScenarioFault>
        ensures made { IfOk result (λ s. s ≡ one_row class steps.items) }
        ensures refused { IfErr result (λ f. f ≢ Memory → IsFirstRefusal class steps.items f) }
        ensures refuses { (f : ScenarioFault) → IsFirstRefusal class steps.items f
            → IsErrAnd result (λ g. g ≢ Memory → g ≡ f) }
    {
        let mut scenario = Scenario::empty(alloc);
        scenario.add_class(class)?;
        scenario.add_row(0)?;
        for step in steps {
            scenario.add_step(step)?;
        }
        Ok(scenario)
    }
}
