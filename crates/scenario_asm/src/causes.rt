//! What the builders refuse, as causes of a line's refusal.

ghost use Rattle.std.specs.Prelude.{◌≡◌};
ghost use Rattle.scenario_asm.specs.Causes.{long_result, scenario_cause, scenario_result, template_cause};
ghost use Rattle.scenario_asm.specs.Causes.{template_result};

use device_template::TemplateFault;
use scenario_image::ScenarioFault;
use scenario_words::Cause;

fn template_cause(fault: TemplateFault) -> Cause
    ensures { result ≡ template_cause fault }
{
    match fault {
        TemplateFault::Range => Cause::Range,
        TemplateFault::Missing => Cause::Missing,
        TemplateFault::Duplicate => Cause::Duplicate,
        TemplateFault::Full => Cause::Limit,
        TemplateFault::Memory => Cause::Memory,
    }
}

fn scenario_cause(fault: ScenarioFault) -> Cause
    ensures { result ≡ scenario_cause fault }
{
    match fault {
        ScenarioFault::Range => Cause::Range,
        ScenarioFault::Missing => Cause::Missing,
        ScenarioFault::Limit => Cause::Limit,
        ScenarioFault::Memory => Cause::Memory,
    }
}

/// What a class answered.
pub(crate) fn of_class(added: Result<(), TemplateFault>) -> Result<(), Cause>
    ensures { result ≡ template_result added }
{
    match added {
        Ok(()) => Ok(()),
        Err(fault) => Err(template_cause(fault)),
    }
}

/// What a class answered to the empty value of the kind of one that is too long.
pub(crate) fn of_long(added: Result<(), TemplateFault>) -> Result<(), Cause>
    ensures { result ≡ long_result added }
{
    match added {
        Ok(()) => Err(Cause::Limit),
        Err(fault) => Err(template_cause(fault)),
    }
}

/// What a scenario answered.
pub(crate) fn of_scenario(added: Result<(), ScenarioFault>) -> Result<(), Cause>
    ensures { result ≡ scenario_result added }
{
    match added {
        Ok(()) => Ok(()),
        Err(fault) => Err(scenario_cause(fault)),
    }
}
