//! The line that counts what a scenario has.
ghost use Rattle.std.specs.Prelude.{◌≡◌, IfOk};
ghost use Rattle.std.specs.String.{string_bytes};
ghost use Rattle.command_scenarios.specs.Texts.{count_line, ok_line};

use scenario_image::Scenario;
use std::alloc::{AllocError, Global};

/// The line that says how many classes, devices and steps a scenario has.
pub fn count_line(alloc: Global, scenario: &Scenario) -> Result<String, AllocError>
    ensures { IfOk result (λ text. string_bytes text ≡ count_line scenario.now) }
{
    ok_line(alloc, scenario.classes(), scenario.rows(), scenario.steps())
}

fn ok_line(
    alloc: Global,
    classes: usize,
    devices: usize,
    steps: usize,
) -> Result<String, AllocError>
    ensures { IfOk result (λ text. string_bytes text ≡ ok_line classes devices steps) }
{
    format!(in alloc; "ok {classes} classes {devices} devices {steps} steps\n")
}
