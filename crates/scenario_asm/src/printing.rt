//! The canonical text of a scenario: each statement once, in a line of its own. It is read as the scenario again.

ghost use Rattle.std.specs.Prelude.{◌≡◌, Ok, IfOk, OnOk};
ghost use Rattle.std.specs.String.{string_bytes};
ghost use Rattle.scenario_asm.specs.Canonical.{text_of_scenario};
ghost use Rattle.scenario_asm.specs.Reading.{IsScenario};
ghost use Rattle.scenario_asm.specs.Text.{scenario_of_text};

mod classes;
mod lines;
mod rows;

use self::classes::put_classes;
use self::lines::put_statement;
use self::rows::put_rows;
use scenario_image::Scenario;
use scenario_statements::Statement;
use std::alloc::{AllocError, Global};

/// The canonical text of a scenario: a line for each statement, its words with one space between each two, and an LF
/// after the last line too. A datagram that a mnemonic denotes is written as that mnemonic, any other as `recv`.
#[tactic(auto, using(crate::proofs::Round::text_again))]
pub fn disassemble(alloc: Global, scenario: &Scenario) -> Result<String, AllocError>
    ensures text { IfOk result (λ t. string_bytes t ≡ text_of_scenario scenario.now) }

    // So each line of the text is read as its statement (`canonical_lines`).
    ensures scenario { OnOk result (IsScenario scenario.now) }
    ensures again { IfOk result (λ t. scenario_of_text (string_bytes t) ≡ Ok scenario.now) }
{
    printed_text(alloc, scenario)
}

fn printed_text(alloc: Global, scenario: &Scenario) -> Result<String, AllocError>
    ensures text { IfOk result (λ t. string_bytes t ≡ text_of_scenario scenario.now) }
    ensures scenario { OnOk result (IsScenario scenario.now) }
{
    let mut out = String::new(alloc);
    put_statement(alloc, &mut out, &Statement::Scenario)?;
    put_classes(alloc, &mut out, scenario)?;
    put_rows(alloc, &mut out, scenario)?;
    Ok(out)
}
