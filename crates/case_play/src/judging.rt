//! The verdict on a case.

ghost use Rattle.std.specs.Prelude.{IfOk};
ghost use Rattle.fleet_core.specs.Run.{IsSerial};
ghost use Rattle.case_play.specs.Cases.{AllHold, IsVerdict, IsVerdictIn, IsVerdictOn};
ghost use Rattle.case_play.specs.Ends.{IsFirstOfAll};

use crate::answer_place::AnswerPlace;
use crate::below::first_wrong_end;
use crate::differences::{ItemDifference, first_difference};
use crate::instead::came_below;
use crate::refusals::{are_refused, number_of};
use crate::verdict::Verdict;
use case_text::{Item, ScenarioCase};
use fleet_core::{Entry, run_serial};
use scenario_asm::{AsmFault, assemble};
use scenario_image::Scenario;
use scenario_words::Cause;
use std::alloc::{AllocError, Global};

/// The verdict where this answer is the first that does not hold.
fn differs_at_end(
    alloc: Global,
    scenario: &Scenario,
    entries: &[Entry],
    items: &[Item],
    place: AnswerPlace,
) -> Result<Verdict, AllocError>
    requires hold { AllHold scenario.now items.now }
    requires serial { IsSerial scenario.now entries.now }
    requires first { IsFirstOfAll scenario.now entries.now items.now place }
    ensures { IfOk result (λ v. IsVerdictIn scenario.now items.now v) }
{
    let item = &items[place.item];
    let answer = &item.answers.as_slice()[place.answer];
    let came = came_below(alloc, scenario, entries, &item.part, &answer.stated)?;
    Ok(Verdict::Differs {
        line: answer.line,
        came,
    })
}

/// The verdict on a case whose text denotes this scenario, in which each of its items holds.
fn judge_ends(alloc: Global, scenario: &Scenario, items: &[Item]) -> Result<Verdict, AllocError>
    requires { AllHold scenario.now items.now }
    ensures { IfOk result (λ v. IsVerdictIn scenario.now items.now v) }
{
    let entries = run_serial(alloc, scenario)?;
    match first_wrong_end(alloc, scenario, entries.as_slice(), items)? {
        None => Ok(Verdict::Passes),
        Some(place) => differs_at_end(alloc, scenario, entries.as_slice(), items, place),
    }
}

/// The verdict on a case whose text denotes this scenario.
fn judge_items(alloc: Global, scenario: &Scenario, items: &[Item]) -> Result<Verdict, AllocError>
    ensures { IfOk result (λ v. IsVerdictIn scenario.now items.now v) }
{
    match first_difference(alloc, scenario, items)? {
        None => judge_ends(alloc, scenario, items),
        Some(ItemDifference { line, came }) => Ok(Verdict::Differs { line, came }),
    }
}

/// The verdict on a case whose text is refused.
fn judge_refusal(case: &ScenarioCase, fault: AsmFault) -> Verdict
    ensures { IsVerdictOn fault case.now result }
{
    if are_refused(case.numbers.as_slice(), fault, case.items.as_slice()) {
        return Verdict::Passes;
    }
    Verdict::Refused {
        line: number_of(case.numbers.as_slice(), fault.line).unwrap_or(0),
        cause: fault.cause,
    }
}

/// The verdict on a case of a scenario: whether all that it states holds, and else the first line that does not, and
/// what came of it.
pub fn judge_scenario(alloc: Global, case: &ScenarioCase) -> Result<Verdict, AllocError>
    ensures { IfOk result (λ v. IsVerdict case.now v) }
{
    match assemble(alloc, case.text.as_str()) {
        Ok(scenario) => judge_items(alloc, &scenario, case.items.as_slice()),
        Err(fault) => {
            if fault.cause == Cause::Memory {
                return Err(AllocError);
            }
            Ok(judge_refusal(case, fault))
        }
    }
}
