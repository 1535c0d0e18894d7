//! What is stated below an item of the whole scenario, or of a recorded trace.

ghost use Rattle.std.specs.Prelude.{◌≡◌, ◌↔◌, IsTrue, IfOk};
ghost use Rattle.std.specs.Option.{option_copied};
ghost use Rattle.case_play.specs.Ends.{recorded_in, is_of_all, IsEndBelow, EndHolds, AreEnds, AreAllEnds};

use crate::answer_place::AnswerPlace;
use crate::ends::is_end;
use crate::recorded::is_of_recorded;
use case_text::{Answer, Item, Part, Stated, WrittenStated};
use fleet_core::Entry;
use octets::Bytes;
use scenario_image::Scenario;
use std::alloc::{AllocError, Global};

/// The bytes of a recorded trace; none of any other item.
pub(crate) fn recorded_in(part: &Part) -> Option<&Bytes>
    ensures { option_copied result ≡ recorded_in part.now }
{
    match part {
        Part::Recorded(bytes) => Some(bytes),
        Part::Start
        | Part::Device { .. }
        | Part::Step { .. }
        | Part::Line
        | Part::Ask { .. }
        | Part::Aside(_) => None,
    }
}

/// Whether an answer, among those below its item, is so of a recorded trace, or of the scenario and its serial run.
fn is_end_below(
    alloc: Global,
    scenario: &Scenario,
    entries: &[Entry],
    part: &Part,
    answers: &[Answer],
    stated: &Stated,
) -> Result<bool, AllocError>
    ensures { IfOk result (λ b. IsTrue b
        ↔ IsEndBelow scenario.now entries.now part.now answers.now stated.now) }
{
    match recorded_in(part) {
        None => is_end(alloc, scenario, entries, answers, stated),
        Some(bytes) => is_of_recorded(alloc, scenario, bytes.as_slice(), answers, stated),
    }
}

fn is_of_all(stated: &Stated) -> bool
    ensures { result ≡ is_of_all stated.now }
{
    match stated {
        Stated::Output(_) | Stated::Written(WrittenStated::TextLine(_)) => false,
        Stated::End(_) | Stated::Verdict(_) | Stated::Written(_) => true,
    }
}

/// Whether an answer that is about the whole scenario or a recorded trace is so, or is not where it must not come.
fn end_holds(
    alloc: Global,
    scenario: &Scenario,
    entries: &[Entry],
    part: &Part,
    answers: &[Answer],
    answer: &Answer,
) -> Result<bool, AllocError>
    ensures { IfOk result (λ b. IsTrue b ↔ EndHolds scenario.now entries.now part.now answers.now answer.now) }
{
    if !is_of_all(&answer.stated) {
        return Ok(true);
    }
    let is = is_end_below(alloc, scenario, entries, part, answers, &answer.stated)?;
    Ok(is != answer.must_not)
}

/// The place of the first answer below an item that is about the whole scenario or a recorded trace, and does not hold;
/// none where all do.
fn first_end(
    alloc: Global,
    scenario: &Scenario,
    entries: &[Entry],
    part: &Part,
    answers: &[Answer],
) -> Result<Option<usize>, AllocError>
    ensures { IfOk result (λ r. AreEnds scenario.now entries.now part.now answers.now r) }
{
    for (place, answer) in answers.iter().enumerate() {
        if !end_holds(alloc, scenario, entries, part, answers, answer)? {
            return Ok(Some(place));
        }
    }
    Ok(None)
}

/// Where the first answer of a case stands that is about the whole scenario or a recorded trace, and does not hold;
/// none where all do. The entries are those of the serial run.
pub(crate) fn first_wrong_end(
    alloc: Global,
    scenario: &Scenario,
    entries: &[Entry],
    items: &[Item],
) -> Result<Option<AnswerPlace>, AllocError>
    ensures { IfOk result (λ r. AreAllEnds scenario.now entries.now items.now r) }
{
    for (place, item) in items.iter().enumerate() {
        match first_end(
            alloc,
            scenario,
            entries,
            &item.part,
            item.answers.as_slice(),
        )? {
            None => {}
            Some(answer) => return Ok(Some(AnswerPlace {
                item: place,
                answer,
            })),
        }
    }
    Ok(None)
}
