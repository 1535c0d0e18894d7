//! Whether an item of a case holds.

ghost use Rattle.std.specs.Prelude.{◌≡◌, ◌↔◌, slice_get, IsTrue, IfOk};
ghost use Rattle.device_machine.specs.State.{Machine, Shows};
ghost use Rattle.case_play.specs.Spots.{Spot, spot_after, PutsOut};
ghost use Rattle.case_play.specs.Holds.{is_of_outputs, has_right, has_wrong, line_or, IsMet, IsAnswered};
ghost use Rattle.case_play.specs.Walks.{IsAt, IsCompared, IsChecked};

use crate::outputs::first_unstated;
use crate::questions::is_answered;
use crate::walk::Walk;
use case_text::{Answer, Item, Part, Question, Stated};
use device_machine::{Device, Output};
use scenario_image::Scenario;
use std::alloc::{AllocError, Global};

/// Whether an answer is about outputs, and not about the whole scenario.
fn is_of_outputs(stated: &Stated) -> bool
    ensures { result ≡ is_of_outputs stated.now }
{
    matches!(stated, Stated::Output(_))
}

fn has_right(answers: &[Answer]) -> bool
    ensures { result ≡ has_right answers.now }
{
    answers
        .iter()
        .any(|answer| is_of_outputs(&answer.stated) && !answer.must_not)
}

fn has_wrong(answers: &[Answer]) -> bool
    ensures { result ≡ has_wrong answers.now }
{
    answers
        .iter()
        .any(|answer| is_of_outputs(&answer.stated) && answer.must_not)
}

/// The line of the answer of this number; after the last one, the item's own line.
fn line_at(own: usize, answers: &[Answer], place: usize) -> usize
    ensures { result ≡ line_or own (slice_get answers.now place) }
{
    match answers.get(place) {
        None => own,
        Some(answer) => answer.line,
    }
}

/// The line to be named where the answers do not hold of what is output: that of the first that is not so, or the
/// item's own one. None where they hold.
fn wrong_line(
    alloc: Global,
    own: usize,
    answers: &[Answer],
    outputs: &[Output],
) -> Result<Option<usize>, AllocError>
    ensures { IfOk result (λ r. IsCompared own answers.now outputs.now r) }
{
    let first = first_unstated(alloc, answers, outputs)?;
    if has_wrong(answers) {
        if has_right(answers) || first.is_none() {
            return Ok(Some(own));
        }
        return Ok(None);
    }
    match first {
        None => Ok(None),
        Some(place) => Ok(Some(line_at(own, answers, place))),
    }
}

/// Whether the answer to a question comes, or does not where it must not.
pub(crate) fn is_met(question: &Question, must_not: bool, device: &Device) -> bool
    ensures { (f : Machine) → Shows device.now f → IsTrue result ↔ IsMet must_not question.now f }
{
    let answered = is_answered(question, device);
    if must_not {
        return !answered;
    }
    answered
}

/// Whether a question that an item asks has its answer.
fn has_answer(walk: &Walk, scenario: &Scenario, part: &Part) -> bool
    ensures { (spot : Spot) → IsAt scenario.now spot walk.now → IsTrue result ↔ IsAnswered scenario.now spot part.now }
{
    match part {
        Part::Start
        | Part::Device { .. }
        | Part::Step { .. }
        | Part::Line
        | Part::Aside(_)
        | Part::Recorded(_) => true,
        Part::Ask { must_not, question } => match walk.asked(scenario) {
            None => false,
            Some(device) => is_met(question, *must_not, device),
        },
    }
}

/// The line to be named where an item does not hold, of which this is output, and after which the walk is.
pub(crate) fn check_outputs(
    alloc: Global,
    scenario: &Scenario,
    walk: &Walk,
    item: &Item,
    outputs: &[Output],
) -> Result<Option<usize>, AllocError>
    ensures { (spot : Spot) → PutsOut scenario.now spot item.now.part outputs.now
        → IsAt scenario.now (spot_after spot item.now.part) walk.now
        → IfOk result (λ r. IsChecked scenario.now spot item.now r walk.now) }
{
    if !has_answer(walk, scenario, &item.part) {
        return Ok(Some(item.line));
    }
    wrong_line(alloc, item.line, item.answers.as_slice(), outputs)
}
