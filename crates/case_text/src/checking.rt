//! What is refused of cases that were read.

ghost use Rattle.std.specs.Prelude.{◌≡◌, [], false};
ghost use Rattle.case_text.specs.Checks.{asks, check_of_cases, check_of_start, fault_in, fault_of, file_fault};
ghost use Rattle.case_text.specs.Checks.{file_stray, has_title, is_recorded, line_fault, scenario_fault, stray};
ghost use Rattle.case_text.specs.Checks.{stray_in, stray_in_trials, states_something, unanswered_item};
ghost use Rattle.case_text.specs.Checks.{unanswered_trial};

use crate::answer::Answer;
use crate::case::Case;
use crate::fault::{CaseFault, Why};
use crate::file_answer::FileAnswer;
use crate::file_case::FileCase;
use crate::file_stated::FileStated;
use crate::item::{Item, Part};
use crate::line::Line;
use crate::numbered::Numbered;
use crate::scenario_case::ScenarioCase;
use crate::stated::{Stated, WrittenStated};
use crate::trial::Trial;

/// Refuses lines of which none begins a case, or where something but remarks stands before the first.
pub(crate) fn begun(lines: &[Numbered]) -> Result<(), CaseFault>
    ensures { result ≡ check_of_start lines.now }
{
    for next in lines {
        match &next.line {
            Line::Remark => {}
            Line::Title(_) => return Ok(()),
            Line::Answer { .. }
            | Line::Part { .. }
            | Line::More(_)
            | Line::MoreDigits(_)
            | Line::File(_) => {
                return Err(CaseFault {
                    line: next.number,
                    why: Why::BeforeFirstCase,
                });
            }
        }
    }
    Err(CaseFault {
        line: 1,
        why: Why::NoCase,
    })
}

/// The line of the first `=| LINE` of these answers without `=> text` above it.
fn stray(answers: &[Answer]) -> Option<usize>
    ensures { result ≡ stray answers.now false }
{
    let mut announced = false;
    for answer in answers {
        match &answer.stated {
            Stated::Written(WrittenStated::Text) => announced = true,
            Stated::Written(WrittenStated::TextLine(_)) => {
                if !announced {
                    return Some(answer.line);
                }
            }
            _ => announced = false,
        }
    }
    None
}

fn stray_in(items: &[Item]) -> Option<usize>
    ensures { result ≡ stray_in items.now }
{
    for item in items {
        if let Some(line) = stray(item.answers.as_slice()) {
            return Some(line);
        }
    }
    None
}

/// The same in a case of a file, where `=> entries` announces lines too.
fn file_stray(answers: &[FileAnswer]) -> Option<usize>
    ensures { result ≡ file_stray answers.now false }
{
    let mut listed = false;
    for answer in answers {
        match &answer.stated {
            FileStated::Text | FileStated::Entries => listed = true,
            FileStated::TextLine(_) => {
                if !listed {
                    return Some(answer.line);
                }
            }
            _ => listed = false,
        }
    }
    None
}

fn stray_in_trials(trials: &[Trial]) -> Option<usize>
    ensures { result ≡ stray_in_trials trials.now }
{
    for trial in trials {
        if let Some(line) = file_stray(trial.answers.as_slice()) {
            return Some(line);
        }
    }
    None
}

fn is_recorded(part: &Part) -> bool
    ensures { result ≡ is_recorded part.now }
{
    match part {
        Part::Recorded(_) => true,
        _ => false,
    }
}

/// The line of the first recorded trace without an answer.
fn unanswered_item(items: &[Item]) -> Option<usize>
    ensures { result ≡ unanswered_item items.now }
{
    for item in items {
        if is_recorded(&item.part) && item.answers.as_slice().is_empty() {
            return Some(item.line);
        }
    }
    None
}

/// The line of the first trial without an answer.
fn unanswered_trial(trials: &[Trial]) -> Option<usize>
    ensures { result ≡ unanswered_trial trials.now }
{
    for trial in trials {
        if trial.answers.as_slice().is_empty() {
            return Some(trial.line);
        }
    }
    None
}

fn asks(part: &Part) -> bool
    ensures { result ≡ asks part.now }
{
    match part {
        Part::Ask { .. } => true,
        _ => false,
    }
}

fn states_something(items: &[Item]) -> bool
    ensures { result ≡ states_something items.now }
{
    items.iter().any(|item| asks(&item.part) || !item.answers.as_slice().is_empty())
}

/// The fault of the line that has no answer, or of the one that is not announced.
fn line_fault(unanswered: Option<usize>, stray: Option<usize>) -> Option<CaseFault>
    ensures { result ≡ line_fault unanswered stray }
{
    if let Some(line) = unanswered {
        return Some(CaseFault {
            line,
            why: Why::NoAnswerBelow,
        });
    }
    let line = stray?;
    Some(CaseFault {
        line,
        why: Why::NoTextAbove,
    })
}

fn scenario_fault(case: &ScenarioCase) -> Option<CaseFault>
    ensures { result ≡ scenario_fault case.now }
{
    let items = case.items.as_slice();
    if !states_something(items) {
        return Some(CaseFault {
            line: case.line,
            why: Why::NoAnswer,
        });
    }
    line_fault(unanswered_item(items), stray_in(items))
}

fn file_fault(case: &FileCase) -> Option<CaseFault>
    ensures { result ≡ file_fault case.now }
{
    let trials = case.trials.as_slice();
    line_fault(unanswered_trial(trials), stray_in_trials(trials))
}

/// Why a case is refused, whatever stands above it.
fn fault_in(case: &Case) -> Option<CaseFault>
    ensures { result ≡ fault_in case.now }
{
    match case {
        Case::Scenario(case) => scenario_fault(case),
        Case::File(case) => file_fault(case),
    }
}

fn has_title(title: &str, cases: &[Case]) -> bool
    ensures { result ≡ has_title title.now cases.now }
{
    cases.iter().any(|case| case.title().as_str() == title)
}

/// Why a case is refused, below those above it.
fn fault_of(above: &[Case], case: &Case) -> Option<CaseFault>
    ensures { result ≡ fault_of above.now case.now }
{
    if has_title(case.title().as_str(), above) {
        return Some(CaseFault {
            line: case.line(),
            why: Why::SameTitle,
        });
    }
    fault_in(case)
}

/// Refuses the first case that has the title of one above it, or states nothing of the whole or of a file, or states a
/// line that is not announced.
pub(crate) fn checked(cases: &[Case]) -> Result<(), CaseFault>
    ensures { result ≡ check_of_cases [] cases.now }
{
    for (place, case) in cases.iter().enumerate() {
        if let Some(fault) = fault_of(&cases[..place], case) {
            return Err(fault);
        }
    }
    Ok(())
}
