//! Cases whose text is refused.

ghost use Rattle.std.specs.Prelude.{◌≡◌, ◌↔◌, IsTrue};
ghost use Rattle.case_play.specs.Refusals.{number_of, StatesFault, is_fault, FaultHolds, AllFaultsHold, is_plain};
ghost use Rattle.case_play.specs.Refusals.{FaultsHold, has_answer, AreRefused};

use case_text::{Answer, EndStated, Item, Part, Stated};
use scenario_asm::AsmFault;

/// The number in the case of a line of its text.
pub(crate) fn number_of(numbers: &[usize], line: usize) -> Option<usize>
    ensures { result ≡ number_of numbers.now line }
{
    if line == 0 {
        return None;
    }
    numbers.get(line - 1).copied()
}

fn is_fault(stated: &Stated) -> bool
    ensures { result ≡ is_fault stated.now }
{
    matches!(stated, Stated::End(EndStated::Fault { .. }))
}

/// Whether an answer states this fault.
fn states_fault(numbers: &[usize], fault: AsmFault, stated: &Stated) -> bool
    ensures { IsTrue result ↔ StatesFault numbers.now fault stated.now }
{
    match stated {
        Stated::End(EndStated::Fault { line, cause }) => match number_of(numbers, fault.line) {
            None => false,
            Some(number) => number as u64 == *line && fault.cause == *cause,
        },
        Stated::Output(_) | Stated::End(_) | Stated::Verdict(_) | Stated::Written(_) => false,
    }
}

fn fault_holds(numbers: &[usize], fault: AsmFault, answer: &Answer) -> bool
    ensures { IsTrue result ↔ FaultHolds numbers.now fault answer.now }
{
    let stated = states_fault(numbers, fault, &answer.stated);
    if answer.must_not {
        return is_fault(&answer.stated) && !stated;
    }
    stated
}

fn is_plain(part: &Part) -> bool
    ensures { result ≡ is_plain part.now }
{
    match part {
        Part::Start | Part::Device { .. } | Part::Step { .. } | Part::Line | Part::Aside(_) => true,
        Part::Ask { .. } | Part::Recorded(_) => false,
    }
}

fn each_fault_holds(numbers: &[usize], fault: AsmFault, answers: &[Answer]) -> bool
    ensures { IsTrue result ↔ AllFaultsHold numbers.now fault answers.now }
{
    for answer in answers {
        if !fault_holds(numbers, fault, answer) {
            return false;
        }
    }
    true
}

/// Whether there is no other answer below an item than the fault.
fn faults_hold(numbers: &[usize], fault: AsmFault, item: &Item) -> bool
    ensures { IsTrue result ↔ FaultsHold numbers.now fault item.now }
{
    is_plain(&item.part) && each_fault_holds(numbers, fault, item.answers.as_slice())
}

fn has_answer(items: &[Item]) -> bool
    ensures { result ≡ has_answer items.now }
{
    items.iter().any(|item| 0 < item.answers.as_slice().len())
}

/// Whether a text that is refused so is stated to be.
pub(crate) fn are_refused(numbers: &[usize], fault: AsmFault, items: &[Item]) -> bool
    ensures { IsTrue result ↔ AreRefused numbers.now fault items.now }
{
    if !has_answer(items) {
        return false;
    }
    for item in items {
        if !faults_hold(numbers, fault, item) {
            return false;
        }
    }
    true
}
