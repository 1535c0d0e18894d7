//! What is refused of lines and of cases that were read.
ghost use Rattle.std.specs.Prelude.{◌≡◌, []};
ghost use Rattle.expectations.specs.ExpectedCases.{check_of_cases, check_of_start, empty_fault, fault_of, has_title};

use crate::expectation::{Expectation, ExpectedCase};
use crate::line::{Line, Numbered};
use case_text::{CaseFault, Why};

/// Refuses lines of which none begins a case, or where something but remarks stands before the first.
pub(crate) fn begun(lines: &[Numbered]) -> Result<(), CaseFault>
    ensures { result ≡ check_of_start lines.now }
{
    for next in lines {
        match &next.line {
            Line::Remark => {}
            Line::Title(_) => return Ok(()),
            Line::Expected(_) => {
                return Err(CaseFault {
                    line: next.number,
                    why: Why::BeforeFirstCase,
                });
            }
        }
    }
    Err(CaseFault {
        line: 1,
        why: Why::NoCase,
    })
}

fn has_title(title: &str, cases: &[ExpectedCase]) -> bool
    ensures { result ≡ has_title title.now cases.now }
{
    cases.iter().any(|case| case.title.as_str() == title)
}

fn empty_fault(line: usize, lines: &[Expectation]) -> Option<CaseFault>
    ensures { result ≡ empty_fault line lines.now }
{
    match lines {
        [] => Some(CaseFault {
            line,
            why: Why::NoAnswer,
        }),
        _ => None,
    }
}

/// Why a case is refused, below those above it.
fn fault_of(above: &[ExpectedCase], case: &ExpectedCase) -> Option<CaseFault>
    ensures { result ≡ fault_of above.now case.now }
{
    if has_title(case.title.as_str(), above) {
        return Some(CaseFault {
            line: case.line,
            why: Why::SameTitle,
        });
    }
    empty_fault(case.line, case.lines.as_slice())
}

/// Refuses the first case that has the title of one above it, or has no line `<=`.
pub(crate) fn checked(cases: &[ExpectedCase]) -> Result<(), CaseFault>
    ensures { result ≡ check_of_cases [] cases.now }
{
    for (place, case) in cases.iter().enumerate() {
        if let Some(fault) = fault_of(&cases[..place], case) {
            return Err(fault);
        }
    }
    Ok(())
}
