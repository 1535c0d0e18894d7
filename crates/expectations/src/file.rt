//! The cases of a file of expectations.
ghost use Rattle.std.specs.Prelude.{◌≡◌, ◌≢◌, true, false, MatchOption};
ghost use Rattle.scenario_words.specs.declared.cause.Cause.TheVariants as cause;
ghost use Rattle.scenario_words.specs.Words.{lines, words};
ghost use Rattle.case_text.specs.declared.fault.Why.TheVariants as why;
ghost use Rattle.case_text.specs.Above.{above_none};
ghost use Rattle.case_text.specs.AnyLine.{line_of as case_line_of};
ghost use Rattle.case_text.specs.Cases.{Finds as FindsCases};
ghost use Rattle.case_text.specs.Marks.{Finds, begins, behind};
ghost use Rattle.expectations.specs.ExpectedCases.{expected_cases_in, numbered_lines};
ghost use Rattle.expectations.specs.ExpectedLines.{expectation_by, line_of, title_line, worded_of};
ghost use Rattle.expectations.specs.ExpectationWords.{expected_at};

use crate::checking::{begun, checked};
use crate::expectation::ExpectedCase;
use crate::grouping::cases_of;
use crate::line::{Line, Numbered};
use crate::reading::read_expected;
use case_text::{Above, CaseFault, Line as CaseLine, Why, read_line};
use scenario_words::{Cause, next_line, next_word};
use std::alloc::Global;

/// What stands behind the beginning of a line, where it begins so.
fn behind<'a>(line: &'a [u8], mark: &str) -> Option<&'a [u8]>
    ensures { MatchOption result (begins mark.now line.now ≡ false)
        (λ x. (begins mark.now line.now ≡ true) × (x.now ≡ behind mark.now line.now)) }
{
    line.strip_prefix(mark.as_bytes())
}

/// Why a line is not an expectation.
fn refused(met: Cause) -> Why
    ensures memory { met ≡ cause.Memory → result ≡ why.Memory }
    ensures other { result ≢ why.Memory → (met ≢ cause.Memory) × (result ≡ why.NotAnExpectation met) }
{
    match met {
        Cause::Memory => Why::Memory,
        _ => Why::NotAnExpectation(met),
    }
}

/// The expectation behind `<=`.
fn expectation(alloc: Global, line: &[u8]) -> Result<Line, Why>
    ensures { Finds (λ l. l) result (expectation_by (expected_at (words line.now))) }
{
    match read_expected(alloc, line) {
        Ok(expected) => Ok(Line::Expected(expected)),
        Err(cause) => Err(refused(cause)),
    }
}

/// The title that a line of a file of cases is.
fn title(alloc: Global, line: &[u8]) -> Result<Line, Why>
    ensures { Finds (λ l. l) result (title_line (case_line_of above_none line.now)) }
{
    match read_line(alloc, Above::none(), line)? {
        CaseLine::Title(title) => Ok(Line::Title(title)),
        other => {
            drop(other);
            Err(Why::NoSuchLine)
        }
    }
}

/// A line with words.
fn worded_of(alloc: Global, line: &[u8]) -> Result<Line, Why>
    ensures { Finds (λ l. l) result (worded_of line.now) }
{
    if let Some(expected) = behind(line, "<= ") {
        return expectation(alloc, expected);
    }
    if behind(line, "case").is_some() {
        return title(alloc, line);
    }
    Err(Why::NoSuchLine)
}

/// What a line is.
fn line_of(alloc: Global, line: &[u8]) -> Result<Line, Why>
    ensures { Finds (λ l. l) result (line_of line.now) }
{
    match next_word(line) {
        Some(_) => worded_of(alloc, line),
        None => Ok(Line::Remark),
    }
}

/// The lines of a text, or the first that cannot be read.
#[tactic(auto, using(crate::proofs::Grouped::line_by_line))]
fn numbered(alloc: Global, text: &[u8]) -> Result<Vec<Numbered>, CaseFault>
    ensures { FindsCases (λ v. v.items) result (numbered_lines (lines text.now) 0) }
{
    let mut all = Vec::new(alloc);
    let mut number = 0;
    let mut left = Some(text);
    while let Some(text) = left {
        let (first, behind) = next_line(text);
        number += 1;
        match line_of(alloc, first) {
            Ok(line) => all.push(Numbered { number, line })?,
            Err(why) => return Err(CaseFault { line: number, why }),
        }
        left = behind;
    }
    Ok(all)
}

/// The cases of a file of expectations, or the first fault: of a line that cannot be read; of what stands before the
/// first case (`BeforeFirstCase`), or that there is none (`NoCase`); of a case: two of one title (`SameTitle`), one
/// without a line that begins with `<=` (`NoAnswer`).
pub fn read_expectations(alloc: Global, text: &[u8]) -> Result<Vec<ExpectedCase>, CaseFault>
    ensures { FindsCases (λ v. v.items) result (expected_cases_in text.now) }
{
    let lines = numbered(alloc, text)?;
    begun(lines.as_slice())?;
    let cases = cases_of(alloc, lines)?;
    checked(cases.as_slice())?;
    Ok(cases)
}
