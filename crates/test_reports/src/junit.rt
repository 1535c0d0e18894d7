//! Reports of cases in the common dialect of JUnit XML.
ghost use Rattle.std.specs.Prelude.{◌≡◌, ◌++◌, filter, length, option_map, IfOk, OnOk};
ghost use Rattle.std.specs.Fmt.{decimal};
ghost use Rattle.std.specs.String.{string_bytes};
ghost use Rattle.test_reports.specs.Junit.{attribute, case_testcase, ending, failing_testcase, failure, failure_line};
ghost use Rattle.test_reports.specs.Junit.{fails_in_file, is_of_file, junit_text, passing_testcase, report_end};
ghost use Rattle.test_reports.specs.Junit.{report_head, suite, suite_cases, suite_end, suite_head, suites, testcase};
ghost use Rattle.test_reports.specs.Junit.{text_attribute, texts_of};

use crate::case_file::CaseFile;
use crate::case_report::{CaseReport, Difference};
use crate::escaping::{Escape, put_escaped};
use crate::report::{difference_text, line_words, title_of};
use std::alloc::{AllocError, Global};

/// What is said of a test case that fails.
#[derive(Clone, Copy)]
struct Failure<'a> {
    /// In short.
    message: &'a str,
    /// In full: what a report as text says.
    text: &'a str,
}

/// Writes what stands before all test suites.
fn put_report_head(out: &mut String) -> Result<(), AllocError>
    ensures { OnOk result (string_bytes out.new ≡ string_bytes out.old ++ report_head) }
{
    out.push_str("<?xml version=\"1.0\" encoding=\"UTF-8\"?>\n<testsuites>\n")
}

/// Writes what stands after all test suites.
fn put_report_end(out: &mut String) -> Result<(), AllocError>
    ensures { OnOk result (string_bytes out.new ≡ string_bytes out.old ++ report_end) }
{
    out.push_str("</testsuites>\n")
}

#[tactic(auto, unfolding(crate::specs::Junit::text_attribute, crate::specs::Junit::attribute))]
fn put_text_attribute(
    alloc: Global,
    out: &mut String,
    name: &str,
    text: &str,
) -> Result<(), AllocError>
    ensures { OnOk result (string_bytes out.new ≡ string_bytes out.old ++ text_attribute name.now text.now) }
{
    write!(out, " {name}=\"")?;
    put_escaped(alloc, out, Escape::Attribute, text)?;
    out.push('"')
}

#[tactic(auto, unfolding(crate::specs::Junit::attribute))]
fn put_number_attribute(out: &mut String, name: &str, number: usize) -> Result<(), AllocError>
    ensures { OnOk result (string_bytes out.new ≡ string_bytes out.old ++ attribute name.now (decimal number)) }
{
    write!(out, " {name}=\"{number}\"")
}

/// Writes the head of a test suite: its path, how many cases it has, and how many of them fail.
#[tactic(auto, unfolding(crate::specs::Junit::suite_head))]
fn put_suite_head(
    alloc: Global,
    out: &mut String,
    path: &str,
    tests: usize,
    failures: usize,
) -> Result<(), AllocError>
    ensures { OnOk result (string_bytes out.new ≡ string_bytes out.old ++ suite_head path.now tests failures) }
{
    out.push_str("<testsuite")?;
    put_text_attribute(alloc, out, "name", path)?;
    put_number_attribute(out, "tests", tests)?;
    put_number_attribute(out, "failures", failures)?;
    out.push_str(">\n")
}

/// Writes the end of a test suite.
fn put_suite_end(out: &mut String) -> Result<(), AllocError>
    ensures { OnOk result (string_bytes out.new ≡ string_bytes out.old ++ suite_end) }
{
    out.push_str("</testsuite>\n")
}

/// Writes a test case, with its file, its title and its failure if it has one.
#[tactic(auto, unfolding(crate::specs::Junit::testcase))]
fn put_testcase(
    alloc: Global,
    out: &mut String,
    path: &str,
    title: &str,
    failed: Option<Failure>,
) -> Result<(), AllocError>
    ensures { OnOk result (string_bytes out.new ≡ string_bytes out.old
        ++ testcase path.now title.now (option_map texts_of failed.entry)) }
{
    out.push_str("<testcase")?;
    put_text_attribute(alloc, out, "classname", path)?;
    put_text_attribute(alloc, out, "name", title)?;
    put_ending(alloc, out, failed)
}

fn put_ending(alloc: Global, out: &mut String, failed: Option<Failure>) -> Result<(), AllocError>
    ensures { OnOk result (string_bytes out.new ≡ string_bytes out.old ++ ending (option_map texts_of failed.entry)) }
{
    match failed {
        None => out.push_str("/>\n"),
        Some(failure) => put_failure(alloc, out, failure.message, failure.text),
    }
}

/// Writes the end of a test case that is a failure.
#[tactic(auto, unfolding(crate::specs::Junit::failure))]
fn put_failure(alloc: Global, out: &mut String, message: &str, text: &str) -> Result<(), AllocError>
    ensures { OnOk result (string_bytes out.new ≡ string_bytes out.old ++ failure message.now text.now) }
{
    out.push_str(">\n")?;
    put_failure_line(alloc, out, message, text)?;
    out.push_str("</testcase>\n")
}

#[tactic(auto, unfolding(crate::specs::Junit::failure_line))]
fn put_failure_line(
    alloc: Global,
    out: &mut String,
    message: &str,
    text: &str,
) -> Result<(), AllocError>
    ensures { OnOk result (string_bytes out.new ≡ string_bytes out.old ++ failure_line message.now text.now) }
{
    out.push_str("<failure")?;
    put_text_attribute(alloc, out, "message", message)?;
    out.push('>')?;
    put_escaped(alloc, out, Escape::Element, text)?;
    out.push_str("</failure>\n")
}

fn is_of_file(number: usize, case: &CaseReport) -> bool
    ensures { result ≡ is_of_file number case.now }
{
    case.file == number
}

fn fails_in_file(number: usize, case: &CaseReport) -> bool
    ensures { result ≡ fails_in_file number case.now }
{
    is_of_file(number, case) && case.difference.is_some()
}

fn count_of_file(number: usize, all: &[CaseReport]) -> usize
    ensures { result ≡ length (filter (is_of_file number) all.now) }
{
    all.iter().filter(|case| is_of_file(number, case)).count()
}

fn count_failures(number: usize, all: &[CaseReport]) -> usize
    ensures { result ≡ length (filter (fails_in_file number) all.now) }
{
    all.iter()
        .filter(|case| fails_in_file(number, case))
        .count()
}

/// Writes a test case that fails, with what the report says of it.
fn put_failing(
    alloc: Global,
    out: &mut String,
    several: bool,
    case: &CaseReport,
    difference: &Difference,
) -> Result<(), AllocError>
    ensures { OnOk result (string_bytes out.new ≡ string_bytes out.old
        ++ failing_testcase several case.now difference.now) }
{
    let title = title_of(alloc, case)?;
    let message = line_words(alloc, difference.line, &difference.instead)?;
    let text = difference_text(alloc, several, case)?;
    let failure = Failure {
        message: message.as_str(),
        text: text.as_str(),
    };
    put_testcase(alloc, out, case.path, title.as_str(), Some(failure))
}

fn put_passing(alloc: Global, out: &mut String, case: &CaseReport) -> Result<(), AllocError>
    ensures { OnOk result (string_bytes out.new ≡ string_bytes out.old ++ passing_testcase case.now) }
{
    let title = title_of(alloc, case)?;
    put_testcase(alloc, out, case.path, title.as_str(), None)
}

/// Writes a test case, which is a failure where it differs.
fn put_case(
    alloc: Global,
    out: &mut String,
    several: bool,
    case: &CaseReport,
) -> Result<(), AllocError>
    ensures { OnOk result (string_bytes out.new ≡ string_bytes out.old ++ case_testcase several case.now) }
{
    match &case.difference {
        None => put_passing(alloc, out, case),
        Some(difference) => put_failing(alloc, out, several, case, difference),
    }
}

#[tactic(auto, unfolding(crate::specs::Junit::suite_cases))]
fn put_suite_cases(
    alloc: Global,
    out: &mut String,
    several: bool,
    number: usize,
    all: &[CaseReport],
) -> Result<(), AllocError>
    ensures { OnOk result (string_bytes out.new ≡ string_bytes out.old ++ suite_cases several number all.now) }
{
    for case in all {
        if is_of_file(number, case) {
            put_case(alloc, out, several, case)?;
        }
    }
    Ok(())
}

#[tactic(auto, unfolding(crate::specs::Junit::suite))]
fn put_suite(
    alloc: Global,
    out: &mut String,
    several: bool,
    number: usize,
    path: &str,
    all: &[CaseReport],
) -> Result<(), AllocError>
    ensures { OnOk result (string_bytes out.new ≡ string_bytes out.old ++ suite several number path.now all.now) }
{
    put_suite_head(
        alloc,
        out,
        path,
        count_of_file(number, all),
        count_failures(number, all),
    )?;
    put_suite_cases(alloc, out, several, number, all)?;
    put_suite_end(out)
}

fn put_suites<C: Drop>(
    alloc: Global,
    out: &mut String,
    several: bool,
    files: &[CaseFile<'_, C>],
    all: &[CaseReport],
) -> Result<(), AllocError>
    ensures { OnOk result (string_bytes out.new ≡ string_bytes out.old ++ suites several 0 files.now all.now) }
{
    for (number, file) in files.iter().enumerate() {
        put_suite(alloc, out, several, number, file.path, all)?;
    }
    Ok(())
}

/// The report of cases: a test suite for each of the files. `several` says that there are several.
pub(crate) fn junit_text<C: Drop>(
    alloc: Global,
    several: bool,
    files: &[CaseFile<'_, C>],
    all: &[CaseReport],
) -> Result<String, AllocError>
    ensures { IfOk result (λ text. string_bytes text ≡ junit_text several files.now all.now) }
{
    let mut out = String::new(alloc);
    put_report_head(&mut out)?;
    put_suites(alloc, &mut out, several, files, all)?;
    put_report_end(&mut out)?;
    Ok(out)
}
