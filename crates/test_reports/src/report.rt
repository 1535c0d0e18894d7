//! Reports of cases as text.
ghost use Rattle.std.specs.Prelude.{◌≡◌, ◌++◌, codes, IfOk, OnOk};
ghost use Rattle.std.specs.Fmt.{decimal};
ghost use Rattle.std.specs.List.{flat_map};
ghost use Rattle.std.specs.String.{string_bytes};
ghost use Rattle.scenario_words.specs.Words.{ended_line};
ghost use Rattle.test_reports.specs.Report.{answer_lines, count_differing, count_line, device_title, difference};
ghost use Rattle.test_reports.specs.Report.{difference_lines, heading, instead_lines, line_words, report, says_line};
ghost use Rattle.test_reports.specs.Report.{title_of};

use crate::case_report::{CaseReport, Difference};
use crate::instead::{CameAnswer, Instead};
use lwm2m_values::Text;
use scenario_words::cause_words;
use std::alloc::{AllocError, Global};

fn device_title(alloc: Global, title: &str, device: u16) -> Result<String, AllocError>
    ensures { IfOk result (λ text. string_bytes text ≡ device_title title.now device) }
{
    format!(in alloc; "{title}, device {device}")
}

/// The title of a case, with the device that it was judged for, if there is one.
pub(crate) fn title_of(alloc: Global, case: &CaseReport) -> Result<String, AllocError>
    ensures { IfOk result (λ text. string_bytes text ≡ title_of case.now) }
{
    match case.device {
        None => String::from_str(alloc, case.title),
        Some(device) => device_title(alloc, case.title, device),
    }
}

/// Writes the title of a case; where the cases are those of several files, the path of its file before it.
fn put_heading(out: &mut String, several: bool, path: &str, title: &str) -> Result<(), AllocError>
    ensures { OnOk result (string_bytes out.new ≡ string_bytes out.old ++ heading several path.now title.now) }
{
    if several {
        out.push_str(path)?;
        out.push_str(": ")?;
        return out.push_str(title);
    }
    out.push_str(title)
}

/// The words for a line, and what is said of it.
fn after_line(alloc: Global, line: u128, words: &str) -> Result<String, AllocError>
    ensures { IfOk result (λ text. string_bytes text ≡ codes "line " ++ decimal line ++ codes ": " ++ words.now) }
{
    format!(in alloc; "line {line}: {words}")
}

/// The words for a line that differs, and why it is refused, if it is.
pub(crate) fn line_words(alloc: Global, line: u128, instead: &Instead) -> Result<String, AllocError>
    ensures { IfOk result (λ text. string_bytes text ≡ line_words line instead.now) }
{
    match instead {
        Instead::Refused { cause, .. } => after_line(alloc, line, cause_words(*cause)),
        Instead::Nothing | Instead::Came { .. } => format!(in alloc; "line {line}"),
    }
}

/// Writes the words for a line behind a title, and this line of the file.
fn put_placed(out: &mut String, words: &str, stated: &str) -> Result<(), AllocError>
    ensures { OnOk result (string_bytes out.new ≡ string_bytes out.old
        ++ (ended_line (codes ", " ++ words.now) ++ ended_line stated.now)) }
{
    write!(out, ", {words}\n{stated}\n")
}

/// Writes what a datagram says, if there is one.
fn put_says(out: &mut String, says: &Option<Text>) -> Result<(), AllocError>
    ensures { OnOk result (string_bytes out.new ≡ string_bytes out.old ++ says_line says.now) }
{
    match says {
        None => Ok(()),
        Some(words) => {
            out.push_str("    ")?;
            out.push_str(words.as_str())?;
            out.push('\n')
        }
    }
}

/// Writes an answer that came, and below a datagram what it says.
fn put_answer(out: &mut String, answer: &CameAnswer) -> Result<(), AllocError>
    ensures { OnOk result (string_bytes out.new ≡ string_bytes out.old ++ answer_lines answer.now) }
{
    out.push_str("came ")?;
    out.push_str(answer.words.as_str())?;
    out.push('\n')?;
    put_says(out, &answer.says)
}

fn put_answers(out: &mut String, answers: &[CameAnswer]) -> Result<(), AllocError>
    ensures { OnOk result (string_bytes out.new ≡ string_bytes out.old ++ flat_map answer_lines answers.now) }
{
    for answer in answers {
        put_answer(out, answer)?;
    }
    Ok(())
}

/// Writes what is told below the line that differs.
fn put_instead(out: &mut String, instead: &Instead) -> Result<(), AllocError>
    ensures { OnOk result (string_bytes out.new ≡ string_bytes out.old ++ instead_lines instead.now) }
{
    match instead {
        Instead::Came { sent, answers } => {
            put_says(out, sent)?;
            put_answers(out, answers.as_slice())
        }
        Instead::Nothing | Instead::Refused { .. } => Ok(()),
    }
}

fn put_lines(
    alloc: Global,
    out: &mut String,
    several: bool,
    case: &CaseReport,
    difference: &Difference,
) -> Result<(), AllocError>
    ensures { OnOk result (string_bytes out.new ≡ string_bytes out.old
        ++ difference_lines several case.now difference.now) }
{
    let title = title_of(alloc, case)?;
    let words = line_words(alloc, difference.line, &difference.instead)?;
    put_heading(out, several, case.path, title.as_str())?;
    put_placed(out, words.as_str(), difference.stated)?;
    put_instead(out, &difference.instead)
}

/// Writes what is printed of a case: nothing of one that does not differ.
fn put_difference(
    alloc: Global,
    out: &mut String,
    several: bool,
    case: &CaseReport,
) -> Result<(), AllocError>
    ensures { OnOk result (string_bytes out.new ≡ string_bytes out.old ++ difference several case.now) }
{
    match &case.difference {
        None => Ok(()),
        Some(difference) => put_lines(alloc, out, several, case, difference),
    }
}

/// What is printed of a case.
pub(crate) fn difference_text(
    alloc: Global,
    several: bool,
    case: &CaseReport,
) -> Result<String, AllocError>
    ensures { IfOk result (λ text. string_bytes text ≡ difference several case.now) }
{
    let mut text = String::new(alloc);
    put_difference(alloc, &mut text, several, case)?;
    Ok(text)
}

fn put_differences(
    alloc: Global,
    out: &mut String,
    several: bool,
    all: &[CaseReport],
) -> Result<(), AllocError>
    ensures { OnOk result (string_bytes out.new ≡ string_bytes out.old ++ flat_map (difference several) all.now) }
{
    for case in all {
        put_difference(alloc, out, several, case)?;
    }
    Ok(())
}

/// How many cases differ.
pub(crate) fn count_differing(all: &[CaseReport]) -> usize
    ensures { result ≡ count_differing all.now }
{
    all.iter().filter(|case| case.difference.is_some()).count()
}

/// Writes the line that counts cases.
fn put_count_line(out: &mut String, cases: usize, differing: usize) -> Result<(), AllocError>
    ensures { OnOk result (string_bytes out.new ≡ string_bytes out.old ++ count_line cases differing) }
{
    write!(out, "{cases} cases, {differing} differ\n")
}

/// What is printed of cases: those that differ, each with the line that does not hold and what came; and at the end how
/// many cases there are, and how many of them differ. `several` says that they are those of several files.
pub(crate) fn report(alloc: Global, several: bool, all: &[CaseReport]) -> Result<String, AllocError>
    ensures { IfOk result (λ text. string_bytes text ≡ report several all.now) }
{
    let mut out = String::new(alloc);
    put_differences(alloc, &mut out, several, all)?;
    put_count_line(&mut out, all.len(), count_differing(all))?;
    Ok(out)
}
