//! What is answered of cases: the report that is printed, the file that is made, and how the program then ends.
ghost use Rattle.std.specs.Prelude.{◌≡◌, option_map, IfOk};
ghost use Rattle.std.specs.String.{string_bytes};
ghost use Rattle.command_files.specs.Answers.{files_of};
ghost use Rattle.command_files.specs.declared.fault.Fault.TheVariants.{NoSuchCase};
ghost use Rattle.test_reports.specs.Answers.{IsReport, are_several, junit_files, printed_report, status_of};
ghost use Rattle.test_reports.specs.Report.{count_differing};

use crate::case_file::CaseFile;
use crate::case_report::CaseReport;
use crate::form::ReportForm;
use crate::in_json::json_report;
use crate::junit::junit_text;
use crate::report::{count_differing, report};
use crate::tap::tap_text;
use command_files::{Answer, Fault, NewFile, Refusal, Status, Why};
use octets::Bytes;
use std::alloc::{AllocError, Global};

/// Whether there is more than one file.
fn are_several<C: Drop>(files: &[CaseFile<'_, C>]) -> bool
    ensures { result ≡ are_several files.now }
{
    files.len() > 1
}

/// What is printed: the report, the form of TAP, or JSON Lines.
fn printed(
    alloc: Global,
    form: ReportForm,
    several: bool,
    all: &[CaseReport],
) -> Result<String, AllocError>
    ensures { IfOk result (λ text. string_bytes text ≡ printed_report form several all.now) }
{
    match form {
        ReportForm::Text => report(alloc, several, all),
        ReportForm::Tap => tap_text(alloc, all),
        ReportForm::JsonLines => json_report(alloc, all),
    }
}

/// The JUnit report, if it has a path.
fn junit_file<'a, C: Drop>(
    alloc: Global,
    path: Option<&'a str>,
    files: &[CaseFile<'_, C>],
    all: &[CaseReport],
) -> Result<Option<NewFile<'a>>, AllocError>
    ensures { IfOk result (λ file. files_of file
        ≡ junit_files (option_map (λ p. p.now) path.entry) files.now all.now) }
{
    let Some(path) = path else {
        return Ok(None);
    };
    let text = junit_text(alloc, are_several(files), files, all)?;
    Ok(Some(NewFile {
        path,
        bytes: Bytes::from_vec(text.into_bytes()),
    }))
}

/// How the program ends.
fn status_of(all: &[CaseReport]) -> Status
    ensures { result ≡ status_of (count_differing all.now) }
{
    match count_differing(all) {
        0 => Status::Done,
        _ => Status::NotRun,
    }
}

/// The report of cases of these files: the text in its form, the JUnit report, if it has a path, and the status.
#[tactic(auto, using(crate::proofs::Reported::reported))]
pub fn report_answer<'a, C: Drop>(
    alloc: Global,
    form: ReportForm,
    junit_path: Option<&'a str>,
    files: &[CaseFile<'_, C>],
    all: &[CaseReport],
) -> Result<Answer<'a>, AllocError>
    ensures { IfOk result (IsReport form (option_map (λ p. p.now) junit_path.entry) files.now all.now) }
{
    let text = printed(alloc, form, are_several(files), all)?;
    let file = junit_file(alloc, junit_path, files, all)?;
    Ok(Answer {
        status: status_of(all),
        text,
        file,
    })
}

/// The refusal of words with which no title begins.
pub fn no_such_case<'a>(only: Option<&'a str>) -> Refusal<'a>
    ensures fault { result.fault ≡ NoSuchCase }
    ensures about { option_map (λ w. w.now) result.about ≡ option_map (λ w. w.now) only.entry }
{
    Refusal {
        fault: Fault::NoSuchCase,
        about: only,
        why: Why::Named,
    }
}
