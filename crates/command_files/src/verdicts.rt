//! What is said of a verdict: whether a trace is a run.
ghost use Rattle.std.specs.Prelude.{◌≡◌, [], IfOk};
ghost use Rattle.std.specs.String.{string_bytes};
ghost use Rattle.command_files.specs.Answers.{files_of};
ghost use Rattle.command_files.specs.Verdicts.{verdict_line, verdict_status};

use crate::answer::Answer;
use crate::status::Status;
use fleet_core::Verdict;
use std::alloc::{AllocError, Global};

/// The answer that entries are not a run, from this one on.
pub fn no_run<'a>(alloc: Global, place: usize) -> Result<Answer<'a>, AllocError>
    ensures text { IfOk result (λ a. string_bytes a.text ≡ verdict_line (Verdict.NotRun place)) }
    ensures status { IfOk result (λ a. a.status ≡ verdict_status (Verdict.NotRun place)) }
    ensures made { IfOk result (λ a. files_of a.file ≡ []) }
{
    verdict_answer(alloc, Verdict::NotRun(place))
}

/// The answer that a verdict is: its line, and how the program ends.
pub fn verdict_answer<'a>(alloc: Global, verdict: Verdict) -> Result<Answer<'a>, AllocError>
    ensures text { IfOk result (λ a. string_bytes a.text ≡ verdict_line verdict) }
    ensures status { IfOk result (λ a. a.status ≡ verdict_status verdict) }
    ensures made { IfOk result (λ a. files_of a.file ≡ []) }
{
    let text = verdict_line(alloc, verdict)?;
    Ok(Answer::printed(verdict_status(verdict), text))
}

/// How the program ends with a verdict.
pub fn verdict_status(verdict: Verdict) -> Status
    ensures { result ≡ verdict_status verdict }
{
    match verdict {
        Verdict::Run => Status::Done,
        Verdict::NotRun(_) => Status::NotRun,
    }
}

fn verdict_line(alloc: Global, verdict: Verdict) -> Result<String, AllocError>
    ensures { IfOk result (λ text. string_bytes text ≡ verdict_line verdict) }
{
    match verdict {
        Verdict::Run => String::from_str(alloc, "run\n"),
        Verdict::NotRun(place) => format!(in alloc; "not a run at {place}\n"),
    }
}
