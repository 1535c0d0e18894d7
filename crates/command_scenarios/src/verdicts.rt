//! What is said of a verdict in JSON: whether a trace is a run.
ghost use Rattle.std.specs.Prelude.{◌≡◌, [], IfOk};
ghost use Rattle.command_files.specs.Answers.{files_of};
ghost use Rattle.std.specs.String.{string_bytes};
ghost use Rattle.trace_json.specs.Notes.{verdict_json};
ghost use Rattle.trace_json.specs.Writing.{json_line};
ghost use Rattle.command_files.specs.Verdicts.{verdict_status};

use command_files::{Answer, verdict_status};
use fleet_core::Verdict;
use std::alloc::{AllocError, Global};
use trace_json::verdict_line;

/// The answer that a verdict is as an object in a line.
pub(crate) fn verdict_in_json<'a>(alloc: Global, verdict: Verdict) -> Result<Answer<'a>, AllocError>
    ensures text { IfOk result (λ a. string_bytes a.text ≡ json_line (verdict_json verdict)) }
    ensures status { IfOk result (λ a. a.status ≡ verdict_status verdict) }
    ensures made { IfOk result (λ a. files_of a.file ≡ []) }
{
    let text = verdict_line(alloc, verdict)?;
    Ok(Answer::printed(verdict_status(verdict), text))
}
