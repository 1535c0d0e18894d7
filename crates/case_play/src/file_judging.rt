//! The verdict on a case of a file, and on any case.

ghost use Rattle.std.specs.Prelude.{◌≡◌, false, List, IfOk};
ghost use Rattle.case_text.specs.declared.file_answer.FileAnswer.{FileAnswer as AnswerData};
ghost use Rattle.case_text.specs.declared.file_case.FileCase.{FileCase as CaseData};
ghost use Rattle.case_text.specs.declared.trial.Made.{Made as MadeData};
ghost use Rattle.case_play.specs.Answers.{is_line};
ghost use Rattle.case_play.specs.Trials.{IsInFirstWrong, IsRightOfEach};
ghost use Rattle.case_play.specs.Trying.{IsAnswerJudged, IsTrialVerdict};
ghost use Rattle.case_play.specs.Verdicts.{IsCaseVerdict, IsFileVerdict};

use crate::arrivals::came_of;
use crate::came::Came;
use crate::file_stating::is_line;
use crate::finding::Finding;
use crate::judging::judge_scenario;
use crate::looking::find;
use crate::trying::{first_file, first_wrong};
use crate::verdict::Verdict;
use case_text::{Case, FileAnswer, FileCase, Made, Trial};
use std::alloc::{AllocError, Global};

/// What came where an answer does not hold that is right of each file; none where it holds.
fn came_where_right(
    alloc: Global,
    case: &FileCase,
    made: &Made,
    answer: &FileAnswer,
) -> Result<Option<Came>, AllocError>
    ensures { IfOk result (λ r. (below : List AnswerData) → is_line answer.now.stated ≡ false
        → IsRightOfEach case.now made.now answer.now.stated below
        → IsAnswerJudged case.now made.now answer.now below r) }
{
    let Some(file) = first_file(alloc, case, made)? else {
        return Ok(Some(Came::Nowhere));
    };
    if !answer.must_not {
        return Ok(None);
    }
    let finding = find(alloc, case.kind, file.as_slice())?;
    Ok(Some(came_of(alloc, &answer.stated, &finding)?))
}

/// What came where an answer does not hold that is not right of a file, the first of which has this; none where it
/// holds.
fn came_where_wrong(
    alloc: Global,
    answer: &FileAnswer,
    finding: &Finding,
) -> Result<Option<Came>, AllocError>
    ensures { IfOk result (λ r. (case : CaseData) (made : MadeData) (below : List AnswerData)
        → is_line answer.now.stated ≡ false → IsInFirstWrong case made answer.now.stated below finding.now
        → IsAnswerJudged case made answer.now below r) }
{
    if answer.must_not {
        return Ok(None);
    }
    Ok(Some(came_of(alloc, &answer.stated, finding)?))
}

/// What came where an answer, above these others, does not hold; none where it does.
fn came_instead(
    alloc: Global,
    case: &FileCase,
    made: &Made,
    answer: &FileAnswer,
    below: &[FileAnswer],
) -> Result<Option<Came>, AllocError>
    ensures { IfOk result (λ r. IsAnswerJudged case.now made.now answer.now below.now r) }
{
    if is_line(&answer.stated) {
        return Ok(None);
    }
    match first_wrong(alloc, case, made, &answer.stated, below)? {
        None => came_where_right(alloc, case, made, answer),
        Some(finding) => came_where_wrong(alloc, answer, &finding),
    }
}

/// The verdict on one trial.
fn judge_trial(alloc: Global, case: &FileCase, trial: &Trial) -> Result<Verdict, AllocError>
    ensures { IfOk result (λ v. IsTrialVerdict case.now trial.now v) }
{
    let answers = trial.answers.as_slice();
    for (i, answer) in answers.iter().enumerate() {
        match came_instead(alloc, case, &trial.made, answer, &answers[i + 1..])? {
            None => {}
            Some(came) => {
                return Ok(Verdict::Differs {
                    line: answer.line,
                    came,
                });
            }
        }
    }
    Ok(Verdict::Passes)
}

/// The verdict on a case of a file: whether each answer holds of each file that it is about, and else the first line
/// that does not, and what came.
pub fn judge_file(alloc: Global, case: &FileCase) -> Result<Verdict, AllocError>
    ensures { IfOk result (λ v. IsFileVerdict case.now v) }
{
    for trial in case.trials.as_slice() {
        match judge_trial(alloc, case, trial)? {
            Verdict::Passes => {}
            verdict => return Ok(verdict),
        }
    }
    Ok(Verdict::Passes)
}

/// The verdict on a case.
pub fn judge(alloc: Global, case: &Case) -> Result<Verdict, AllocError>
    ensures { IfOk result (λ v. IsCaseVerdict case.now v) }
{
    match case {
        Case::Scenario(case) => judge_scenario(alloc, case),
        Case::File(case) => judge_file(alloc, case),
    }
}
