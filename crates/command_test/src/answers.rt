//! What the program answers to `test`. Nothing is written or printed here: a file that is only borrowed cannot be.
ghost use Rattle.std.specs.Prelude.{◌≡◌, map, option_map, IfErr, IfOk};
ghost use Rattle.std.specs.String.{string_bytes};
ghost use Rattle.test_reports.specs.Choice.{case_of_file};
ghost use Rattle.command_test.specs.Jobs.{IsTestDone, IsTestFault, IsTitlesDone, titles_text};

use crate::playing::play;
use case_text::Case;
use command_files::files::Files;
use command_files::{Answer, Refusal, Status};
use std::alloc::{AllocError, Global};
use test_reports::{ChosenCase, ReportForm, chosen_cases, no_such_case, read_files, report_answer};

/// The titles of cases, a line for each.
fn titles_text(alloc: Global, cases: &[ChosenCase<'_, Case>]) -> Result<String, AllocError>
    ensures { IfOk result (λ text. string_bytes text ≡ titles_text (map case_of_file cases.now)) }
{
    let mut out = String::new(alloc);
    for chosen in cases {
        out.push_str(chosen.case.title().as_str())?;
        out.push('\n')?;
    }
    Ok(out)
}

/// `test FILE .. --list`: the titles of the cases; with words, of those whose titles begin with them. It is a fault if
/// there are none.
#[tactic(auto, using(crate::proofs::Built::listed, crate::proofs::Faults::unread, crate::proofs::Faults::unchosen, crate::proofs::Faults::memory))]
pub fn titles<'a, F: Files>(
    alloc: Global,
    paths: &[&'a str],
    only: Option<&'a str>,
    files: &F,
) -> Result<Answer<'a>, Refusal<'a>>
    ensures done { IfOk result (IsTitlesDone (F.holds files.now) (map (λ p. p.now) paths.now)
        (option_map (λ w. w.now) only.entry)) }
    ensures refused { IfErr result (λ r. IsTestFault (F.holds files.now) (F.fails files.now)
        (map (λ p. p.now) paths.now) (option_map (λ w. w.now) only.entry) r.fault) }
{
    let read = read_files::<F, Case>(alloc, paths, files)?;
    let chosen = chosen_cases(alloc, only, read.as_slice())?;
    let cases = chosen.as_slice();
    if cases.is_empty() {
        return Err(no_such_case(only));
    }
    let text = titles_text(alloc, cases)?;
    Ok(Answer::printed(Status::Done, text))
}

/// `test FILE ..`: the report of the cases, each of which is played, or the same as TAP or as JSON Lines; with words,
/// of those whose titles begin with them. It is a fault if there are none. A JUnit report goes to a file besides, if it
/// has a path.
#[tactic(auto, using(crate::proofs::Built::tested, crate::proofs::Faults::unread, crate::proofs::Faults::unchosen, crate::proofs::Faults::memory))]
pub fn test<'a, F: Files>(
    alloc: Global,
    paths: &[&'a str],
    only: Option<&'a str>,
    form: ReportForm,
    junit_path: Option<&'a str>,
    files: &F,
) -> Result<Answer<'a>, Refusal<'a>>
    ensures done { IfOk result (IsTestDone (F.holds files.now) (map (λ p. p.now) paths.now)
        (option_map (λ w. w.now) only.entry) form (option_map (λ p. p.now) junit_path.entry)) }
    ensures refused { IfErr result (λ r. IsTestFault (F.holds files.now) (F.fails files.now)
        (map (λ p. p.now) paths.now) (option_map (λ w. w.now) only.entry) r.fault) }
{
    let read = read_files::<F, Case>(alloc, paths, files)?;
    let chosen = chosen_cases(alloc, only, read.as_slice())?;
    let cases = chosen.as_slice();
    if cases.is_empty() {
        return Err(no_such_case(only));
    }
    let all = play(alloc, cases)?;
    let answer = report_answer(alloc, form, junit_path, read.as_slice(), all.as_slice())?;
    Ok(answer)
}
