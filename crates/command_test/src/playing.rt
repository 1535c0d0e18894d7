//! Cases that are played, one after another, and what is told of them.
ghost use Rattle.std.specs.Prelude.{◌≡◌, ◌++◌, ◌∷◌, [], map, option_map, IfOk, OnOk};
ghost use Rattle.test_reports.specs.Choice.{case_of_file};
ghost use Rattle.test_reports.specs.Told.{AreEach, told_difference};
ghost use Rattle.command_test.specs.Came.{answers_of, said};
ghost use Rattle.command_test.specs.Stated.{sent_at};
ghost use Rattle.command_test.specs.Told.{IsToldOf, difference_by, differs_at};
ghost use Rattle.test_reports.specs.declared.instead.Instead.TheVariants as tells;

use crate::came::{answers_of, said};
use crate::sending::sent_at;
use case_play::{Came, Verdict, judge};
use case_text::Case;
use lwm2m_values::Text;
use std::alloc::{AllocError, Global};
use test_reports::{CaseReport, ChosenCase, Difference, Instead, line_at};

/// What the datagram says that a line of a case states, if it states one.
fn said_of(alloc: Global, case: &Case, line: usize) -> Result<Option<Text>, AllocError>
    ensures { IfOk result (λ o. o ≡ option_map said (sent_at case.now line)) }
{
    match sent_at(alloc, case, line)? {
        Some(bytes) => Ok(Some(said(alloc, bytes.as_slice())?)),
        None => Ok(None),
    }
}

/// What is told of a case that differs in this line of its file.
fn differs_at<'a>(chosen: &ChosenCase<'a, Case>, line: u128, instead: Instead) -> Difference<'a>
    ensures { told_difference result ≡ differs_at (case_of_file chosen.now) line instead }
{
    Difference {
        line,
        stated: line_at(chosen.text, line),
        instead,
    }
}

fn came_instead(alloc: Global, case: &Case, line: usize, came: &Came) -> Result<Instead, AllocError>
    ensures { IfOk result (λ i. i ≡ tells.Came (option_map said (sent_at case.now line)) (answers_of came.now)) }
{
    let sent = said_of(alloc, case, line)?;
    let answers = answers_of(alloc, came)?;
    Ok(Instead::Came { sent, answers })
}

/// What differs by the verdict on a case, if it does not pass.
fn difference_by<'a>(
    alloc: Global,
    chosen: &ChosenCase<'a, Case>,
    verdict: &Verdict,
) -> Result<Option<Difference<'a>>, AllocError>
    ensures { IfOk result (λ o. option_map told_difference o
        ≡ difference_by (case_of_file chosen.now) verdict.now) }
{
    match verdict {
        Verdict::Passes => Ok(None),
        Verdict::Differs { line, came } => {
            let instead = came_instead(alloc, chosen.case, *line, came)?;
            Ok(Some(differs_at(chosen, *line as u128, instead)))
        }
        Verdict::Refused { line, cause } => {
            let instead = Instead::Refused {
                line: *line,
                cause: *cause,
            };
            let line = chosen.case.line() as u128 + *line as u128;
            Ok(Some(differs_at(chosen, line, instead)))
        }
    }
}

/// What is told of a case, which is played.
#[tactic(auto, using(crate::proofs::Played::told))]
fn played<'a>(alloc: Global, chosen: &ChosenCase<'a, Case>) -> Result<CaseReport<'a>, AllocError>
    ensures { IfOk result (IsToldOf (case_of_file chosen.now)) }
{
    let verdict = judge(alloc, chosen.case)?;
    let difference = difference_by(alloc, chosen, &verdict)?;
    Ok(CaseReport {
        file: chosen.file,
        path: chosen.path,
        title: chosen.case.title().as_str(),
        device: None,
        difference,
    })
}

fn add<'a>(all: &mut Vec<CaseReport<'a>>, report: CaseReport<'a>) -> Result<(), AllocError>
    ensures { OnOk result (all.new.items ≡ all.old.items ++ report.entry ∷ []) }
{
    all.push(report)?;
    Ok(())
}

/// What is told of each of the cases, in their order.
#[tactic(auto, using(crate::proofs::Played::none_yet, crate::proofs::Played::all_played))]
pub fn play<'a>(
    alloc: Global,
    cases: &[ChosenCase<'a, Case>],
) -> Result<Vec<CaseReport<'a>>, AllocError>
    ensures { IfOk result (λ v. AreEach IsToldOf (map case_of_file cases.now) v.items) }
{
    let mut all = Vec::new(alloc);
    for chosen in cases {
        let report = played(alloc, chosen)?;
        add(&mut all, report)?;
    }
    Ok(all)
}
