//! What the program answers to `test --on`. Nothing is written or printed here.
ghost use Rattle.std.specs.Prelude.{◌≡◌, ◌≢◌, [], true, false, map, option_map, IfErr, IfOk, Some};
ghost use Rattle.command_files.specs.declared.fault.Fault.TheVariants.{NoDevice};
ghost use Rattle.command_expect.specs.Choice.{HasDevice, chosen_cases};
ghost use Rattle.command_expect.specs.Expect.{IsExpectDone, IsExpectFault, IsReportOn};

use crate::judging::{has_device, judge_all};
use command_files::files::Files;
use command_files::{Answer, Fault, Refusal, Why};
use command_sources::load_source;
use expectations::ExpectedCase;
use scenario_image::Scenario;
use std::alloc::{AllocError, Global};
use test_reports::{CaseFile, ReportForm, chosen_cases, no_such_case, read_files, report_answer};

/// `test FILE .. --on IMAGE`: whether servers send what the files expect, as the rows of the scenario IMAGE (image or
/// text) have it. Each case is judged for each device, or for the one that is asked for; with words, the cases whose
/// titles begin with them. What is printed is the report of the cases, or the same as TAP or as JSON Lines; a JUnit
/// report goes to a file besides, if it has a path. First a file of expectations is refused, then that no case is
/// chosen, then the scenario, then that it has no such device.
#[tactic(auto, using(crate::proofs::Built::expected, crate::proofs::Refused::unread, crate::proofs::Refused::unchosen, crate::proofs::Refused::no_source, crate::proofs::Refused::no_device, crate::proofs::Refused::memory))]
pub fn expect<'a, F: Files>(
    alloc: Global,
    paths: &[&'a str],
    image: &'a str,
    device: Option<u16>,
    only: Option<&'a str>,
    form: ReportForm,
    junit_path: Option<&'a str>,
    files: &F,
) -> Result<Answer<'a>, Refusal<'a>>
    ensures done { IfOk result (IsExpectDone (F.holds files.now) (map (λ p. p.now) paths.now) image.entry.now device
        (option_map (λ w. w.now) only.entry) form (option_map (λ p. p.now) junit_path.entry)) }
    ensures refused { IfErr result (λ r. IsExpectFault (F.holds files.now) (F.fails files.now)
        (map (λ p. p.now) paths.now) image.entry.now device (option_map (λ w. w.now) only.entry) r.fault) }
{
    let read = read_files::<F, ExpectedCase>(alloc, paths, files)?;
    if is_none_chosen(alloc, only, read.as_slice())? {
        return Err(no_such_case(only));
    }
    let scenario = load_source(alloc, image, files)?;
    if !has_device(&scenario, device) {
        return Err(no_device(image));
    }
    let answer = report_on(
        alloc,
        read.as_slice(),
        &scenario,
        device,
        only,
        form,
        junit_path,
    )?;
    Ok(answer)
}

/// Whether none of the cases of these files is chosen.
#[tactic(auto, using(crate::proofs::Built::some_chosen, crate::proofs::Built::none_chosen))]
fn is_none_chosen(
    alloc: Global,
    only: Option<&str>,
    files: &[CaseFile<'_, ExpectedCase>],
) -> Result<bool, AllocError>
    ensures none { IfOk result (λ b. b ≡ true → chosen_cases (option_map (λ w. w.now) only.entry) files.now ≡ []) }
    ensures some { IfOk result (λ b. b ≡ false → chosen_cases (option_map (λ w. w.now) only.entry) files.now ≢ []) }
{
    let chosen = chosen_cases(alloc, only, files)?;
    Ok(chosen.is_empty())
}

/// The refusal of a scenario that lacks the device that is asked for.
fn no_device<'a>(image: &'a str) -> Refusal<'a>
    ensures fault { result.fault ≡ NoDevice }
    ensures names_image { option_map (λ p. p.now) result.about ≡ Some image.entry.now }
{
    Refusal {
        fault: Fault::NoDevice,
        about: Some(image),
        why: Why::Known("the scenario has no such device"),
    }
}

/// The report on the cases of these files for the devices of a scenario, or for the one that is asked for; with words,
/// on the cases whose titles begin with them.
#[tactic(auto, using(crate::proofs::Built::reported))]
pub fn report_on<'a>(
    alloc: Global,
    files: &[CaseFile<'_, ExpectedCase>],
    scenario: &Scenario,
    device: Option<u16>,
    only: Option<&str>,
    form: ReportForm,
    junit_path: Option<&'a str>,
) -> Result<Answer<'a>, AllocError>
    requires { HasDevice device scenario.now }
    ensures { IfOk result (IsReportOn (option_map (λ w. w.now) only.entry) form
        (option_map (λ p. p.now) junit_path.entry) files.now device scenario.now) }
{
    let chosen = chosen_cases(alloc, only, files)?;
    let all = judge_all(alloc, chosen.as_slice(), scenario, device)?;
    report_answer(alloc, form, junit_path, files, all.as_slice())
}
