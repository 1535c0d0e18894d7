//! Cases that are judged for devices, one after another, and what is told of them.
ghost use Rattle.std.specs.Prelude.{◌≡◌, ◌<◌, ◌++◌, ◌∷◌, [], List, true, false, length, map, option_map, IfOk};
ghost use Rattle.std.specs.Prelude.{OnOk};
ghost use Rattle.scenario_image.specs.Scenario.{Scenario};
ghost use Rattle.expectations.specs.Arrivals.{arrivals_of, end_of_row};
ghost use Rattle.expectations.specs.Laying.{IsVerdict};
ghost use Rattle.test_reports.specs.Choice.{case_of_file};
ghost use Rattle.test_reports.specs.Told.{AreEach, told_difference};
ghost use Rattle.command_expect.specs.Choice.{CaseOfDevice, HasDevice, cases_of_device, cases_of_devices, devices_of};
ghost use Rattle.command_expect.specs.Choice.{devices_to};
ghost use Rattle.command_expect.specs.Told.{IsToldOn, difference_at, missed_line};

use expectations::{ExpectedCase, Verdict, arrivals_of, end_of_row, judge};
use scenario_image::Scenario;
use std::alloc::{AllocError, Global};
use test_reports::{CaseReport, ChosenCase, Difference, Instead, line_at};

/// Whether the scenario has the device that is asked for.
pub(crate) fn has_device(scenario: &Scenario, device: Option<u16>) -> bool
    ensures has { result ≡ true → HasDevice device scenario.now }
    ensures lacks { result ≡ false → HasDevice device scenario.now → ⊥ }
{
    match device {
        None => true,
        Some(device) => usize::from(device) < scenario.rows(),
    }
}

/// The line of the file that is not met by this verdict on a case, if the case is not met.
fn missed_line(case: &ExpectedCase, verdict: Verdict) -> Option<usize>
    ensures { result ≡ missed_line case.now verdict }
{
    match verdict {
        Verdict::Met => None,
        Verdict::Missed { place } => match case.lines.as_slice().get(place) {
            Some(expectation) => Some(expectation.line),
            None => Some(case.line),
        },
    }
}

fn difference_at<'a>(
    chosen: &ChosenCase<'a, ExpectedCase>,
    line: Option<usize>,
) -> Option<Difference<'a>>
    ensures { option_map told_difference result ≡ difference_at (case_of_file chosen.now) line }
{
    match line {
        None => None,
        Some(line) => Some(Difference {
            line: line as u128,
            stated: line_at(chosen.text, line as u128),
            instead: Instead::Nothing,
        }),
    }
}

/// What is told of a case by the verdict on it for a device.
#[tactic(auto, using(crate::proofs::Judged::told))]
fn told<'a>(chosen: &ChosenCase<'a, ExpectedCase>, device: u16, verdict: Verdict) -> CaseReport<'a>
    ensures { (s : Scenario) → IsVerdict verdict chosen.now.case.now.lines (arrivals_of s device) (end_of_row s device)
        → IsToldOn s (device, case_of_file chosen.now) result }
{
    let line = missed_line(chosen.case, verdict);
    let difference = difference_at(chosen, line);
    CaseReport {
        file: chosen.file,
        path: chosen.path,
        title: chosen.case.title.as_str(),
        device: Some(device),
        difference,
    }
}

/// Adds what is told of a case.
fn add<'a>(all: &mut Vec<CaseReport<'a>>, report: CaseReport<'a>) -> Result<(), AllocError>
    ensures { OnOk result (all.new.items ≡ all.old.items ++ report.entry ∷ []) }
{
    all.push(report)?;
    Ok(())
}

/// Adds what is told of each of the cases for a device, in their order.
#[tactic(auto, using(crate::proofs::Judged::none_yet, crate::proofs::Judged::all_judged))]
fn judge_device<'a>(
    alloc: Global,
    all: &mut Vec<CaseReport<'a>>,
    cases: &[ChosenCase<'a, ExpectedCase>],
    scenario: &Scenario,
    device: u16,
) -> Result<(), AllocError>
    requires { device < length scenario.now.rows }
    ensures { (before : List CaseOfDevice) → AreEach (IsToldOn scenario.now) before all.old.items
        → OnOk result (AreEach (IsToldOn scenario.now)
        (before ++ cases_of_device (map case_of_file cases.now) device) all.new.items) }
{
    let arrivals = arrivals_of(alloc, scenario, device)?;
    let end = end_of_row(scenario, device);
    for chosen in cases {
        let verdict = judge(
            alloc,
            chosen.case.lines.as_slice(),
            arrivals.as_slice(),
            end,
        )?;
        add(all, told(chosen, device, verdict))?;
    }
    Ok(())
}

/// What is told of each of the cases for each device, in their order.
#[tactic(auto, using(crate::proofs::Judged::no_device))]
fn judge_devices<'a>(
    alloc: Global,
    cases: &[ChosenCase<'a, ExpectedCase>],
    scenario: &Scenario,
) -> Result<Vec<CaseReport<'a>>, AllocError>
    ensures { IfOk result (λ v. AreEach (IsToldOn scenario.now)
        (cases_of_devices (map case_of_file cases.now) (devices_to (length scenario.now.rows))) v.items) }
{
    let mut all = Vec::new(alloc);
    for device in 0..scenario.rows() {
        judge_device(alloc, &mut all, cases, scenario, device as u16)?;
    }
    Ok(all)
}

/// What is told of each of the cases for the device that is asked for, or for each device.
#[tactic(auto, using(crate::proofs::Judged::one_device))]
pub(crate) fn judge_all<'a>(
    alloc: Global,
    cases: &[ChosenCase<'a, ExpectedCase>],
    scenario: &Scenario,
    device: Option<u16>,
) -> Result<Vec<CaseReport<'a>>, AllocError>
    requires { HasDevice device scenario.now }
    ensures { IfOk result (λ v. AreEach (IsToldOn scenario.now)
        (cases_of_devices (map case_of_file cases.now) (devices_of device scenario.now)) v.items) }
{
    match device {
        None => judge_devices(alloc, cases, scenario),
        Some(device) => {
            let mut all = Vec::new(alloc);
            judge_device(alloc, &mut all, cases, scenario, device)?;
            Ok(all)
        }
    }
}
