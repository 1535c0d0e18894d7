//! A session of several devices, and its verdict.
ghost use Rattle.std.specs.Prelude.{ℕ, ◌≡◌, IfErr, IfOk, List, option_map, option_to_list};
ghost use Rattle.command_files.specs.World.{known_by};
ghost use Rattle.command_line.specs.Words.{IsReadAs};
ghost use Rattle.expectations.specs.ExpectedCases.{expected_cases_in};
ghost use Rattle.test_reports.specs.Reading.{AreRead, IsRefusalOf};
ghost use Rattle.lwbench.specs.Command.{Came};
ghost use Rattle.lwbench.specs.Judged.{IsJudgedBy, IsUnjudgedBy, judged_status, verdict_form};

use command_expect::report_on;
use command_files::files::Files;
use command_files::{Refusal, Status, World, deliver};
use command_fleet::{Held, fleet};
use command_line::{Asked, AskedFleet};
use expectations::ExpectedCase;
use std::alloc::Global;
use std::net::Net;
use std::rt::Clock;
use test_reports::{CaseFile, ReportForm, read_files};

/// The file that says what servers have to send, if there is one.
fn read_goal<'a, F: Files>(
    alloc: Global,
    file: Option<&'a str>,
    files: &F,
) -> Result<Vec<CaseFile<'a, ExpectedCase>>, Refusal<'a>>
    ensures read { IfOk result (λ v. AreRead expected_cases_in (F.holds files.now)
        (option_to_list (option_map (λ p. p.now) file.entry)) v.items) }
    ensures refused { IfErr result (λ r. IsRefusalOf expected_cases_in (F.holds files.now) (F.fails files.now)
        (option_to_list (option_map (λ p. p.now) file.entry)) (option_map (λ p. p.now) r.about) r.fault) }
{
    match file {
        None => Ok(Vec::new(alloc)),
        Some(path) => read_files(alloc, &[path], files),
    }
}

/// The cases of the first of these files, if there is one.
fn cases_in<'b>(goal: &'b [CaseFile<'_, ExpectedCase>]) -> &'b [ExpectedCase] {
    match goal {
        [] => &[],
        [file, ..] => file.cases.as_slice(),
    }
}

/// How a verdict is told.
fn verdict_form(json: bool) -> ReportForm
    ensures { result ≡ verdict_form json }
{
    if json {
        ReportForm::JsonLines
    } else {
        ReportForm::Text
    }
}

/// The status of a session, and of its verdict.
fn judged_status(held: Status, verdict: Status) -> Status
    ensures { result ≡ judged_status held verdict }
{
    match held {
        Status::Done => verdict,
        _ => held,
    }
}

/// Judges a session of which this is left, where these files say what servers have to send, and tells the report.
fn judge<'a, W: World>(
    alloc: Global,
    goal: &[CaseFile<'a, ExpectedCase>],
    json: bool,
    junit: Option<&'a str>,
    held: Held,
    world: &mut W,
) -> Result<Status, Refusal<'a>>
    ensures judged { IfOk result (IsJudgedBy goal.now json (option_map (λ p. p.now) junit.entry) held.saved
        (W.seen world.old) (W.seen world.new) held.status) }
    ensures unjudged { IfErr result (λ r. IsUnjudgedBy W.refuses W.faults goal.now json
        (option_map (λ p. p.now) junit.entry) held.saved (W.seen world.old) (W.seen world.new) r.fault) }
    ensures none_read { (W.seen world.new).streams.input ≡ (W.seen world.old).streams.input }
{
    match (goal, held.saved) {
        ([_, ..], Some(saved)) => {
            let answer = report_on(alloc, goal, &saved, None, None, verdict_form(json), junit)?;
            let verdict = deliver(&answer, world)?;
            Ok(judged_status(held.status, verdict))
        }
        _ => Ok(held.status),
    }
}

/// Serves devices for a session, and judges it, if there is something that servers have to send.
#[tactic(none)]
pub(crate) fn answer_fleet<'a, R: Net + Clock + std::io::Input, W: World>(
    rt: &R,
    alloc: Global,
    asked: AskedFleet<'a>,
    terminal: bool,
    world: &mut W,
) -> Result<Status, Refusal<'a>>
    ensures { (words : List (List ℕ)) → IsReadAs words (Asked.Fleet asked.entry)
        → Came (known_by W.Files world.old) W.faults
        (W.seen world.old) (W.seen world.new) terminal words result }
{
    let json = asked.json;
    let verdict = asked.verdict;
    let goal = read_goal(alloc, verdict.file, world)?;
    let held = fleet(rt, alloc, asked, cases_in(goal.as_slice()), terminal, world)?;
    judge(alloc, goal.as_slice(), json, verdict.junit, held, world)
}
