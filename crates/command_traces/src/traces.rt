//! What the program answers to its words about the trace of a run: `show` and `pcap`. Where the trace is not a run, the
//! answer is that of `check`.
ghost use Rattle.std.specs.Prelude.{◌≡◌, IfErr, IfNone, IfOk, IfSome, List, OnOk};
ghost use Rattle.std.specs.String.{string_bytes};
ghost use Rattle.fleet_core.specs.Run.{IsRun};
ghost use Rattle.fleet_core.specs.Verdict.{BreaksAt};
ghost use Rattle.scenario_image.specs.Scenario.{Scenario as ScenarioData};
ghost use Rattle.trace_file.specs.declared.entry.Entry.{Entry as EntryData};
ghost use Rattle.trace_text.specs.Selection.{IsSelectable, IsSelectionFault};
ghost use Rattle.command_traces.specs.Traces.{IsCapturedAs, IsNoRun, IsNoRunIn, IsPcapDone, IsPcapFault};
ghost use Rattle.command_traces.specs.Traces.{IsPcapRefused, IsRunCaptured, IsRunShown, IsShowDone, IsShowFault};
ghost use Rattle.command_traces.specs.Traces.{IsShowRefused, IsShownAs, IsShownIn, packets_line, pcap_fault};

use crate::form::TraceForm;
use command_files::files::Files;
use command_files::{Answer, Fault, NewFile, Refusal, Status, load_scenario, load_trace, no_run};
use command_texts::selection_fault;
use fleet_core::{Verdict, check};
use scenario_image::Scenario;
use std::alloc::{AllocError, Global};
use trace_file::Entry;
use trace_json::{selected_lines, verdict_line};
use trace_pcap::{PcapFault, packet_count, trace_pcap};
use trace_reasons::{reasoned_lines, selected_reasons};
use trace_text::{Selection, SelectionFault, selected_text};

/// The answer that entries are not a run; none where they are one.
#[tactic(auto, using(crate::proofs::Traced::no_run))]
fn answer_no_run<'a>(
    alloc: Global,
    scenario: &Scenario,
    entries: &[Entry],
) -> Result<Option<Answer<'a>>, AllocError>
    ensures no_run { IfOk result (λ o. IfSome o (IsNoRun scenario.now entries.now)) }
    ensures run { IfOk result (λ o. IfNone o (IsRun scenario.now entries.now)) }
{
    match check(alloc, scenario, entries)? {
        Verdict::Run => Ok(None),
        Verdict::NotRun(place) => Ok(Some(no_run(alloc, place)?)),
    }
}

/// `show IMAGE TRACE [--device N] [--from N] [--to N] [--json] [--why]`: those entries of a run that are asked for, as
/// text or as JSON Lines, either with reasons or without.
#[tactic(auto, using(crate::proofs::Traced::shown_at, crate::proofs::Traced::unshown_at, crate::proofs::Traced::unshown_image, crate::proofs::Traced::unshown_trace))]
pub fn show<'a, F: Files>(
    alloc: Global,
    image: &'a str,
    trace: &'a str,
    form: TraceForm,
    selection: Selection,
    files: &F,
) -> Result<Answer<'a>, Refusal<'a>>
    ensures done { IfOk result (IsShowDone (F.holds files.now)
        (record { image = image.entry.now; trace = trace.entry.now }) form selection) }
    ensures refused { IfErr result (λ r. IsShowRefused (F.holds files.now) (F.fails files.now)
        (record { image = image.entry.now; trace = trace.entry.now }) selection r.fault) }
{
    let scenario = load_scenario(alloc, image, files)?;
    let entries = load_trace(alloc, trace, files)?;
    Ok(show_trace(alloc, &scenario, entries.as_slice(), form, selection)?)
}

#[tactic(auto, using(crate::proofs::Traced::unshown_run, crate::proofs::Traced::shown_run, crate::proofs::Traced::unshown_memory))]
fn show_trace<'a>(
    alloc: Global,
    scenario: &Scenario,
    entries: &[Entry],
    form: TraceForm,
    selection: Selection,
) -> Result<Answer<'a>, Fault>
    ensures done { IfOk result (λ a. IsShownAs form selection a scenario.now entries.now) }
    ensures refused { IfErr result (λ f. IsShowFault selection f scenario.now entries.now) }
{
    match check(alloc, scenario, entries)? {
        Verdict::Run => show_run(alloc, scenario, entries, form, selection),
        Verdict::NotRun(place) => Ok(show_no_run(alloc, form, place)?),
    }
}

/// The answer that entries are not a run, from this one on, in this form.
#[tactic(auto, using(crate::proofs::Traced::no_run, crate::proofs::Traced::no_run_in_json, crate::proofs::Traced::no_run_with_reasons))]
fn show_no_run<'a>(alloc: Global, form: TraceForm, place: usize) -> Result<Answer<'a>, AllocError>
    ensures { (s : ScenarioData) (es : List EntryData) → BreaksAt s es place → IfOk result (IsNoRunIn form s es) }
{
    match form {
        TraceForm::Text => no_run(alloc, place),
        TraceForm::Reasons => no_run(alloc, place),
        TraceForm::JsonLines | TraceForm::ReasonedLines => {
            let text = verdict_line(alloc, Verdict::NotRun(place))?;
            Ok(Answer::printed(Status::NotRun, text))
        }
    }
}

#[tactic(auto, using(crate::proofs::Traced::run_shown, crate::proofs::Traced::unselected))]
fn show_run<'a>(
    alloc: Global,
    scenario: &Scenario,
    entries: &[Entry],
    form: TraceForm,
    selection: Selection,
) -> Result<Answer<'a>, Fault>
    requires { IsRun scenario.now entries.now }
    ensures done { IfOk result (IsRunShown form selection scenario.now entries.now) }
    ensures refused { IfErr result (λ f. IsShowFault selection f scenario.now entries.now) }
{
    match shown(alloc, scenario, entries, form, selection) {
        Ok(text) => Ok(Answer::printed(Status::Done, text)),
        Err(fault) => Err(selection_fault(fault)),
    }
}

/// The entries that are asked for, in this form.
#[tactic(auto, using(crate::proofs::Traced::lines_are))]
fn shown(
    alloc: Global,
    scenario: &Scenario,
    entries: &[Entry],
    form: TraceForm,
    selection: Selection,
) -> Result<String, SelectionFault>
    requires { IsRun scenario.now entries.now }
    ensures selectable { OnOk result (IsSelectable scenario.now selection entries.now) }
    ensures text { IfOk result (λ t. IsShownIn form scenario.now selection entries.now (string_bytes t)) }
    ensures refused { IfErr result (IsSelectionFault scenario.now selection entries.now) }
{
    match form {
        TraceForm::Text => selected_text(alloc, scenario, entries, selection),
        TraceForm::Reasons => selected_reasons(alloc, scenario, entries, selection),
        TraceForm::JsonLines => selected_lines(alloc, scenario, entries, selection),
        TraceForm::ReasonedLines => reasoned_lines(alloc, scenario, entries, selection),
    }
}

/// `pcap IMAGE TRACE OUT`: the datagrams of a run, as a capture of packets that goes to OUT.
#[tactic(auto, using(crate::proofs::Traced::captured_at, crate::proofs::Traced::uncaptured_at, crate::proofs::Traced::uncaptured_image, crate::proofs::Traced::uncaptured_trace))]
pub fn pcap<'a, F: Files>(
    alloc: Global,
    image: &'a str,
    trace: &'a str,
    output: &'a str,
    files: &F,
) -> Result<Answer<'a>, Refusal<'a>>
    ensures done { IfOk result (IsPcapDone (F.holds files.now)
        (record { image = image.entry.now; trace = trace.entry.now }) output.entry.now) }
    ensures refused { IfErr result (λ r. IsPcapRefused (F.holds files.now) (F.fails files.now)
        (record { image = image.entry.now; trace = trace.entry.now }) r.fault) }
{
    let scenario = load_scenario(alloc, image, files)?;
    let entries = load_trace(alloc, trace, files)?;
    Ok(capture_trace(alloc, &scenario, entries.as_slice(), output)?)
}

#[tactic(auto, using(crate::proofs::Traced::uncaptured_run, crate::proofs::Traced::captured_run, crate::proofs::Traced::uncaptured_memory))]
fn capture_trace<'a>(
    alloc: Global,
    scenario: &Scenario,
    entries: &[Entry],
    output: &'a str,
) -> Result<Answer<'a>, Fault>
    ensures done { IfOk result (λ a. IsCapturedAs output.entry.now a scenario.now entries.now) }
    ensures refused { IfErr result (λ f. IsPcapFault f scenario.now entries.now) }
{
    match answer_no_run(alloc, scenario, entries)? {
        Some(answer) => Ok(answer),
        None => capture_run(alloc, scenario, entries, output),
    }
}

#[tactic(auto, using(crate::proofs::Traced::run_captured, crate::proofs::Traced::unpacked, crate::proofs::Traced::uncaptured_memory))]
fn capture_run<'a>(
    alloc: Global,
    scenario: &Scenario,
    entries: &[Entry],
    output: &'a str,
) -> Result<Answer<'a>, Fault>
    requires { IsRun scenario.now entries.now }
    ensures done { IfOk result (IsRunCaptured output.entry.now scenario.now entries.now) }
    ensures refused { IfErr result (λ f. IsPcapFault f scenario.now entries.now) }
{
    let bytes = match trace_pcap(alloc, scenario, entries) {
        Ok(bytes) => bytes,
        Err(fault) => return Err(uncaptured(fault)),
    };
    let text = packets_line(alloc, packet_count(scenario, entries))?;
    Ok(Answer {
        status: Status::Done,
        text,
        file: Some(NewFile {
            path: output,
            bytes,
        }),
    })
}

/// The fault of entries that got no capture.
fn uncaptured(fault: PcapFault) -> Fault
    ensures { result ≡ pcap_fault fault }
{
    match fault {
        PcapFault::TooLong => Fault::TooLong,
        PcapFault::Memory => Fault::Memory,
    }
}

fn packets_line(alloc: Global, count: u128) -> Result<String, AllocError>
    ensures { IfOk result (λ text. string_bytes text ≡ packets_line count) }
{
    format!(in alloc; "ok {count} packets\n")
}
