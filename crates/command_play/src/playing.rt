//! The serial run of a scenario, as text or JSON Lines.
ghost use Rattle.std.specs.Prelude.{◌≡◌, IfErr, IfOk, OnOk, length};
ghost use Rattle.std.specs.String.{string_bytes};
ghost use Rattle.fleet_core.specs.Run.{IsRun, IsSerial};
ghost use Rattle.fleet_core.specs.Waiting.{waiting_devices};
ghost use Rattle.trace_text.specs.Selection.{IsSelectable, IsSelectionFault};
ghost use Rattle.command_play.specs.Play.{IsPlayDone, IsPlayFault, IsPlayed, IsToldAs, IsUnplayed, ending};

use crate::form::PlayForm;
use command_files::files::Files;
use command_files::{Answer, Fault, Refusal, Status};
use command_sources::load_source;
use command_texts::{end_line, selection_fault};
use fleet_core::{run_serial, unfinished};
use scenario_image::Scenario;
use std::alloc::{AllocError, Global};
use trace_file::Entry;
use trace_json::{run_end_line, selected_lines};
use trace_reasons::{reasoned_lines, selected_reasons};
use trace_text::{Selection, SelectionFault, selected_text};

/// `play FILE [--device N] [--from N] [--to N] [--json] [--why]`: the serial run of the scenario of a file, whose text
/// or image the file is. Prints those entries that are asked for, as text or as JSON Lines, either with reasons or
/// without, and how the run ended; the status is 0 also where it stalled.
#[tactic(auto, using(crate::proofs::Played::played_at, crate::proofs::Played::refused_file, crate::proofs::Played::unplayed_at))]
pub fn play<'a, F: Files>(
    alloc: Global,
    path: &'a str,
    form: PlayForm,
    selection: Selection,
    files: &F,
) -> Result<Answer<'a>, Refusal<'a>>
    ensures done { IfOk result (IsPlayDone (F.holds files.now) path.entry.now form selection) }
    ensures refused { IfErr result (λ r.
        IsPlayFault (F.holds files.now) (F.fails files.now) path.entry.now selection r.fault) }
{
    let scenario = load_source(alloc, path, files)?;
    Ok(play_scenario(alloc, &scenario, form, selection)?)
}

/// The entries that are asked for, in this form.
#[tactic(auto, using(crate::proofs::Played::lines_are))]
fn told(
    alloc: Global,
    scenario: &Scenario,
    entries: &[Entry],
    form: PlayForm,
    selection: Selection,
) -> Result<String, SelectionFault>
    requires { IsRun scenario.now entries.now }
    ensures selectable { OnOk result (IsSelectable scenario.now selection entries.now) }
    ensures text { IfOk result (λ t. IsToldAs form scenario.now selection entries.now (string_bytes t)) }
    ensures refused { IfErr result (IsSelectionFault scenario.now selection entries.now) }
{
    match form {
        PlayForm::Text => selected_text(alloc, scenario, entries, selection),
        PlayForm::Reasons => selected_reasons(alloc, scenario, entries, selection),
        PlayForm::JsonLines => selected_lines(alloc, scenario, entries, selection),
        PlayForm::ReasonedLines => reasoned_lines(alloc, scenario, entries, selection),
    }
}

/// The entries that are asked for, of the serial run.
#[tactic(auto, using(crate::proofs::Played::unselected))]
fn shown(
    alloc: Global,
    scenario: &Scenario,
    entries: &[Entry],
    form: PlayForm,
    selection: Selection,
) -> Result<String, Fault>
    requires { IsSerial scenario.now entries.now }
    ensures selectable { IfOk result (λ _. IsSelectable scenario.now selection entries.now) }
    ensures text { IfOk result (λ t. IsToldAs form scenario.now selection entries.now (string_bytes t)) }
    ensures refused { IfErr result (IsUnplayed selection scenario.now) }
{
    match told(alloc, scenario, entries, form, selection) {
        Ok(text) => Ok(text),
        Err(fault) => Err(selection_fault(fault)),
    }
}

/// The line of how a run ended of `count` entries, after which the devices in `waiting` are not at the end of their
/// rows.
fn end_of(
    alloc: Global,
    form: PlayForm,
    count: usize,
    waiting: &[u16],
) -> Result<String, AllocError>
    ensures { IfOk result (λ t. string_bytes t ≡ ending form count waiting.now) }
{
    match form {
        PlayForm::Text | PlayForm::Reasons => end_line(alloc, count, waiting),
        PlayForm::JsonLines | PlayForm::ReasonedLines => run_end_line(alloc, count, waiting),
    }
}

/// The line of how a run ended that has these entries.
fn ended(
    alloc: Global,
    scenario: &Scenario,
    entries: &[Entry],
    form: PlayForm,
) -> Result<String, AllocError>
    ensures { IfOk result (λ t.
        string_bytes t ≡ ending form (length entries.now) (waiting_devices scenario.now entries.now)) }
{
    let waiting = unfinished(alloc, scenario, entries)?;
    end_of(alloc, form, entries.len(), waiting.as_slice())
}

/// The serial run of a scenario: the entries that are asked for, and how it ended.
#[tactic(auto, using(crate::proofs::Played::played, crate::proofs::Played::no_memory))]
fn play_scenario<'a>(
    alloc: Global,
    scenario: &Scenario,
    form: PlayForm,
    selection: Selection,
) -> Result<Answer<'a>, Fault>
    ensures done { IfOk result (IsPlayed form selection scenario.now) }
    ensures refused { IfErr result (IsUnplayed selection scenario.now) }
{
    let entries = run_serial(alloc, scenario)?;
    let mut text = shown(alloc, scenario, entries.as_slice(), form, selection)?;
    let end = ended(alloc, scenario, entries.as_slice(), form)?;
    text.push_str(end.as_str())?;
    Ok(Answer::printed(Status::Done, text))
}
