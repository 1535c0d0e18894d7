//! The entries that are asked for as JSON Lines, with reasons.

ghost use Rattle.std.specs.Prelude.{◌≡◌, ◌+◌, ◌∷◌, ◌++◌, true, false, [], map, option_map, None, IsSome, IfErr, IfOk};
ghost use Rattle.std.specs.Prelude.{OnOk};
ghost use Rattle.std.specs.String.{string_bytes};
ghost use Rattle.device_machine.specs.State.{Machine as FlatState, Shows};
ghost use Rattle.device_machine.specs.declared.event.Event.TheVariants as event;
ghost use Rattle.fleet_core.specs.Board.{ShowsAfter};
ghost use Rattle.fleet_core.specs.Run.{IsRun, step_at};
ghost use Rattle.scenario_image.specs.Play.{is_step_refused};
ghost use Rattle.scenario_image.specs.declared.step.Step.TheVariants as step;
ghost use Rattle.trace_text.specs.Selection.{IsSelectable, IsSelectionFault};
ghost use Rattle.trace_json.specs.Reasons.{said_end};
ghost use Rattle.trace_reasons.specs.Text.{AreSelectedSaid};
ghost use Rattle.trace_reasons.specs.Objects.{AreReasonedLines, IsEntryLine, IsReasonedLine, IsSaidOfArrival, IsStepLine};
ghost use Rattle.trace_reasons.specs.Objects.{end_said, ends_said, said_with, sent_texts};

use crate::lines::step_happenings;
use crate::selection::{check, is_between, is_wanted};
use device_machine::{Device, Event};
use device_reasons::{arrival_reason, arrival_reason_text, arrival_rule};
use fleet_core::{make_step, start_devices, step_of};
use notification_reasons::{Happening, happening_text};
use object_defs::path_text;
use scenario_image::{Scenario, Step};
use std::alloc::{AllocError, Global};
use trace_file::Entry;
use trace_json::{JsonLines, SilentEnd, StepReasons, head_line};
use trace_text::{Selection, SelectionFault};

/// Adds why a datagram is sent, in words, if one is.
#[tactic(auto, using(crate::proofs::Saying::sent_more, crate::proofs::Saying::none_sent))]
fn put_sent(alloc: Global, words: &mut Vec<String>, happening: &Happening) -> Result<(), AllocError>
    ensures { OnOk result (map (λ w. string_bytes w) words.new.items
        ≡ map (λ w. string_bytes w) words.old.items ++ sent_texts (happening.now ∷ [])) }
{
    if happening.reason.sends() {
        let text = happening_text(alloc, happening)?;
        words.push(text)?;
    }
    Ok(())
}

/// Why each datagram is sent, in words.
fn sent_words(alloc: Global, happenings: &[Happening]) -> Result<Vec<String>, AllocError>
    ensures { IfOk result (λ v. map (λ w. string_bytes w) v.items ≡ sent_texts happenings.now) }
{
    let mut words = Vec::new(alloc);
    for happening in happenings {
        put_sent(alloc, &mut words, happening)?;
    }
    Ok(words)
}

/// What is said of an observation that ends without a datagram.
fn silent_end(alloc: Global, happening: &Happening) -> Result<SilentEnd, AllocError>
    ensures { IfOk result (λ e. said_end e ≡ end_said happening.now) }
{
    let path = path_text(alloc, happening.path)?;
    let why = happening_text(alloc, happening)?;
    Ok(SilentEnd {
        path,
        second: happening.second,
        why,
    })
}

/// Adds an observation, if it ends without a datagram.
#[tactic(auto, using(crate::proofs::Saying::ended_more, crate::proofs::Saying::none_ended))]
fn put_end(
    alloc: Global,
    ends: &mut Vec<SilentEnd>,
    happening: &Happening,
) -> Result<(), AllocError>
    ensures { OnOk result
        (map said_end ends.new.items ≡ map said_end ends.old.items ++ ends_said (happening.now ∷ [])) }
{
    if !happening.reason.sends() {
        let end = silent_end(alloc, happening)?;
        ends.push(end)?;
    }
    Ok(())
}

/// The observations that end without a datagram.
fn silent_ends(alloc: Global, happenings: &[Happening]) -> Result<Vec<SilentEnd>, AllocError>
    ensures { IfOk result (λ v. map said_end v.items ≡ ends_said happenings.now) }
{
    let mut ends = Vec::new(alloc);
    for happening in happenings {
        put_end(alloc, &mut ends, happening)?;
    }
    Ok(ends)
}

/// The line of an entry, with the rule and the reason of its step, and what happens in it.
fn line_with(
    alloc: Global,
    lines: &mut JsonLines<'_>,
    number: usize,
    entry: &Entry,
    rule: Option<u8>,
    why: Option<&str>,
    happenings: &[Happening],
) -> Result<String, AllocError>
    ensures line { IfOk result (λ t. IsReasonedLine lines.old number entry.now
        (said_with rule (option_map (λ x. x.now) why.entry) happenings.now) (string_bytes t)) }
    ensures same { lines.new ≡ lines.old }
{
    let sent = sent_words(alloc, happenings)?;
    let ended = silent_ends(alloc, happenings)?;
    let reasons = StepReasons {
        rule,
        why,
        sent: sent.as_slice(),
        ended: ended.as_slice(),
    };
    let line = lines.reasoned_line(number, entry, &reasons)?;
    Ok(line)
}

/// The line of an entry in whose step this datagram arrives.
fn arrival_line(
    alloc: Global,
    lines: &mut JsonLines<'_>,
    number: usize,
    entry: &Entry,
    device: &Device,
    server: u16,
    bytes: &[u8],
) -> Result<String, AllocError>
    ensures line { (f : FlatState) → Shows device.now f → IfOk result (λ t.
        IsStepLine lines.old number entry.now f (step.Event (event.Recv server bytes.now)) (string_bytes t)) }
    ensures same { lines.new ≡ lines.old }
{
    let reason = arrival_reason(alloc, device, server, bytes)?;
    let why = arrival_reason_text(alloc, &reason)?;
    let rule = arrival_rule(&reason);
    line_with(alloc, lines, number, entry, rule, Some(why.as_str()), &[])
}

/// The line of an entry in whose step no datagram arrives.
fn other_line(
    alloc: Global,
    lines: &mut JsonLines<'_>,
    number: usize,
    entry: &Entry,
    device: &Device,
    step: &Step,
) -> Result<String, AllocError>
    requires { is_step_refused device.now step.now ≡ false }
    ensures line { (f : FlatState) → Shows device.now f → IsSaidOfArrival f step.now None None
        → IfOk result (λ t. IsStepLine lines.old number entry.now f step.now (string_bytes t)) }
    ensures same { lines.new ≡ lines.old }
{
    let happenings = step_happenings(alloc, device, step)?;
    let below = happenings.as_slice();
    line_with(alloc, lines, number, entry, None, None, below)
}

/// The line of an entry whose step is this one, which the device has still to make.
fn step_line(
    alloc: Global,
    lines: &mut JsonLines<'_>,
    number: usize,
    entry: &Entry,
    device: &Device,
    step: &Step,
) -> Result<String, AllocError>
    requires { is_step_refused device.now step.now ≡ false }
    ensures line { (f : FlatState) → Shows device.now f
        → IfOk result (λ t. IsStepLine lines.old number entry.now f step.now (string_bytes t)) }
    ensures same { lines.new ≡ lines.old }
{
    match step {
        Step::Event(Event::Recv { server, bytes }) => {
            let bytes = bytes.as_slice();
            arrival_line(alloc, lines, number, entry, device, *server, bytes)
        }
        Step::Event(Event::Put { .. } | Event::Firmware(_) | Event::Tick(_))
        | Step::Post(_)
        | Step::Need(_, _) => other_line(alloc, lines, number, entry, device, step),
    }
}

/// Lets the device of an entry make its step, and returns the line of the entry with the reasons of the step, or
/// nothing where it is not asked for.
fn pass_line(
    alloc: Global,
    scenario: &Scenario,
    lines: &mut JsonLines<'_>,
    device: &mut Device,
    number: usize,
    entry: &Entry,
    is_shown: bool,
) -> Result<String, AllocError>
    requires scenario { lines.old ≡ scenario.now }
    requires stands { IsSome (step_at scenario.now entry.now.device entry.now.step) }
    requires shows { ShowsAfter scenario.now entry.now.device entry.now.step device.old }
    ensures shown { is_shown ≡ true → IfOk result (λ t. IsEntryLine scenario.now number entry.now (string_bytes t)) }
    ensures hidden { is_shown ≡ false → IfOk result (λ t. string_bytes t ≡ []) }
    ensures shows { OnOk result (ShowsAfter scenario.now entry.now.device (entry.now.step + 1) device.new) }
    ensures same { lines.new ≡ lines.old }
{
    // For the proof alone: a scenario whose rows are counted is known to be valid.
    let _known = scenario.rows();
    let Some(step) = step_of(scenario, entry.device, entry.step) else {
        unreachable!()
    };
    let text = if is_shown {
        step_line(alloc, lines, number, entry, device, step)?
    } else {
        String::new(alloc)
    };
    let _outputs = make_step(alloc, scenario, device, entry.device, entry.step, step)?;
    Ok(text)
}

/// The lines of the selected entries, which may be none. Beside the entries their devices make their steps.
fn lines_of(
    alloc: Global,
    scenario: &Scenario,
    entries: &[Entry],
    selection: Selection,
) -> Result<String, AllocError>
    requires { IsRun scenario.now entries.now }
    ensures { IfOk result (λ t.
        AreSelectedSaid (IsEntryLine scenario.now) selection entries.now (string_bytes t)) }
{
    let mut lines = JsonLines::new(alloc, scenario)?;
    let mut devices = start_devices(alloc, scenario)?;
    let mut out = String::new(alloc);
    for (number, entry) in entries.iter().enumerate() {
        if is_wanted(selection, entry.device) {
            let is_shown = is_between(selection, number);
            let device = &mut devices[usize::from(entry.device)];
            let line = pass_line(alloc, scenario, &mut lines, device, number, entry, is_shown)?;
            out.push_str(line.as_str())?;
        }
    }
    Ok(out)
}

/// The line that begins a trace, and the lines of those entries of a run that are of a device and have numbers from one
/// number to another, as `selected_lines` of `trace_json` has them, with the reasons that `selected_reasons` has as
/// text: why the device handles a datagram that arrives as it does, why it sends each that it sends by itself, and
/// which observations end without one; or the first of what the scenario and the trace do not have.
pub fn reasoned_lines(
    alloc: Global,
    scenario: &Scenario,
    entries: &[Entry],
    selection: Selection,
) -> Result<String, SelectionFault>
    requires { IsRun scenario.now entries.now }
    ensures selectable { OnOk result (IsSelectable scenario.now selection entries.now) }
    ensures lines { IfOk result (λ t. AreReasonedLines scenario.now selection entries.now (string_bytes t)) }
    ensures refused { IfErr result (IsSelectionFault scenario.now selection entries.now) }
{
    check(scenario, entries, selection)?;
    let mut text = head_line(alloc, scenario.rows(), entries.len())?;
    let lines = lines_of(alloc, scenario, entries, selection)?;
    text.push_str(lines.as_str())?;
    Ok(text)
}
