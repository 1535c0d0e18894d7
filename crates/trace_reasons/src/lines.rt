//! The lines of an entry.

ghost use Rattle.std.specs.Prelude.{◌≡◌, ◌+◌, ◌≤◌, ◌++◌, min, false, IfOk, OnOk};
ghost use Rattle.std.specs.String.{string_bytes};
ghost use Rattle.device_machine.specs.State.{Machine as FlatState, Shows};
ghost use Rattle.scenario_image.specs.Play.{is_step_refused};
ghost use Rattle.notification_reasons.specs.Text.{happening_line};
ghost use Rattle.trace_reasons.specs.Text.{AreHappeningsOf, AreReasonLines, count_of, entry_with, outputs_with};

use device_machine::{Device, Event, Output, Outputs};
use device_reasons::reason_line;
use notification_reasons::{Happening, happening_line, tick_happenings};
use scenario_image::Step;
use std::alloc::{AllocError, Global};
use trace_file::Entry;
use trace_text::{Transcript, put_outputs};

/// The lines why a device answers like that in a step: one if a datagram arrives, else none.
pub fn reason_lines(alloc: Global, device: &Device, step: &Step) -> Result<String, AllocError>
    ensures { (f : FlatState) → Shows device.now f
        → IfOk result (λ lines. AreReasonLines f step.now (string_bytes lines)) }
{
    match step {
        Step::Event(Event::Recv { server, bytes }) => {
            reason_line(alloc, device, *server, bytes.as_slice())
        }
        Step::Event(Event::Put { .. } | Event::Firmware(_) | Event::Tick(_))
        | Step::Post(_)
        | Step::Need(_, _) => Ok(String::new(alloc)),
    }
}

/// What happens to the observations of a device by themselves in a step that it does not refuse, and why: in a tick
/// alone.
pub(crate) fn step_happenings(
    alloc: Global,
    device: &Device,
    step: &Step,
) -> Result<Vec<Happening>, AllocError>
    requires { is_step_refused device.now step.now ≡ false }
    ensures { (f : FlatState) → Shows device.now f
        → IfOk result (λ happenings. AreHappeningsOf f step.now happenings.items) }
{
    match step {
        Step::Event(Event::Tick(seconds)) => tick_happenings(alloc, device, *seconds),
        Step::Event(Event::Recv { .. } | Event::Put { .. } | Event::Firmware(_))
        | Step::Post(_)
        | Step::Need(_, _) => Ok(Vec::new(alloc)),
    }
}

/// The place after the output that is for a happening, where this place stands before it.
fn place_after(place: usize, count: usize, happening: &Happening) -> usize
    requires { place ≤ count }
    ensures after { result ≡ min (place + count_of happening.now) count }
    ensures no_less { place ≤ result }
{
    if happening.reason.sends() && place < count {
        place + 1
    } else {
        place
    }
}

/// Writes the line of a happening.
fn put_happening(alloc: Global, out: &mut String, happening: &Happening) -> Result<(), AllocError>
    ensures { OnOk result (string_bytes out.new ≡ string_bytes out.old ++ happening_line happening.now) }
{
    let line = happening_line(alloc, happening)?;
    out.push_str(line.as_str())
}

/// Writes the lines of outputs and happenings, in their order: below the output that is for it that of a happening, or
/// alone.
fn put_outputs_with(
    alloc: Global,
    out: &mut String,
    outputs: &[Output],
    happenings: &[Happening],
) -> Result<(), AllocError>
    ensures { OnOk result (string_bytes out.new ≡ string_bytes out.old ++ outputs_with outputs.now happenings.now) }
{
    let count = outputs.len();
    let mut place: usize = 0;
    for happening in happenings {
        let after = place_after(place, count, happening);
        put_outputs(alloc, out, &outputs[place..after])?;
        put_happening(alloc, out, happening)?;
        place = after;
    }
    put_outputs(alloc, out, &outputs[place..])
}

/// The text of an entry, with these lines before its outputs, and those of these happenings among them.
pub(crate) fn entry_with(
    alloc: Global,
    transcript: &mut Transcript,
    number: usize,
    entry: &Entry,
    lines: &str,
    happenings: &[Happening],
) -> Result<String, AllocError>
    ensures text { IfOk result (λ t. string_bytes t
        ≡ entry_with transcript.old number entry.now lines.now happenings.now) }
    ensures same { transcript.new ≡ transcript.old }
{
    let silent = Entry {
        worker: entry.worker,
        device: entry.device,
        step: entry.step,
        outputs: Outputs::from_vec(Vec::new(alloc)),
    };
    let mut text = transcript.entry_text(number, &silent)?;
    text.push_str(lines)?;
    put_outputs_with(alloc, &mut text, entry.outputs.as_slice(), happenings)?;
    Ok(text)
}
