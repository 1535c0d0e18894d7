//! The entries of a run in words, a line each.

ghost use Rattle.std.specs.Prelude.{◌≡◌, ◌++◌, IfOk, OnOk};
ghost use Rattle.std.specs.List.{flat_map};
ghost use Rattle.std.specs.String.{string_bytes};
ghost use Rattle.scenario_words.specs.Words.{ended_line};
ghost use Rattle.case_play.specs.EntryWords.{entries_in_words, entry_words, further_words, output_words};
ghost use Rattle.case_play.specs.EntryWords.{outputs_words};

use device_machine::{Output, act_name};
use scenario_words::hex_word;
use std::alloc::{AllocError, Global};
use trace_file::Entry;

/// Writes an output.
fn put_output(alloc: Global, out: &mut String, output: &Output) -> Result<(), AllocError>
    ensures { OnOk result (string_bytes out.new ≡ string_bytes out.old ++ output_words output.now) }
{
    match output {
        Output::Send { server, bytes } => {
            let hex = hex_word(alloc, bytes.as_slice())?;
            write!(out, "send {server} {hex}")
        }
        Output::Act(act) => {
            let name = act_name(*act);
            write!(out, "act {name}")
        }
    }
}

/// Writes an output after another one.
fn put_further(alloc: Global, out: &mut String, output: &Output) -> Result<(), AllocError>
    ensures { OnOk result (string_bytes out.new ≡ string_bytes out.old ++ further_words output.now) }
{
    out.push_str(", ")?;
    put_output(alloc, out, output)
}

/// Writes the outputs after the first one.
fn put_others(alloc: Global, out: &mut String, outputs: &[Output]) -> Result<(), AllocError>
    ensures { OnOk result (string_bytes out.new ≡ string_bytes out.old ++ flat_map further_words outputs.now) }
{
    for output in outputs {
        put_further(alloc, out, output)?;
    }
    Ok(())
}

/// Writes the outputs of a step.
fn put_outputs(alloc: Global, out: &mut String, outputs: &[Output]) -> Result<(), AllocError>
    ensures { OnOk result (string_bytes out.new ≡ string_bytes out.old ++ outputs_words outputs.now) }
{
    match outputs.split_first() {
        None => out.push_str("nothing"),
        Some((output, others)) => {
            put_output(alloc, out, output)?;
            put_others(alloc, out, others)
        }
    }
}

/// Writes the line of an entry.
fn put_entry(alloc: Global, out: &mut String, entry: &Entry) -> Result<(), AllocError>
    ensures { OnOk result (string_bytes out.new ≡ string_bytes out.old ++ ended_line (entry_words entry.now)) }
{
    let worker = entry.worker;
    let device = entry.device;
    let step = entry.step;
    write!(out, "worker {worker} device {device} step {step}: ")?;
    put_outputs(alloc, out, entry.outputs.as_slice())?;
    out.push('\n')
}

/// Entries in words, a line each: `worker 0 device 2 step 1: send 1 60840025, act reboot`, or `nothing` after the
/// colon.
pub fn entries_in_words(alloc: Global, entries: &[Entry]) -> Result<String, AllocError>
    ensures { IfOk result (λ words. string_bytes words ≡ entries_in_words entries.now) }
{
    let mut out = String::new(alloc);
    for entry in entries {
        put_entry(alloc, &mut out, entry)?;
    }
    Ok(out)
}
