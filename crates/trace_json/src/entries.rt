//! The objects of a trace.

ghost use Rattle.std.specs.Prelude.{◌≡◌, ◌++◌, OnOk};
ghost use Rattle.trace_text.specs.Seconds.{second_at};
ghost use Rattle.trace_json.specs.Entries.{entry_json, head_json, step_fields};
ghost use Rattle.trace_json.specs.Json.{object_json};
ghost use Rattle.trace_json.specs.Writing.{Has64Bits, fields_tokens, tokens_of};

use crate::events::put_event;
use crate::members::{put_number, put_string};
use crate::outputs::put_outputs;
use crate::words::step_words;
use fleet_core::step_of;
use json::Writer;
use scenario_image::Scenario;
use std::alloc::{AllocError, Global};
use trace_file::Entry;

/// Writes the object that begins a trace.
#[tactic(auto, unfolding(crate::specs::Entries::head_json))]
pub(crate) fn put_head(out: &mut Writer, devices: usize, entries: usize) -> Result<(), AllocError>
    ensures adds { OnOk result (out.new.tokens ≡ out.old.tokens ++ tokens_of (head_json devices entries)) }
    ensures before { out.new.before ≡ out.old.before }
    ensures exact { Has64Bits (head_json devices entries) }
{
    out.begin_object()?;
    put_number(out, "version", 1)?;
    put_string(out, "kind", "trace")?;
    put_number(out, "devices", devices as u64)?;
    put_number(out, "entries", entries as u64)?;
    out.end_object()?;
    Ok(())
}

/// Writes the members of the step of an entry, of this number in its trace, with the second of its device before the
/// step.
pub(crate) fn put_step(
    alloc: Global,
    out: &mut Writer,
    scenario: &Scenario,
    number: usize,
    entry: &Entry,
    second: u32,
) -> Result<(), AllocError>
    requires { second ≡ second_at scenario.now entry.now.device entry.now.step }
    ensures adds { OnOk result
        (out.new.tokens ≡ out.old.tokens ++ fields_tokens (step_fields scenario.now number entry.now)) }
    ensures before { out.new.before ≡ out.old.before }
    ensures exact { OnOk result (Has64Bits (object_json (step_fields scenario.now number entry.now))) }
{
    let step = step_of(scenario, entry.device, entry.step);
    let words = step_words(alloc, step)?;
    put_number(out, "entry", number as u64)?;
    put_number(out, "worker", entry.worker as u64)?;
    put_number(out, "device", entry.device as u64)?;
    put_number(out, "step", entry.step as u64)?;
    put_number(out, "second", second as u64)?;
    put_string(out, "statement", words.as_str())?;
    out.key("event")?;
    put_event(alloc, out, step)?;
    Ok(())
}

/// Writes the object of an entry, of this number in its trace, with the second of its device before the step.
pub(crate) fn put_entry(
    alloc: Global,
    out: &mut Writer,
    scenario: &Scenario,
    number: usize,
    entry: &Entry,
    second: u32,
) -> Result<(), AllocError>
    requires { second ≡ second_at scenario.now entry.now.device entry.now.step }
    ensures adds { OnOk result
        (out.new.tokens ≡ out.old.tokens ++ tokens_of (entry_json scenario.now number entry.now)) }
    ensures before { out.new.before ≡ out.old.before }
    ensures exact { OnOk result (Has64Bits (entry_json scenario.now number entry.now)) }
{
    out.begin_object()?;
    put_step(alloc, out, scenario, number, entry, second)?;
    out.key("outputs")?;
    put_outputs(alloc, out, entry.outputs.as_slice())?;
    out.end_object()?;
    Ok(())
}
