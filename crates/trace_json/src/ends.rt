//! The lines of what is answered of a run at its end, and of one datagram.

ghost use Rattle.std.specs.Prelude.{◌≡◌, ◌++◌, IfOk, OnOk, map};
ghost use Rattle.std.specs.String.{string_bytes};
ghost use Rattle.trace_json.specs.Answers.{done_json, end_json, one_json, stalled_json};
ghost use Rattle.trace_json.specs.Json.{list_json, number_json};
ghost use Rattle.trace_json.specs.Writing.{Has64Bits, IsReadAgain, json_line, tokens_of};

use crate::lines::{end_line, text_of};
use crate::members::{put_number, put_string};
use crate::outputs::put_outputs;
use device_machine::Output;
use json::Writer;
use std::alloc::{AllocError, Global};

/// Writes a number of an array.
fn put_item(out: &mut Writer, number: u64) -> Result<(), AllocError>
    ensures adds { OnOk result (out.new.tokens ≡ out.old.tokens ++ tokens_of (number_json number)) }
    ensures before { out.new.before ≡ out.old.before }
    ensures exact { Has64Bits (number_json number) }
{
    out.u64(number)
}

/// Writes the array of the numbers of devices, in their order.
fn put_devices(out: &mut Writer, devices: &[u16]) -> Result<(), AllocError>
    ensures adds { OnOk result
        (out.new.tokens ≡ out.old.tokens ++ tokens_of (list_json (map number_json devices.now))) }
    ensures before { out.new.before ≡ out.old.before }
    ensures exact { OnOk result (Has64Bits (list_json (map number_json devices.now))) }
{
    out.begin_array()?;
    for device in devices {
        put_item(out, *device as u64)?;
    }
    out.end_array()?;
    Ok(())
}

/// Writes that a run is done.
#[tactic(auto, unfolding(crate::specs::Answers::done_json))]
fn put_done(out: &mut Writer, count: usize) -> Result<(), AllocError>
    ensures adds { OnOk result (out.new.tokens ≡ out.old.tokens ++ tokens_of (done_json count)) }
    ensures before { out.new.before ≡ out.old.before }
    ensures exact { Has64Bits (done_json count) }
{
    out.begin_object()?;
    put_string(out, "end", "done")?;
    put_number(out, "entries", count as u64)?;
    out.end_object()?;
    Ok(())
}

/// Writes that a run stalled, and which devices wait.
#[tactic(auto, unfolding(crate::specs::Answers::stalled_json))]
fn put_stalled(out: &mut Writer, count: usize, waiting: &[u16]) -> Result<(), AllocError>
    ensures adds { OnOk result (out.new.tokens ≡ out.old.tokens ++ tokens_of (stalled_json count waiting.now)) }
    ensures before { out.new.before ≡ out.old.before }
    ensures exact { OnOk result (Has64Bits (stalled_json count waiting.now)) }
{
    out.begin_object()?;
    put_string(out, "end", "stalled")?;
    put_number(out, "entries", count as u64)?;
    out.key("waiting")?;
    put_devices(out, waiting)?;
    out.end_object()?;
    Ok(())
}

/// Writes the object of how a run ended.
fn put_end(out: &mut Writer, count: usize, waiting: &[u16]) -> Result<(), AllocError>
    ensures adds { OnOk result (out.new.tokens ≡ out.old.tokens ++ tokens_of (end_json count waiting.now)) }
    ensures before { out.new.before ≡ out.old.before }
    ensures exact { OnOk result (Has64Bits (end_json count waiting.now)) }
{
    match waiting {
        [] => put_done(out, count),
        [_, ..] => put_stalled(out, count, waiting),
    }
}

/// The line of how a run of `count` entries ended, after which the devices in `waiting` are not at the end of their
/// rows.
#[tactic(auto, using(crate::proofs::Depth::end_again))]
pub fn run_end_line(alloc: Global, count: usize, waiting: &[u16]) -> Result<String, AllocError>
    ensures line { IfOk result (λ t. string_bytes t ≡ json_line (end_json count waiting.now)) }
    ensures read_again { OnOk result (IsReadAgain (end_json count waiting.now)) }
{
    let mut writer = Writer::new(Vec::new(alloc));
    put_end(&mut writer, count, waiting)?;
    let bytes = end_line(writer)?;
    Ok(text_of(bytes))
}

/// Writes the object of what a device outputs for one datagram.
#[tactic(auto, unfolding(crate::specs::Answers::one_json))]
fn put_one_answer(alloc: Global, out: &mut Writer, outputs: &[Output]) -> Result<(), AllocError>
    ensures adds { OnOk result (out.new.tokens ≡ out.old.tokens ++ tokens_of (one_json outputs.now)) }
    ensures before { out.new.before ≡ out.old.before }
    ensures exact { OnOk result (Has64Bits (one_json outputs.now)) }
{
    out.begin_object()?;
    put_number(out, "version", 1)?;
    out.key("outputs")?;
    put_outputs(alloc, out, outputs)?;
    out.end_object()?;
    Ok(())
}

/// The line of what a device outputs for one datagram.
#[tactic(auto, using(crate::proofs::Depth::one_again))]
pub fn outputs_line(alloc: Global, outputs: &[Output]) -> Result<String, AllocError>
    ensures line { IfOk result (λ t. string_bytes t ≡ json_line (one_json outputs.now)) }
    ensures read_again { OnOk result (IsReadAgain (one_json outputs.now)) }
{
    let mut writer = Writer::new(Vec::new(alloc));
    put_one_answer(alloc, &mut writer, outputs)?;
    let bytes = end_line(writer)?;
    Ok(text_of(bytes))
}
