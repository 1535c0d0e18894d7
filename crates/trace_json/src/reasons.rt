//! The objects of entries, with the reasons of their steps.

ghost use Rattle.std.specs.Prelude.{◌≡◌, ◌++◌, OnOk, map, option_map, slice_get};
ghost use Rattle.std.specs.String.{string_bytes};
ghost use Rattle.trace_text.specs.Seconds.{second_at};
ghost use Rattle.trace_json.specs.Json.{object_json};
ghost use Rattle.trace_json.specs.Reasons.{ended_fields, reasoned_json, reasoned_output_json, reasoned_outputs_json};
ghost use Rattle.trace_json.specs.Reasons.{said_end, said_of, silent_end_json, silent_ends_json};
ghost use Rattle.trace_json.specs.Writing.{Has64Bits, fields_tokens, tokens_of};

use crate::datagrams::begin_datagram;
use crate::entries::put_step;
use crate::members::{put_number, put_number_if, put_string, put_string_if};
use crate::outputs::put_act;
use device_machine::Output;
use json::Writer;
use scenario_image::Scenario;
use std::alloc::{AllocError, Global};
use trace_file::Entry;

/// An observation that ends without a datagram.
#[derive(Drop)]
pub struct SilentEnd {
    /// The path that was observed.
    pub path: String,
    /// The second in which it ends.
    pub second: u64,
    /// Why it ends.
    pub why: String,
}

/// What is said of the step of an entry, beside what happens in it and what the device outputs.
#[derive(Clone, Copy)]
pub struct StepReasons<'a> {
    /// The number of the rule that decides the answer to a datagram that arrives, if one does.
    pub rule: Option<u8>,
    /// Why the device answers the datagram like that, if one arrives.
    pub why: Option<&'a str>,
    /// Why each datagram is sent, in their order, as far as there are reasons.
    pub sent: &'a [String],
    /// The observations that end without a datagram, in their order.
    pub ended: &'a [SilentEnd],
}

fn widened(number: Option<u8>) -> Option<u64>
    ensures { result ≡ number }
{
    match number {
        Some(number) => Some(number as u64),
        None => None,
    }
}

/// The reason at a place, if there is one.
fn why_at(whys: &[String], place: usize) -> Option<&str>
    ensures { option_map (λ x. x.now) result ≡ slice_get (map (λ w. string_bytes w) whys.now) place }
{
    match whys.get(place) {
        Some(why) => Some(why.as_str()),
        None => None,
    }
}

/// Writes the object of an output, with the reason why it is sent, if there is one.
#[tactic(auto, unfolding(crate::specs::Reasons::reasoned_output_json))]
fn put_output(
    alloc: Global,
    out: &mut Writer,
    output: &Output,
    why: Option<&str>,
) -> Result<(), AllocError>
    ensures adds { OnOk result (out.new.tokens ≡ out.old.tokens
        ++ tokens_of (reasoned_output_json output.now (option_map (λ x. x.now) why.entry))) }
    ensures before { out.new.before ≡ out.old.before }
    ensures exact { OnOk result (Has64Bits (reasoned_output_json output.now (option_map (λ x. x.now) why.entry))) }
{
    match output {
        Output::Send { server, bytes } => {
            begin_datagram(alloc, out, "send", *server, bytes.as_slice())?;
            put_string_if(out, "why", why)?;
            out.end_object()?;
            Ok(())
        }
        Output::Act(act) => put_act(out, *act),
    }
}

/// Writes the array of outputs, in their order, each with the reason at its place.
fn put_outputs(
    alloc: Global,
    out: &mut Writer,
    outputs: &[Output],
    whys: &[String],
) -> Result<(), AllocError>
    ensures adds { OnOk result (out.new.tokens ≡ out.old.tokens
        ++ tokens_of (reasoned_outputs_json outputs.now (map (λ w. string_bytes w) whys.now))) }
    ensures before { out.new.before ≡ out.old.before }
    ensures exact { OnOk result
        (Has64Bits (reasoned_outputs_json outputs.now (map (λ w. string_bytes w) whys.now))) }
{
    out.begin_array()?;
    for (place, output) in outputs.iter().enumerate() {
        put_output(alloc, out, output, why_at(whys, place))?;
    }
    out.end_array()?;
    Ok(())
}

/// Writes the object of an observation that ends without a datagram.
#[tactic(auto, unfolding(crate::specs::Reasons::silent_end_json))]
fn put_end(out: &mut Writer, end: &SilentEnd) -> Result<(), AllocError>
    ensures adds { OnOk result (out.new.tokens ≡ out.old.tokens ++ tokens_of (silent_end_json (said_end end.now))) }
    ensures before { out.new.before ≡ out.old.before }
    ensures exact { OnOk result (Has64Bits (silent_end_json (said_end end.now))) }
{
    out.begin_object()?;
    put_string(out, "path", end.path.as_str())?;
    put_number(out, "second", end.second)?;
    put_string(out, "why", end.why.as_str())?;
    out.end_object()?;
    Ok(())
}

/// Writes the array of these ends, in their order.
fn put_ends(out: &mut Writer, ends: &[SilentEnd]) -> Result<(), AllocError>
    ensures adds { OnOk result
        (out.new.tokens ≡ out.old.tokens ++ tokens_of (silent_ends_json (map said_end ends.now))) }
    ensures before { out.new.before ≡ out.old.before }
    ensures exact { OnOk result (Has64Bits (silent_ends_json (map said_end ends.now))) }
{
    out.begin_array()?;
    for end in ends {
        put_end(out, end)?;
    }
    out.end_array()?;
    Ok(())
}

/// Writes the member of these ends, if there is one.
fn put_ended(out: &mut Writer, ends: &[SilentEnd]) -> Result<(), AllocError>
    ensures adds { OnOk result
        (out.new.tokens ≡ out.old.tokens ++ fields_tokens (ended_fields (map said_end ends.now))) }
    ensures before { out.new.before ≡ out.old.before }
    ensures exact { OnOk result (Has64Bits (object_json (ended_fields (map said_end ends.now)))) }
{
    match ends {
        [] => Ok(()),
        [_, ..] => {
            out.key("ended")?;
            put_ends(out, ends)?;
            Ok(())
        }
    }
}

/// Writes the object of an entry with the reasons of its step.
pub(crate) fn put_reasoned(
    alloc: Global,
    out: &mut Writer,
    scenario: &Scenario,
    number: usize,
    entry: &Entry,
    second: u32,
    reasons: &StepReasons<'_>,
) -> Result<(), AllocError>
    requires { second ≡ second_at scenario.now entry.now.device entry.now.step }
    ensures adds { OnOk result (out.new.tokens ≡ out.old.tokens
        ++ tokens_of (reasoned_json scenario.now number entry.now (said_of reasons.now))) }
    ensures before { out.new.before ≡ out.old.before }
    ensures exact { OnOk result
        (Has64Bits (reasoned_json scenario.now number entry.now (said_of reasons.now))) }
{
    out.begin_object()?;
    put_step(alloc, out, scenario, number, entry, second)?;
    put_number_if(out, "rule", widened(reasons.rule))?;
    put_string_if(out, "why", reasons.why)?;
    out.key("outputs")?;
    put_outputs(alloc, out, entry.outputs.as_slice(), reasons.sent)?;
    put_ended(out, reasons.ended)?;
    out.end_object()?;
    Ok(())
}
