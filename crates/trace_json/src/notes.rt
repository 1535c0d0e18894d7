//! The lines of what is answered where there is no trace.

ghost use Rattle.std.specs.Prelude.{◌≡◌, ◌++◌, IfOk, OnOk, option_map};
ghost use Rattle.std.specs.String.{string_bytes};
ghost use Rattle.serde_json.specs.Data.{string};
ghost use Rattle.fleet_core.specs.declared.verdict.Verdict.TheVariants as verdicts;
ghost use Rattle.trace_json.specs.Json.{number_json, object_json};
ghost use Rattle.trace_json.specs.Notes.{fault_json, if_there, verdict_json};
ghost use Rattle.trace_json.specs.Writing.{Has64Bits, IsReadAgain, fields_tokens, json_line, tokens_of};

use crate::lines::{end_line, text_of};
use crate::members::{put_number, put_number_if, put_string, put_string_if};
use fleet_core::Verdict;
use json::Writer;
use std::alloc::{AllocError, Global};

/// What a line says of a fault. What a fault does not have has no member.
#[derive(Clone, Copy)]
pub struct FaultParts<'a> {
    /// The name of the fault.
    pub name: &'a str,
    /// The line of the text that is refused, counted from 1.
    pub line: Option<u64>,
    /// The place in the file that is refused, in bytes from 0.
    pub place: Option<u64>,
    /// Why the line is refused.
    pub cause: Option<&'a str>,
    /// The word that is refused.
    pub word: Option<&'a str>,
    /// The path of the file that is refused.
    pub file: Option<&'a str>,
}

/// Writes that entries are a run.
#[tactic(auto, unfolding(crate::specs::Notes::verdict_json))]
fn put_run(out: &mut Writer) -> Result<(), AllocError>
    ensures adds { OnOk result (out.new.tokens ≡ out.old.tokens ++ tokens_of (verdict_json verdicts.Run)) }
    ensures before { out.new.before ≡ out.old.before }
    ensures exact { Has64Bits (verdict_json verdicts.Run) }
{
    out.begin_object()?;
    put_string(out, "verdict", "run")?;
    out.end_object()?;
    Ok(())
}

/// Writes that entries are no run, from the one at this place on.
#[tactic(auto, unfolding(crate::specs::Notes::verdict_json))]
fn put_no_run(out: &mut Writer, place: usize) -> Result<(), AllocError>
    ensures adds { OnOk result
        (out.new.tokens ≡ out.old.tokens ++ tokens_of (verdict_json (verdicts.NotRun place))) }
    ensures before { out.new.before ≡ out.old.before }
    ensures exact { Has64Bits (verdict_json (verdicts.NotRun place)) }
{
    out.begin_object()?;
    put_string(out, "verdict", "not a run")?;
    put_number(out, "entry", place as u64)?;
    out.end_object()?;
    Ok(())
}

/// Writes the object of a verdict.
fn put_verdict(out: &mut Writer, verdict: Verdict) -> Result<(), AllocError>
    ensures adds { OnOk result (out.new.tokens ≡ out.old.tokens ++ tokens_of (verdict_json verdict)) }
    ensures before { out.new.before ≡ out.old.before }
    ensures exact { OnOk result (Has64Bits (verdict_json verdict)) }
{
    match verdict {
        Verdict::Run => put_run(out),
        Verdict::NotRun(place) => put_no_run(out, place),
    }
}

/// The line of a verdict: that entries are a run, or that they are none, and from which one on.
#[tactic(auto, using(crate::proofs::Depth::verdict_again))]
pub fn verdict_line(alloc: Global, verdict: Verdict) -> Result<String, AllocError>
    ensures line { IfOk result (λ t. string_bytes t ≡ json_line (verdict_json verdict)) }
    ensures read_again { OnOk result (IsReadAgain (verdict_json verdict)) }
{
    let mut writer = Writer::new(Vec::new(alloc));
    put_verdict(&mut writer, verdict)?;
    let bytes = end_line(writer)?;
    Ok(text_of(bytes))
}

/// Writes the object of a fault.
fn put_fault(out: &mut Writer, fault: &FaultParts<'_>) -> Result<(), AllocError>
    ensures adds { OnOk result (out.new.tokens ≡ out.old.tokens ++ tokens_of (fault_json fault.now)) }
    ensures before { out.new.before ≡ out.old.before }
    ensures exact { OnOk result (Has64Bits (fault_json fault.now)) }
{
    out.begin_object()?;
    put_string(out, "fault", fault.name)?;
    put_number_if(out, "line", fault.line)?;
    put_number_if(out, "place", fault.place)?;
    put_string_if(out, "cause", fault.cause)?;
    put_string_if(out, "word", fault.word)?;
    put_string_if(out, "file", fault.file)?;
    out.end_object()?;
    Ok(())
}

/// The line of a fault: its name, and what it has beside it.
#[tactic(auto, using(crate::proofs::Faults::fault_again))]
pub fn fault_line(alloc: Global, fault: &FaultParts<'_>) -> Result<String, AllocError>
    ensures line { IfOk result (λ t. string_bytes t ≡ json_line (fault_json fault.now)) }
    ensures read_again { OnOk result (IsReadAgain (fault_json fault.now)) }
{
    let mut writer = Writer::new(Vec::new(alloc));
    put_fault(&mut writer, fault)?;
    let bytes = end_line(writer)?;
    Ok(text_of(bytes))
}
