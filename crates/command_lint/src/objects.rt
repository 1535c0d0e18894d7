//! Findings as objects in JSON, each in a line of its own.
ghost use Rattle.std.specs.Prelude.{◌≡◌, ◌++◌, IfOk, OnOk};
ghost use Rattle.std.specs.String.{string_bytes};
ghost use Rattle.trace_json.specs.Writing.{Has64Bits, IsReadAgain, json_line, tokens_of};
ghost use Rattle.command_lint.specs.Objects.{count_json, finding_json, rule_tokens};

use json::Writer;
use server_lint::{Rule, Transmission};
use std::alloc::{AllocError, Global};
use trace_json::{end_line, put_number, put_string, text_of};

/// Writes a rule: its name, its section, and the standard that has it.
fn put_rule(out: &mut Writer, rule: Rule) -> Result<(), AllocError>
    ensures adds { OnOk result (out.new.tokens ≡ out.old.tokens ++ rule_tokens rule) }
    ensures before { out.new.before ≡ out.old.before }
{
    put_string(out, "rule", rule.name())?;
    put_string(out, "section", rule.section())?;
    put_string(out, "standard", rule.standard())?;
    Ok(())
}

/// Writes a rule that a datagram of a device breaks, with what is said of it.
#[tactic(auto, unfolding(crate::specs::Objects::finding_json))]
fn put_finding(
    out: &mut Writer,
    device: u16,
    rule: Rule,
    t: &Transmission,
    words: &str,
) -> Result<(), AllocError>
    ensures adds { OnOk result (out.new.tokens
        ≡ out.old.tokens ++ tokens_of (finding_json device rule t.now words.now)) }
    ensures before { out.new.before ≡ out.old.before }
    ensures exact { OnOk result (Has64Bits (finding_json device rule t.now words.now)) }
{
    out.begin_object()?;
    put_number(out, "device", u64::from(device))?;
    put_number(out, "step", u64::from(t.step()))?;
    put_number(out, "second", u64::from(t.second()))?;
    put_number(out, "server", u64::from(t.server()))?;
    put_rule(out, rule)?;
    put_string(out, "words", words)?;
    out.end_object()?;
    Ok(())
}

/// The line of a rule that a datagram of a device breaks.
#[tactic(auto, using(crate::proofs::Again::finding_again))]
pub(crate) fn finding_object(
    alloc: Global,
    device: u16,
    rule: Rule,
    t: &Transmission,
    words: &str,
) -> Result<String, AllocError>
    ensures line { IfOk result (λ text. string_bytes text ≡ json_line (finding_json device rule t.now words.now)) }
    ensures read_again { OnOk result (IsReadAgain (finding_json device rule t.now words.now)) }
{
    let mut writer = Writer::new(Vec::new(alloc));
    put_finding(&mut writer, device, rule, t, words)?;
    let bytes = end_line(writer)?;
    Ok(text_of(bytes))
}

/// Writes how many findings there are.
#[tactic(auto, unfolding(crate::specs::Objects::count_json))]
fn put_count(out: &mut Writer, count: usize) -> Result<(), AllocError>
    ensures adds { OnOk result (out.new.tokens ≡ out.old.tokens ++ tokens_of (count_json count)) }
    ensures before { out.new.before ≡ out.old.before }
    ensures exact { OnOk result (Has64Bits (count_json count)) }
{
    out.begin_object()?;
    put_number(out, "findings", count as u64)?;
    out.end_object()?;
    Ok(())
}

/// The line of how many findings there are.
#[tactic(auto, using(crate::proofs::Again::count_again))]
pub(crate) fn count_object(alloc: Global, count: usize) -> Result<String, AllocError>
    ensures line { IfOk result (λ text. string_bytes text ≡ json_line (count_json count)) }
    ensures read_again { OnOk result (IsReadAgain (count_json count)) }
{
    let mut writer = Writer::new(Vec::new(alloc));
    put_count(&mut writer, count)?;
    let bytes = end_line(writer)?;
    Ok(text_of(bytes))
}
