//! The lines of a trace, one by one.

ghost use Rattle.std.specs.Prelude.{◌≡◌, ◌++◌, IfOk, OnOk};
ghost use Rattle.std.specs.Str.{IsUtf8};
ghost use Rattle.std.specs.String.{string_bytes};
ghost use Rattle.json.specs.Print.{print};
ghost use Rattle.scenario_words.specs.Words.{ended_line};
ghost use Rattle.trace_text.specs.Seconds.{second_at};
ghost use Rattle.trace_json.specs.Entries.{entry_json, head_json};
ghost use Rattle.trace_json.specs.Reasons.{reasoned_json, said_of};
ghost use Rattle.trace_json.specs.Writing.{IsReadAgain, json_line};

use crate::entries::{put_entry, put_head};
use crate::reasons::{StepReasons, put_reasoned};
use json::Writer;
use scenario_image::Scenario;
use std::alloc::{AllocError, Global};
use std::marker::Model;
use trace_file::Entry;
use trace_text::Clocks;

/// Ends the line of the object that a writer has written.
pub fn end_line(writer: Writer) -> Result<Vec<u8>, AllocError>
    requires { IsUtf8 writer.before }
    ensures line { IfOk result (λ v. v.items ≡ writer.before ++ ended_line (print writer.tokens)) }
    ensures utf8 { IfOk result (λ v. IsUtf8 v.items) }
{
    let mut bytes = writer.into_inner();
    bytes.push(b'\n')?;
    Ok(bytes)
}

/// The text that bytes are.
pub fn text_of(bytes: Vec<u8>) -> String
    requires { IsUtf8 bytes.items }
    ensures { string_bytes result ≡ bytes.items }
{
    match String::from_utf8(bytes) {
        Ok(text) => text,
        Err(_) => unreachable!(),
    }
}

/// Writes the line that begins a trace.
#[tactic(auto, using(crate::proofs::Depth::head_again))]
pub(crate) fn put_head_line(
    out: Vec<u8>,
    devices: usize,
    entries: usize,
) -> Result<Vec<u8>, AllocError>
    requires { IsUtf8 out.items }
    ensures line { IfOk result (λ v. v.items ≡ out.items ++ json_line (head_json devices entries)) }
    ensures utf8 { IfOk result (λ v. IsUtf8 v.items) }
    ensures read_again { IsReadAgain (head_json devices entries) }
{
    let mut writer = Writer::new(out);
    put_head(&mut writer, devices, entries)?;
    let bytes = end_line(writer)?;
    Ok(bytes)
}

/// Writes the line of an entry, of this number in its trace, with the second of its device before the step.
#[tactic(auto, using(crate::proofs::Depth::entry_again))]
fn put_line(
    alloc: Global,
    out: Vec<u8>,
    scenario: &Scenario,
    number: usize,
    entry: &Entry,
    second: u32,
) -> Result<Vec<u8>, AllocError>
    requires utf8 { IsUtf8 out.items }
    requires second { second ≡ second_at scenario.now entry.now.device entry.now.step }
    ensures line { IfOk result
        (λ v. v.items ≡ out.items ++ json_line (entry_json scenario.now number entry.now)) }
    ensures utf8 { IfOk result (λ v. IsUtf8 v.items) }
    ensures read_again { OnOk result (IsReadAgain (entry_json scenario.now number entry.now)) }
{
    let mut writer = Writer::new(out);
    put_entry(alloc, &mut writer, scenario, number, entry, second)?;
    let bytes = end_line(writer)?;
    Ok(bytes)
}

/// Writes the line of an entry with the reasons of its step.
#[tactic(auto, using(crate::proofs::Reasoned::reasoned_again))]
fn put_reasoned_line(
    alloc: Global,
    out: Vec<u8>,
    scenario: &Scenario,
    number: usize,
    entry: &Entry,
    second: u32,
    reasons: &StepReasons<'_>,
) -> Result<Vec<u8>, AllocError>
    requires utf8 { IsUtf8 out.items }
    requires second { second ≡ second_at scenario.now entry.now.device entry.now.step }
    ensures line { IfOk result (λ v. v.items
        ≡ out.items ++ json_line (reasoned_json scenario.now number entry.now (said_of reasons.now))) }
    ensures utf8 { IfOk result (λ v. IsUtf8 v.items) }
    ensures read_again { OnOk result
        (IsReadAgain (reasoned_json scenario.now number entry.now (said_of reasons.now))) }
{
    let mut writer = Writer::new(out);
    put_reasoned(alloc, &mut writer, scenario, number, entry, second, reasons)?;
    let bytes = end_line(writer)?;
    Ok(bytes)
}

/// The line that begins a trace of this many devices and entries.
pub fn head_line(alloc: Global, devices: usize, entries: usize) -> Result<String, AllocError>
    ensures line { IfOk result (λ t. string_bytes t ≡ json_line (head_json devices entries)) }
    ensures read_again { OnOk result (IsReadAgain (head_json devices entries)) }
{
    let bytes = put_head_line(Vec::new(alloc), devices, entries)?;
    Ok(text_of(bytes))
}

/// Makes the lines of entries of a scenario, in any order. Contracts see the scenario.
#[derive(Drop)]
pub struct JsonLines<'a> {
    alloc: Global,
    scenario: &'a Scenario,
    clocks: Clocks<'a>,
}

impl<'a> Model for JsonLines<'a> {
    ghost use Rattle.std.specs.Prelude.{◌≡◌};
    ghost use Rattle.std.specs.Coded.{codes};
    ghost use Rattle.instance_store.specs.Stored.{stored_code};
    ghost use Rattle.scenario_image.specs.Scenario.{Scenario};

    ghost Value = { Scenario };

    ghost coded = { Prim.hlevel (codes, stored_code) };

    ghost view = { λ t. t.scenario.now };

    ghost invariant = { λ t. t.clocks ≡ t.scenario.now };
}

impl<'a> JsonLines<'a> {
    /// The lines of entries of the scenario.
    pub fn new(alloc: Global, scenario: &'a Scenario) -> Result<JsonLines<'a>, AllocError>
        ensures { IfOk result (λ t. t ≡ scenario.now) }
    {
        Ok(JsonLines {
            alloc,
            scenario,
            clocks: Clocks::new(alloc, scenario)?,
        })
    }

    /// The second of an entry's device before its step.
    fn second_before(&mut self, entry: &Entry) -> u32
        ensures second { result ≡ second_at self.old entry.now.device entry.now.step }
        ensures same { self.new ≡ self.old }
    {
        self.clocks.second_at(entry.device, entry.step as usize)
    }

    /// Writes the line of an entry.
    pub(crate) fn put_entry_line(
        &mut self,
        out: Vec<u8>,
        number: usize,
        entry: &Entry,
    ) -> Result<Vec<u8>, AllocError>
        requires { IsUtf8 out.items }
        ensures line { IfOk result
            (λ v. v.items ≡ out.items ++ json_line (entry_json self.old number entry.now)) }
        ensures utf8 { IfOk result (λ v. IsUtf8 v.items) }
        ensures read_again { OnOk result (IsReadAgain (entry_json self.old number entry.now)) }
        ensures same { self.new ≡ self.old }
    {
        let second = self.second_before(entry);
        put_line(self.alloc, out, self.scenario, number, entry, second)
    }

    /// The line of an entry, of this number in its trace. Its object has all that the text of the entry says, and the
    /// numbers of its step. Entries may be asked for in any order.
    pub fn entry_line(&mut self, number: usize, entry: &Entry) -> Result<String, AllocError>
        ensures line { IfOk result (λ t. string_bytes t ≡ json_line (entry_json self.old number entry.now)) }
        ensures read_again { OnOk result (IsReadAgain (entry_json self.old number entry.now)) }
        ensures same { self.new ≡ self.old }
    {
        let bytes = self.put_entry_line(Vec::new(self.alloc), number, entry)?;
        Ok(text_of(bytes))
    }

    /// The line of an entry with the reasons of its step: why the device answered a datagram that arrived like that,
    /// and why it sent each datagram that it sent by itself.
    pub fn reasoned_line(
        &mut self,
        number: usize,
        entry: &Entry,
        reasons: &StepReasons<'_>,
    ) -> Result<String, AllocError>
        ensures line { IfOk result (λ t.
            string_bytes t ≡ json_line (reasoned_json self.old number entry.now (said_of reasons.now))) }
        ensures read_again { OnOk result
            (IsReadAgain (reasoned_json self.old number entry.now (said_of reasons.now))) }
        ensures same { self.new ≡ self.old }
    {
        let second = self.second_before(entry);
        let out = Vec::new(self.alloc);
        let bytes = put_reasoned_line(
            self.alloc,
            out,
            self.scenario,
            number,
            entry,
            second,
            reasons,
        )?;
        Ok(text_of(bytes))
    }
}
