//! What goes through ports, as objects in JSON, each in a line of its own.
ghost use Rattle.std.specs.Prelude.{◌≡◌, ◌++◌, IfOk, OnOk};
ghost use Rattle.std.specs.String.{string_bytes};
ghost use Rattle.trace_json.specs.Writing.{Has64Bits, IsReadAgain, json_line, tokens_of};
ghost use Rattle.fleet_lines.specs.Objects.{datagram_json, direction_word, event_name, note_json};

use crate::lines::fate_word;
use crate::shown::Shown;
use fleet_wire::{Direction, Note};
use json::Writer;
use message_words::datagram_text;
use std::alloc::{AllocError, Global};
use trace_json::{end_line, put_number, put_string, text_of};

fn event_name(direction: Direction) -> &'static str
    ensures { result.now ≡ event_name direction }
{
    match direction {
        Direction::In => "received",
        Direction::Out => "sent",
    }
}

fn direction_word(direction: Direction) -> &'static str
    ensures { result.now ≡ direction_word direction }
{
    match direction {
        Direction::In => "in",
        Direction::Out => "out",
    }
}

/// Writes a datagram, with its bytes in hex and what it says.
#[tactic(auto, unfolding(crate::specs::Objects::datagram_json))]
fn put_datagram(alloc: Global, out: &mut Writer, shown: &Shown) -> Result<(), AllocError>
    ensures adds { OnOk result (out.new.tokens ≡ out.old.tokens ++ tokens_of (datagram_json shown.now)) }
    ensures before { out.new.before ≡ out.old.before }
    ensures exact { OnOk result (Has64Bits (datagram_json shown.now)) }
{
    let bytes = shown.packet.bytes.as_slice();
    let hex = hex::encode_upper(alloc, bytes)?;
    let words = datagram_text(alloc, bytes)?;
    out.begin_object()?;
    put_string(out, "event", event_name(shown.direction))?;
    put_number(out, "second", shown.second)?;
    put_number(out, "device", shown.device as u64)?;
    put_number(out, "server", u64::from(shown.packet.server))?;
    put_string(out, "datagram", hex.as_str())?;
    put_string(out, "words", words.as_str())?;
    out.end_object()?;
    Ok(())
}

/// The line of a datagram that a device received, or sent.
#[tactic(auto, using(crate::proofs::Again::datagram_again))]
pub fn datagram_object(alloc: Global, shown: &Shown) -> Result<String, AllocError>
    ensures line { IfOk result (λ t. string_bytes t ≡ json_line (datagram_json shown.now)) }
    ensures read_again { OnOk result (IsReadAgain (datagram_json shown.now)) }
{
    let mut writer = Writer::new(Vec::new(alloc));
    put_datagram(alloc, &mut writer, shown)?;
    let bytes = end_line(writer)?;
    Ok(text_of(bytes))
}

/// Writes what a wire did with a datagram.
#[tactic(auto, unfolding(crate::specs::Objects::note_json))]
fn put_note(out: &mut Writer, note: Note) -> Result<(), AllocError>
    ensures adds { OnOk result (out.new.tokens ≡ out.old.tokens ++ tokens_of (note_json note)) }
    ensures before { out.new.before ≡ out.old.before }
    ensures exact { OnOk result (Has64Bits (note_json note)) }
{
    out.begin_object()?;
    put_string(out, "event", "wire")?;
    put_number(out, "second", note.second)?;
    put_number(out, "device", note.device as u64)?;
    put_string(out, "direction", direction_word(note.direction))?;
    put_number(out, "number", note.number)?;
    put_string(out, "fate", fate_word(note.fate))?;
    out.end_object()?;
    Ok(())
}

/// The line of what a wire did with a datagram.
#[tactic(auto, using(crate::proofs::Again::note_again))]
pub fn note_object(alloc: Global, note: Note) -> Result<String, AllocError>
    ensures line { IfOk result (λ t. string_bytes t ≡ json_line (note_json note)) }
    ensures read_again { OnOk result (IsReadAgain (note_json note)) }
{
    let mut writer = Writer::new(Vec::new(alloc));
    put_note(&mut writer, note)?;
    let bytes = end_line(writer)?;
    Ok(text_of(bytes))
}
