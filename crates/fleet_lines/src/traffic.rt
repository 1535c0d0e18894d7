//! What goes through ports in a turn of their devices, as one text: a line for each, for people or in JSON.
ghost use Rattle.std.specs.Prelude.{◌≡◌, ◌++◌, IfOk, OnOk};
ghost use Rattle.std.specs.List.{flat_map};
ghost use Rattle.std.specs.String.{string_bytes};
ghost use Rattle.fleet_lines.specs.Traffic.{note_text, shown_text, traffic_text};

use crate::lines::{datagram_line, note_line};
use crate::objects::{datagram_object, note_object};
use crate::shown::Shown;
use fleet_wire::Note;
use std::alloc::{AllocError, Global};

fn note_text(alloc: Global, json: bool, note: Note) -> Result<String, AllocError>
    ensures { IfOk result (λ t. string_bytes t ≡ note_text json note) }
{
    if json {
        note_object(alloc, note)
    } else {
        note_line(alloc, note)
    }
}

fn shown_text(alloc: Global, json: bool, shown: &Shown) -> Result<String, AllocError>
    ensures { IfOk result (λ t. string_bytes t ≡ shown_text json shown.now) }
{
    if json {
        datagram_object(alloc, shown)
    } else {
        datagram_line(alloc, shown)
    }
}

/// Adds a note.
fn put_note(alloc: Global, out: &mut String, json: bool, note: Note) -> Result<(), AllocError>
    ensures { OnOk result (string_bytes out.new ≡ string_bytes out.old ++ note_text json note) }
{
    let text = note_text(alloc, json, note)?;
    out.push_str(text.as_str())?;
    Ok(())
}

/// Adds a datagram.
fn put_shown(alloc: Global, out: &mut String, json: bool, shown: &Shown) -> Result<(), AllocError>
    ensures { OnOk result (string_bytes out.new ≡ string_bytes out.old ++ shown_text json shown.now) }
{
    let text = shown_text(alloc, json, shown)?;
    out.push_str(text.as_str())?;
    Ok(())
}

/// The text of what a wire did with datagrams.
fn notes_text(alloc: Global, json: bool, notes: &[Note]) -> Result<String, AllocError>
    ensures { IfOk result (λ t. string_bytes t ≡ flat_map (note_text json) notes.now) }
{
    let mut text = String::new(alloc);
    for note in notes {
        put_note(alloc, &mut text, json, *note)?;
    }
    Ok(text)
}

/// The text of datagrams that devices received or sent.
fn all_shown_text(alloc: Global, json: bool, shown: &[Shown]) -> Result<String, AllocError>
    ensures { IfOk result (λ t. string_bytes t ≡ flat_map (shown_text json) shown.now) }
{
    let mut text = String::new(alloc);
    for datagram in shown {
        put_shown(alloc, &mut text, json, datagram)?;
    }
    Ok(text)
}

/// What devices received and sent, and then what a wire did with datagrams: each as a line for people, or as an object
/// in JSON, in its order.
pub fn traffic_text(
    alloc: Global,
    json: bool,
    notes: &[Note],
    shown: &[Shown],
) -> Result<String, AllocError>
    ensures { IfOk result (λ t. string_bytes t ≡ traffic_text json notes.now shown.now) }
{
    let mut text = all_shown_text(alloc, json, shown)?;
    let noted = notes_text(alloc, json, notes)?;
    text.push_str(noted.as_str())?;
    Ok(text)
}
