//! What is told of a session while it goes on.
ghost use Rattle.std.specs.Prelude.{◌≡◌, [], ℕ, List, IfErr, IfOk, OnOk};
ghost use Rattle.std.specs.Io.KnownBytes.{Appends};
ghost use Rattle.std.specs.String.{string_bytes};
ghost use Rattle.command_files.specs.Fault.{IsWritingFault};
ghost use Rattle.command_fleet.specs.Fleet.{opening_text};
ghost use Rattle.command_fleet.specs.InJson.{second_json};
ghost use Rattle.trace_json.specs.Writing.{json_line};
ghost use Rattle.command_fleet.specs.Telling.{AreTold, IsSecondRefused, counts_shown, is_json, progress_line};
ghost use Rattle.command_fleet.specs.Telling.{second_errors, second_output, shown_line, telling_of};
ghost use Rattle.command_files.specs.World.{OnlyNotes, OnlyPrints, OnlySays, Streams};
ghost use Rattle.fleet_wire.specs.declared.note.Note.{Note as NoteData};
ghost use Rattle.fleet_lines.specs.declared.shown.Shown.{Shown as ShownData};
ghost use Rattle.fleet_lines.specs.Traffic.{traffic_text};

use crate::in_json::second_line;
use crate::placing::opening;
use command_files::{Refusal, World, unwritten};
use fleet_lines::{Counted, Shown, traffic_text};
use fleet_link::Counts;
use fleet_wire::Note;
use std::alloc::{AllocError, Global};
use std::net::SocketAddr;

/// How the seconds of a session are told.
#[derive(Clone, Copy)]
pub enum Telling {
    /// Not at all.
    Nothing,
    /// Each as a line for a person, on standard error, which says how many devices there are.
    Progress(usize),
    /// Each as an object in JSON, on standard output.
    Objects,
}

/// How the seconds of a session of n devices are told: in JSON, if that is asked for; else for a person, where
/// standard error is a terminal.
pub fn telling_of(json: bool, terminal: bool, devices: usize) -> Telling
    ensures { result ≡ telling_of json terminal devices }
{
    if json {
        Telling::Objects
    } else if terminal {
        Telling::Progress(devices)
    } else {
        Telling::Nothing
    }
}

/// Prints a text on standard output.
#[tactic(auto, using(command_files::proofs::Delivered::unwritten))]
pub(crate) fn print<'a, W: World>(text: &str, world: &mut W) -> Result<(), Refusal<'a>>
    ensures told { OnOk result (Appends (W.seen world.old).streams.output (W.seen world.new).streams.output
        text.now) }
    ensures refused { IfErr result (λ r. IsWritingFault (W.faults.output_refuses text.now) r.fault) }
    ensures only { OnlyPrints (W.seen world.old) (W.seen world.new) }
{
    match world.print(text) {
        Ok(()) => Ok(()),
        Err(fault) => Err(unwritten("standard output", fault)),
    }
}

/// Prints a text on standard error.
#[tactic(auto, using(command_files::proofs::Delivered::unwritten))]
pub(crate) fn note<'a, W: World>(text: &str, world: &mut W) -> Result<(), Refusal<'a>>
    ensures told { OnOk result (Appends (W.seen world.old).streams.errors (W.seen world.new).streams.errors
        text.now) }
    ensures refused { IfErr result (λ r. IsWritingFault (W.faults.errors_refuse text.now) r.fault) }
    ensures only { OnlyNotes (W.seen world.old) (W.seen world.new) }
{
    match world.note(text) {
        Ok(()) => Ok(()),
        Err(fault) => Err(unwritten("standard error", fault)),
    }
}

/// How many datagrams went through ports.
fn counts_shown(alloc: Global, counts: Counts) -> Result<String, AllocError>
    ensures { IfOk result (λ text. string_bytes text ≡ counts_shown counts) }
{
    let received = counts.received;
    let sent = counts.sent;
    let dropped = counts.dropped;
    let lost = counts.lost;
    format!(in alloc; "{received} received  {sent} sent  {dropped} dropped  {lost} lost")
}

fn shown_line(
    alloc: Global,
    second: u64,
    devices: usize,
    counted: &str,
) -> Result<String, AllocError>
    ensures { IfOk result (λ text. string_bytes text ≡ shown_line second devices counted.now) }
{
    format!(in alloc; "{second} s  {devices} devices  {counted}\n")
}

/// The line of a second for a person: how many devices there are, and what has gone through their ports.
pub fn progress_line(
    alloc: Global,
    devices: usize,
    second: u64,
    counts: Counts,
) -> Result<String, AllocError>
    ensures { IfOk result (λ text. string_bytes text
        ≡ progress_line devices (record { second = second; counts = counts })) }
{
    let counted = counts_shown(alloc, counts)?;
    shown_line(alloc, second, devices, counted.as_str())
}

/// Prints the line of a second for a person.
fn show_second<'a, W: World>(
    alloc: Global,
    devices: usize,
    second: u64,
    counts: Counts,
    world: &mut W,
) -> Result<(), Refusal<'a>>
    ensures told { OnOk result (Appends (W.seen world.old).streams.errors (W.seen world.new).streams.errors
        (progress_line devices (record { second = second; counts = counts }))) }
    ensures refused { IfErr result (λ r. IsWritingFault
        (W.faults.errors_refuse (progress_line devices (record { second = second; counts = counts }))) r.fault) }
    ensures only { OnlyNotes (W.seen world.old) (W.seen world.new) }
{
    let text = progress_line(alloc, devices, second, counts)?;
    note(text.as_str(), world)
}

/// Prints the object of a second.
fn print_second<'a, W: World>(
    alloc: Global,
    second: u64,
    counts: Counts,
    world: &mut W,
) -> Result<(), Refusal<'a>>
    ensures told { OnOk result (Appends (W.seen world.old).streams.output (W.seen world.new).streams.output
        (json_line (second_json second counts))) }
    ensures refused { IfErr result (λ r. IsWritingFault
        (W.faults.output_refuses (json_line (second_json second counts))) r.fault) }
    ensures only { OnlyPrints (W.seen world.old) (W.seen world.new) }
{
    let text = second_line(alloc, second, counts)?;
    print(text.as_str(), world)
}

/// Tells a second, with what has gone through the ports.
#[tactic(auto, using(crate::proofs::Told::nothing_told))]
pub(crate) fn tell_second<'a, P: Counted, W: World>(
    alloc: Global,
    telling: Telling,
    second: u64,
    ports: &P,
    world: &mut W,
) -> Result<(), Refusal<'a>>
    ensures printed { OnOk result (Appends (W.seen world.old).streams.output (W.seen world.new).streams.output
        (second_output telling (record { second = second; counts = P.counted ports.now }))) }
    ensures shown { OnOk result (Appends (W.seen world.old).streams.errors (W.seen world.new).streams.errors
        (second_errors telling (record { second = second; counts = P.counted ports.now }))) }
    ensures refused { IfErr result (λ r. IsSecondRefused telling
        W.faults
        (record { second = second; counts = P.counted ports.now })
        (W.seen world.old).streams
        (W.seen world.new).streams r.fault) }
    ensures only { OnlySays (W.seen world.old) (W.seen world.new) }
{
    match telling {
        Telling::Nothing => Ok(()),
        Telling::Progress(devices) => show_second(alloc, devices, second, ports.counted(), world),
        Telling::Objects => print_second(alloc, second, ports.counted(), world),
    }
}

/// Whether what is told is objects in JSON.
fn is_json(telling: Telling) -> bool
    ensures { result ≡ is_json telling }
{
    match telling {
        Telling::Nothing | Telling::Progress(_) => false,
        Telling::Objects => true,
    }
}

/// Prints what a wire did, and what devices received and sent.
#[tactic(auto, using(crate::proofs::Told::nothing_went))]
fn print_traffic<'a, W: World>(
    alloc: Global,
    json: bool,
    notes: &[Note],
    shown: &[Shown],
    world: &mut W,
) -> Result<(), Refusal<'a>>
    ensures told { OnOk result (Appends (W.seen world.old).streams.output (W.seen world.new).streams.output
        (traffic_text json notes.now shown.now)) }
    ensures refused { IfErr result (λ r. IsWritingFault
        (W.faults.output_refuses (traffic_text json notes.now shown.now)) r.fault) }
    ensures only { OnlyPrints (W.seen world.old) (W.seen world.new) }
{
    if notes.is_empty() && shown.is_empty() {
        return Ok(());
    }
    let text = traffic_text(alloc, json, notes, shown)?;
    print(text.as_str(), world)
}

/// Tells what the wire did and what devices received and sent since this was asked last, as far as that is shown.
pub(crate) fn tell_traffic<'a, P: Counted, W: World>(
    alloc: Global,
    telling: Telling,
    ports: &mut P,
    world: &mut W,
) -> Result<(), Refusal<'a>>
    ensures same { (e : ℕ) → P.told ports.new e ≡ P.told ports.old e }
    ensures asked { P.asked ports.new ≡ P.asked ports.old }
    ensures wire { (P.watched ports.new).wire ≡ (P.watched ports.old).wire }
    ensures began { (P.watched ports.new).began ≡ (P.watched ports.old).began }
    ensures none_left { (P.notes_left ports.new ≡ []) × (P.shown_left ports.new ≡ []) }
    ensures told { (start : Streams) (second : ℕ)
        → AreTold telling (P.watched ports.old).notes (P.watched ports.old).shown second start
        (W.seen world.old).streams
        → OnOk result (AreTold telling (P.watched ports.new).notes (P.watched ports.new).shown second start
        (W.seen world.new).streams) }
    ensures refused { IfErr result (λ r. (notes : List NoteData) × (shown : List ShownData)
        × IsWritingFault (W.faults.output_refuses (traffic_text (is_json telling) notes shown)) r.fault) }
    ensures only { OnlyPrints (W.seen world.old) (W.seen world.new) }
{
    let notes = ports.new_notes(alloc);
    let shown = ports.new_shown(alloc);
    print_traffic(
        alloc,
        is_json(telling),
        notes.as_slice(),
        shown.as_slice(),
        world,
    )
}

/// Prints which ports the system chose; and first the object that says that the ports are there, if JSON is asked for.
#[tactic(auto, using(crate::proofs::Told::nothing_told))]
pub(crate) fn print_ready<'a, W: World>(
    alloc: Global,
    json: bool,
    devices: usize,
    place: SocketAddr,
    ports: &[u16],
    world: &mut W,
) -> Result<(), Refusal<'a>>
    ensures told { OnOk result (Appends (W.seen world.old).streams.output (W.seen world.new).streams.output
        (opening_text json devices place ports.now)) }
    ensures refused { IfErr result (λ r. IsWritingFault
        (W.faults.output_refuses (opening_text json devices place ports.now)) r.fault) }
    ensures only { OnlyPrints (W.seen world.old) (W.seen world.new) }
{
    if !json && ports.is_empty() {
        return Ok(());
    }
    let text = opening(alloc, json, devices, place, ports)?;
    print(text.as_str(), world)
}
