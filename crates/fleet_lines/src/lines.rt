//! What goes through ports, as lines for people.
ghost use Rattle.std.specs.Prelude.{◌≡◌, IfOk};
ghost use Rattle.std.specs.String.{string_bytes};
ghost use Rattle.coap_codec.specs.Reading.{reading_of};
ghost use Rattle.message_words.specs.Text.{reading_text};
ghost use Rattle.scenario_statements.specs.Spelling.{line_of};
ghost use Rattle.scenario_statements.specs.declared.statement.Statement.TheVariants.{Request};
ghost use Rattle.fleet_lines.specs.Lines.{unnamed_words, datagram_line, fate_word, from_server, note_line, note_way};
ghost use Rattle.fleet_lines.specs.Lines.{note_words, received_words, to_server, way_line};

use crate::shown::Shown;
use fleet_wire::{Direction, Fate, Note};
use message_words::datagram_text;
use scenario_mnemonics::{Mnemonic, mnemonic_for};
use scenario_statements::{Statement, line_of, recv_line};
use std::alloc::{AllocError, Global};

/// The words of a request, which is not needed any more.
fn request_words(alloc: Global, server: u16, mnemonic: Mnemonic) -> Result<String, AllocError>
    ensures { IfOk result (λ t. string_bytes t ≡ line_of (Request server mnemonic)) }
{
    line_of(alloc, &Statement::Request { server, mnemonic })
}

/// The bytes of a datagram that comes from a server, and after them what it says.
fn unnamed_words(alloc: Global, server: u16, bytes: &[u8]) -> Result<String, AllocError>
    ensures { IfOk result (λ t. string_bytes t ≡ unnamed_words server bytes.now) }
{
    let statement = recv_line(alloc, server, bytes)?;
    let words = datagram_text(alloc, bytes)?;
    format!(in alloc; "{statement}  # {words}")
}

/// A datagram that comes from a server: the mnemonic that denotes it, else its bytes, and what it says.
fn received_words(alloc: Global, server: u16, bytes: &[u8]) -> Result<String, AllocError>
    ensures { IfOk result (λ t. string_bytes t ≡ received_words server bytes.now) }
{
    match mnemonic_for(alloc, bytes)? {
        Some(mnemonic) => request_words(alloc, server, mnemonic),
        None => unnamed_words(alloc, server, bytes),
    }
}

/// A line: a second, a device, the way of a datagram, and what is said of it.
fn way_line(
    alloc: Global,
    second: u64,
    device: usize,
    way: &str,
    words: &str,
) -> Result<String, AllocError>
    ensures { IfOk result (λ t. string_bytes t ≡ way_line second device way.now words.now) }
{
    format!(in alloc; "{second} s  device {device}  {way}  {words}\n")
}

/// The way of a datagram that comes from a server.
fn from_server(alloc: Global, server: u16) -> Result<String, AllocError>
    ensures { IfOk result (λ t. string_bytes t ≡ from_server server) }
{
    format!(in alloc; "from {server}")
}

/// The way of a datagram that goes to a server, as wide as that of one that comes from it.
fn to_server(alloc: Global, server: u16) -> Result<String, AllocError>
    ensures { IfOk result (λ t. string_bytes t ≡ to_server server) }
{
    format!(in alloc; "to {server}  ")
}

/// The line of a datagram that a device received.
fn incoming_line(
    alloc: Global,
    second: u64,
    device: usize,
    server: u16,
    bytes: &[u8],
) -> Result<String, AllocError>
    ensures { IfOk result (λ t. string_bytes t
        ≡ way_line second device (from_server server) (received_words server bytes.now)) }
{
    let way = from_server(alloc, server)?;
    let words = received_words(alloc, server, bytes)?;
    way_line(alloc, second, device, way.as_str(), words.as_str())
}

/// The line of a datagram that a device sent.
fn outgoing_line(
    alloc: Global,
    second: u64,
    device: usize,
    server: u16,
    bytes: &[u8],
) -> Result<String, AllocError>
    ensures { IfOk result (λ t. string_bytes t
        ≡ way_line second device (to_server server) (reading_text (reading_of bytes.now))) }
{
    let way = to_server(alloc, server)?;
    let words = datagram_text(alloc, bytes)?;
    way_line(alloc, second, device, way.as_str(), words.as_str())
}

/// The line of a datagram, in words: of one that was received those of scenario text, where these have its bytes alone
/// also what it says; of one that was sent what it says.
pub fn datagram_line(alloc: Global, shown: &Shown) -> Result<String, AllocError>
    ensures { IfOk result (λ t. string_bytes t ≡ datagram_line shown.now) }
{
    let server = shown.packet.server;
    let bytes = shown.packet.bytes.as_slice();
    match shown.direction {
        Direction::In => incoming_line(alloc, shown.second, shown.device, server, bytes),
        Direction::Out => outgoing_line(alloc, shown.second, shown.device, server, bytes),
    }
}

/// The way of a datagram, as wide as that of one whose server is known.
fn note_way(direction: Direction) -> &'static str
    ensures { result.now ≡ note_way direction }
{
    match direction {
        Direction::In => "in    ",
        Direction::Out => "out   ",
    }
}

/// What happened to a datagram, in a word.
pub(crate) fn fate_word(fate: Fate) -> &'static str
    ensures { result.now ≡ fate_word fate }
{
    match fate {
        Fate::Lost => "lost",
        Fate::Twice => "twice",
        Fate::Swapped => "swapped",
        Fate::Late => "late",
        Fate::Passes => "passes",
    }
}

/// Which datagram it is, of those of its device that go this way, and what happened to it.
fn note_words(alloc: Global, number: u64, fate: &str) -> Result<String, AllocError>
    ensures { IfOk result (λ t. string_bytes t ≡ note_words number fate.now) }
{
    format!(in alloc; "datagram {number} {fate}")
}

/// The line of what a wire did with a datagram.
pub fn note_line(alloc: Global, note: Note) -> Result<String, AllocError>
    ensures { IfOk result (λ t. string_bytes t ≡ note_line note) }
{
    let words = note_words(alloc, note.number, fate_word(note.fate))?;
    way_line(
        alloc,
        note.second,
        note.device,
        note_way(note.direction),
        words.as_str(),
    )
}
