//! Empty ACKs, which people have words for and scenario text has none: `ack S MID`.
ghost use Rattle.std.specs.Prelude.{◌≡◌, IfOk};
ghost use Rattle.coap_codec.specs.Reading.{reading_of};
ghost use Rattle.scenario_words.specs.Reading.{Reads};
ghost use Rattle.scenario_words.specs.Words.{words};
ghost use Rattle.scenario_statements.specs.Acks.{ack_datagram, ack_from, ack_of, acknowledged_id, empty_ack, is_ack};
ghost use Rattle.scenario_statements.specs.Acks.{said_ack};

use coap_codec::{CoapFault, Kind, Message, Options, decode, encode};
use octets::Bytes;
use scenario_words::{Cause, end, is_name, natural, next_word};
use std::alloc::{AllocError, Global};

/// An Empty ACK that comes from a server (RFC 7252 section 4.2).
#[derive(Clone, Copy)]
pub struct Ack {
    /// The Short Server ID of the server.
    pub server: u16,
    /// The message ID of the message that it acknowledges.
    pub mid: u16,
}

/// Reads the words after `ack`: the server, from 1 to 65534, the message ID, and no more.
pub fn read_ack(line: &[u8]) -> Result<Ack, Cause>
    ensures { Reads (λ a. a) result (ack_from (words line.now)) }
{
    let (server, line) = natural(line, 1, 65534)?;
    let (mid, line) = natural(line, 0, 65535)?;
    end(line)?;
    Ok(Ack {
        server: server as u16,
        mid: mid as u16,
    })
}

/// What a line says that is `ack S MID`; none where it is not, or one of its numbers is no such number.
pub fn said_ack(line: &[u8]) -> Option<Ack>
    ensures { result ≡ said_ack (words line.now) }
{
    match next_word(line) {
        Some((word, behind)) if is_name(word, "ack") => read_ack(behind).ok(),
        _ => None,
    }
}

fn is_ack(kind: Kind) -> bool
    ensures { result ≡ is_ack kind }
{
    match kind {
        Kind::Ack => true,
        Kind::Con | Kind::Non | Kind::Rst => false,
    }
}

/// The message ID of an Empty ACK; none of any other message.
fn mid_of(message: &Message) -> Option<u16>
    ensures { result ≡ ack_of message.now }
{
    if is_ack(message.kind()) && message.code() == 0 {
        Some(message.mid())
    } else {
        None
    }
}

/// The message ID of bytes that are an Empty ACK; none of any others.
pub fn acknowledged(alloc: Global, bytes: &[u8]) -> Result<Option<u16>, AllocError>
    ensures { IfOk result (λ mid. mid ≡ acknowledged_id (reading_of bytes.now)) }
{
    match decode(alloc, bytes) {
        Ok(message) => Ok(mid_of(&message)),
        Err(CoapFault::Memory) => Err(AllocError),
        Err(_) => Ok(None),
    }
}

fn empty_ack(alloc: Global, mid: u16) -> Message
    ensures { result ≡ empty_ack mid }
{
    Message::of_parts(
        Kind::Ack,
        0,
        mid,
        Bytes::new(alloc),
        Options::new(alloc),
        Bytes::new(alloc),
    )
}

/// The datagram of the Empty ACK of a message ID.
pub fn ack_bytes(alloc: Global, mid: u16) -> Result<Bytes, AllocError>
    ensures { IfOk result (λ bytes. bytes ≡ ack_datagram mid) }
{
    let message = empty_ack(alloc, mid);
    Ok(Bytes::from_vec(encode(alloc, &message)?))
}
