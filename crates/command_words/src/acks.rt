//! The lines of Empty ACKs.
ghost use Rattle.std.specs.Prelude.{◌≡◌, ◌++◌, IfOk};
ghost use Rattle.std.specs.String.{string_bytes};
ghost use Rattle.scenario_words.specs.Words.{ended_line};
ghost use Rattle.scenario_statements.specs.Acks.{ack_line};
ghost use Rattle.trace_text.specs.Lines.{said_line};

use message_words::datagram_text;
use std::alloc::{AllocError, Global};

/// The lines of an Empty ACK that comes from a server.
pub(crate) fn ack_text(
    alloc: Global,
    server: u16,
    mid: u16,
    bytes: &[u8],
) -> Result<String, AllocError>
    ensures { IfOk result (λ t. string_bytes t ≡ ended_line (ack_line server mid) ++ said_line bytes.now) }
{
    let words = datagram_text(alloc, bytes)?;
    format!(in alloc; "ack {server} {mid}\n    # {words}\n")
}
