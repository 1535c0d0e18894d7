//! What a datagram says.
ghost use Rattle.std.specs.Prelude.{◌≡◌, IfErr, IfOk};
ghost use Rattle.std.specs.String.{string_bytes};
ghost use Rattle.command_words.specs.Saying.{IsSayDone, IsSayFault, said_text};

use crate::acks::ack_text;
use command_files::{Answer, Fault, Refusal, Status, Why, read_hex};
use scenario_statements::acknowledged;
use std::alloc::{AllocError, Global};
use trace_text::statement_text;

/// The lines of a datagram that comes from a server.
pub(crate) fn said_text(alloc: Global, server: u16, bytes: &[u8]) -> Result<String, AllocError>
    ensures { IfOk result (λ t. string_bytes t ≡ said_text server bytes.now) }
{
    match acknowledged(alloc, bytes)? {
        None => statement_text(alloc, server, bytes),
        Some(mid) => ack_text(alloc, server, mid, bytes),
    }
}

/// `say HEX [--server S]`: the statement that denotes a datagram, which comes from this server, and what it says in
/// words.
#[tactic(auto, using(crate::proofs::Said::said, crate::proofs::Said::no_hex, crate::proofs::Said::no_memory))]
pub fn say<'a>(alloc: Global, hex: &'a str, server: u16) -> Result<Answer<'a>, Refusal<'a>>
    ensures done { IfOk result (IsSayDone hex.entry.now server) }
    ensures refused { IfErr result (λ r. IsSayFault hex.entry.now r.fault) }
{
    match read_hex(alloc, hex) {
        Ok(bytes) => {
            let text = said_text(alloc, server, bytes.as_slice())?;
            Ok(Answer::printed(Status::Done, text))
        }
        Err(Fault::Hex) => Err(Refusal {
            fault: Fault::Hex,
            about: Some(hex),
            why: Why::Known("it is not pairs of hexadecimal digits"),
        }),
        Err(fault) => Err(Refusal::from(fault)),
    }
}
