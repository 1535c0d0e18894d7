//! Datagrams by themselves, as the text of an entry has them.

ghost use Rattle.std.specs.Prelude.{◌≡◌, IfOk};
ghost use Rattle.std.specs.String.{string_bytes};
ghost use Rattle.trace_text.specs.Datagrams.{arrival_text, sent_text, statement_text};

use crate::lines::{put_said, put_sent};
use crate::steps::{put_received, put_stated};
use std::alloc::{AllocError, Global};

/// Room for the lines of a datagram, which mostly take less.
const USUAL_LENGTH: usize = 256;

/// The lines of a datagram that comes from a server: its words in a scenario's text, its bytes, if these are a
/// mnemonic, and what it says.
pub fn arrival_text(alloc: Global, server: u16, bytes: &[u8]) -> Result<String, AllocError>
    ensures { IfOk result (λ t. string_bytes t ≡ arrival_text server bytes.now) }
{
    let mut out = String::with_capacity(alloc, USUAL_LENGTH)?;
    put_received(alloc, &mut out, server, bytes)?;
    Ok(out)
}

/// The lines of a datagram whose bytes its reader has: its words in a scenario's text, and what it says.
pub fn statement_text(alloc: Global, server: u16, bytes: &[u8]) -> Result<String, AllocError>
    ensures { IfOk result (λ t. string_bytes t ≡ statement_text server bytes.now) }
{
    let mut out = String::with_capacity(alloc, USUAL_LENGTH)?;
    put_stated(alloc, &mut out, server, bytes)?;
    Ok(out)
}

/// The lines of a datagram that is sent to a server: its bytes, and what it says.
pub fn sent_text(alloc: Global, server: u16, bytes: &[u8]) -> Result<String, AllocError>
    ensures { IfOk result (λ t. string_bytes t ≡ sent_text server bytes.now) }
{
    let mut out = String::with_capacity(alloc, USUAL_LENGTH)?;
    put_sent(alloc, &mut out, server, bytes)?;
    put_said(alloc, &mut out, bytes)?;
    Ok(out)
}
