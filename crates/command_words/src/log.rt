//! What the lines of a log say.
ghost use Rattle.std.specs.Prelude.{◌≡◌, ◌⊎◌, reverse, IfErr, IfOk, IsErr, OnOk};
ghost use Rattle.std.specs.String.{string_bytes};
ghost use Rattle.hex.specs.Hex.{decode_of};
ghost use Rattle.command_words.specs.Inside.{AreSaid, IsAdded, fault_at};
ghost use Rattle.command_words.specs.Logs.{IsLogFault, IsLogSaid, after_spaces, trimmed_line};

use crate::saying::said_text;
use command_files::{Answer, Fault, Refusal, Status, Why};
use octets::Bytes;
use scenario_asm::TextFault;
use scenario_words::{Cause, next_line};
use std::alloc::Global;

/// The line without the spaces before it.
fn after_spaces(line: &[u8]) -> &[u8]
    ensures { result.now ≡ after_spaces line.now }
{
    let mut left = line;
    while let [b' ', behind @ ..] = left {
        left = behind;
    }
    left
}

/// The line without the spaces at its end.
fn before_spaces(line: &[u8]) -> &[u8]
    ensures { result.now ≡ reverse (after_spaces (reverse line.now)) }
{
    let mut left = line;
    while let [before @ .., b' '] = left {
        left = before;
    }
    left
}

/// The bytes that hex digits spell.
fn datagram_in(alloc: Global, hex: &[u8]) -> Result<Bytes, Fault>
    ensures value { IfOk result (λ bytes. decode_of hex.now ≡ Ok bytes) }
    ensures refused { IfErr result (λ e.
        (e ≡ Fault.Memory) ⊎ ((e ≡ Fault.Hex) × IsErr (decode_of hex.now))) }
{
    Ok(Bytes::from_vec(hex::decode(alloc, hex)?))
}

/// Adds what the datagram of a line says, if the line is not empty.
#[tactic(auto, using(crate::proofs::Logged::added_none, crate::proofs::Logged::added_one))]
fn put_line(alloc: Global, out: &mut String, server: u16, line: &[u8]) -> Result<(), Fault>
    ensures said { OnOk result (IsAdded server line.now (string_bytes out.old) (string_bytes out.new)) }
    ensures refused { IfErr result (λ e.
        (e ≡ Fault.Memory) ⊎ ((e ≡ Fault.Hex) × IsErr (decode_of (trimmed_line line.now)))) }
{
    let hex = before_spaces(after_spaces(line));
    if hex.is_empty() {
        return Ok(());
    }
    let bytes = datagram_in(alloc, hex)?;
    let text = said_text(alloc, server, bytes.as_slice())?;
    out.push_str(text.as_str())?;
    Ok(())
}

/// The fault of a log at a line, counted from 1, which has this fault by itself.
fn at_line(line: usize, fault: Fault) -> Fault
    ensures { result ≡ fault_at line fault }
{
    match fault {
        Fault::Hex => Fault::Text(TextFault {
            line,
            cause: Cause::Token,
            limit: None,
        }),
        _ => Fault::Memory,
    }
}

/// What the lines of a log say, one after another.
#[tactic(auto, using(crate::proofs::Logged::none_yet, crate::proofs::Logged::one_more, crate::proofs::Logged::all_said, crate::proofs::Logged::log_fault))]
fn log_text(alloc: Global, log: &[u8], server: u16) -> Result<String, Fault>
    ensures said { IfOk result (λ t. AreSaid log.now server (string_bytes t)) }
    ensures refused { IfErr result (IsLogFault log.now) }
{
    let mut out = String::new(alloc);
    let mut line = 0;
    let mut left = Some(log);
    while let Some(text) = left {
        let (first, behind) = next_line(text);
        line += 1;
        if let Err(fault) = put_line(alloc, &mut out, server, first) {
            return Err(at_line(line, fault));
        }
        left = behind;
    }
    Ok(out)
}

/// The refusal of a log, with the line that is to blame.
fn refused_log<'a>(alloc: Global, fault: Fault) -> Refusal<'a>
    ensures { result.fault ≡ fault }
{
    let Fault::Text(TextFault { line, .. }) = fault else {
        return Refusal::from(fault);
    };
    let why = match format!(in alloc; "line {line}: it is not pairs of hexadecimal digits") {
        Ok(words) => Why::Made(words),
        Err(_) => Why::Named,
    };
    Refusal {
        fault,
        about: Some("standard input"),
        why,
    }
}

#[tactic(auto, using(crate::proofs::Heard::log_said))]
/// `say - [--server S]` over a log: what `say` says of the datagram of each line that is not empty.
pub fn say_all<'a>(alloc: Global, log: &[u8], server: u16) -> Result<Answer<'a>, Refusal<'a>>
    ensures done { IfOk result (IsLogSaid log.now server) }
    ensures refused { IfErr result (λ r. IsLogFault log.now r.fault) }
{
    match log_text(alloc, log, server) {
        Ok(text) => Ok(Answer::printed(Status::Done, text)),
        Err(fault) => Err(refused_log(alloc, fault)),
    }
}
