//! A reason in words.

ghost use Rattle.std.specs.Prelude.{◌≡◌, IfOk};
ghost use Rattle.std.specs.String.{string_bytes};
ghost use Rattle.device_machine.specs.State.{Machine as FlatState, Shows};
ghost use Rattle.message_words.specs.Names.{class_and_detail};
ghost use Rattle.device_reasons.specs.Text.{IsReasonLine, arrival_reason_text, empty_reset_text, empty_text};
ghost use Rattle.device_reasons.specs.Text.{malformed_text, no_request_text, not_empty_text, other_text};

use crate::arrival::ArrivalReason;
use crate::deciding::arrival_reason;
use coap_codec::CoapFault;
use device_machine::Device;
use message_words::{class_and_detail, fault_reason};
use request_reasons::reason_text;
use std::alloc::{AllocError, Global};

/// What becomes of an Empty ACK of a message ID that no open notification has.
const IGNORED_ACK: &str =
    "rule 1: an Empty ACK, which is never answered; no open notification has its message ID";

/// What becomes of another Empty ACK.
const CLOSING_ACK: &str =
    "rule 1: an Empty ACK, which is never answered; it closes a confirmable notification with its message ID";

/// What becomes of a repeated CON.
const REPEATED_CON: &str = "rule 2: a repeat of a CON within 247 s: the recorded reply again";

/// What becomes of a repeated NON.
const REPEATED_NON: &str = "rule 2: a repeat of a NON within 145 s: nothing is sent";

/// Bytes that are not a message, and what becomes of them.
fn malformed_text(alloc: Global, fault: CoapFault, what: &str) -> Result<String, AllocError>
    ensures { IfOk result (λ text. string_bytes text ≡ malformed_text fault what.now) }
{
    let fault = fault_reason(fault);
    format!(in alloc; "rule 1: not a message ({fault}), {what}")
}

/// An Empty message of this type, and what becomes of it.
fn empty_text(alloc: Global, kind: &str, what: &str) -> Result<String, AllocError>
    ensures { IfOk result (λ text. string_bytes text ≡ empty_text kind.now what.now) }
{
    format!(in alloc; "rule 1: an Empty {kind}: {what}")
}

/// A message of this type and code that is not a request, and what becomes of it.
fn no_request_text(alloc: Global, kind: &str, code: &str, what: &str) -> Result<String, AllocError>
    ensures { IfOk result (λ text. string_bytes text ≡ no_request_text kind.now code.now what.now) }
{
    format!(in alloc; "rule 1: a {kind} with code {code}, which is not a request: {what}")
}

/// Either, by its code.
fn other_text(alloc: Global, kind: &str, code: u8, what: &str) -> Result<String, AllocError>
    ensures { IfOk result (λ text. string_bytes text ≡ other_text kind.now code what.now) }
{
    if code == 0 {
        return empty_text(alloc, kind, what);
    }
    let code = class_and_detail(alloc, code)?;
    no_request_text(alloc, kind, code.as_str(), what)
}

/// A message of this kind that is not Empty, with its code.
fn written_not_empty(alloc: Global, kind: &str, code: &str) -> Result<String, AllocError>
    ensures { IfOk result (λ text. string_bytes text ≡ not_empty_text kind.now code.now) }
{
    format!(in alloc; "rule 1: {kind} with code {code}, which is not Empty: nothing is sent")
}

/// An ACK or a Reset that is not Empty.
fn not_empty_text(alloc: Global, kind: &str, code: u8) -> Result<String, AllocError>
    ensures { IfOk result (λ text. string_bytes text ≡ not_empty_text kind.now (class_and_detail code)) }
{
    let code = class_and_detail(alloc, code)?;
    written_not_empty(alloc, kind, code.as_str())
}

/// An Empty Reset, which ends this many observations.
fn empty_reset_text(alloc: Global, ended: usize) -> Result<String, AllocError>
    ensures { IfOk result (λ text. string_bytes text ≡ empty_reset_text ended) }
{
    format!(in alloc;
        "rule 1: an Empty Reset, which is never answered; observations that it ends by its message ID: {ended}"
    )
}

/// What decides how a datagram is handled, in words, in one line without its end: the rule by its number, what came,
/// and what the device does; of a request that is not a repeat, what decides its answer.
pub fn arrival_reason_text(alloc: Global, reason: &ArrivalReason) -> Result<String, AllocError>
    ensures { IfOk result (λ text. string_bytes text ≡ arrival_reason_text reason.now) }
{
    match reason {
        ArrivalReason::Stranger { server } => {
            format!(in alloc; "server {server} is not an account of the device")
        }
        ArrivalReason::MalformedCon { fault, .. } => malformed_text(
            alloc,
            *fault,
            "but the header says CON: a Reset with its message ID",
        ),
        ArrivalReason::Malformed { fault } => {
            malformed_text(alloc, *fault, "and no header says CON: nothing is sent")
        }
        ArrivalReason::OtherCon { code, .. } => {
            other_text(alloc, "CON", *code, "a Reset with its message ID")
        }
        ArrivalReason::OtherNon { code } => other_text(alloc, "NON", *code, "nothing is sent"),
        ArrivalReason::EmptyReset { ended, .. } => empty_reset_text(alloc, *ended),
        ArrivalReason::EmptyAck { closes: true, .. } => String::from_str(alloc, CLOSING_ACK),
        ArrivalReason::EmptyAck { closes: false, .. } => String::from_str(alloc, IGNORED_ACK),
        ArrivalReason::OtherAck { code } => not_empty_text(alloc, "an ACK", *code),
        ArrivalReason::OtherReset { code } => not_empty_text(alloc, "a Reset", *code),
        ArrivalReason::RepeatedCon { .. } => String::from_str(alloc, REPEATED_CON),
        ArrivalReason::RepeatedNon { .. } => String::from_str(alloc, REPEATED_NON),
        ArrivalReason::Request { reason } => reason_text(alloc, reason),
    }
}

/// The line that says why a device handles bytes that come from a server as it does; it begins as a comment does. For
/// every flat state that the device shows, it has the words of the condition that decides there.
pub fn reason_line(
    alloc: Global,
    device: &Device,
    server: u16,
    bytes: &[u8],
) -> Result<String, AllocError>
    ensures { (f : FlatState) → Shows device.now f
        → IfOk result (λ line. IsReasonLine f server bytes.now (string_bytes line)) }
{
    let reason = arrival_reason(alloc, device, server, bytes)?;
    let words = arrival_reason_text(alloc, &reason)?;
    format!(in alloc; "    # {words}\n")
}
