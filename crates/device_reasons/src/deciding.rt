//! Which condition decides how a datagram is handled.

ghost use Rattle.std.specs.Prelude.{◌≡◌, ◌⊎◌, ℕ, List, true, false, count_by, IfOk, IsOk};
ghost use Rattle.std.specs.List.{list_any};
ghost use Rattle.notifier.specs.Observed.{is_awaited, was_sent};
ghost use Rattle.coap_codec.specs.declared.kind.Kind.TheVariants.{Con, Non};
ghost use Rattle.device_machine.specs.Reactions.{is_request};
ghost use Rattle.device_requests.specs.Client.{has_account};
ghost use Rattle.device_machine.specs.State.{Machine as FlatState, Shows};
ghost use Rattle.device_reasons.specs.declared.arrival.ArrivalReason.TheVariants.{EmptyAck, EmptyReset};
ghost use Rattle.device_reasons.specs.Reasons.{IsArrivalReason, IsMalformed, IsMessage};

use crate::arrival::ArrivalReason;
use coap_codec::{CoapFault, Kind, Message, decode, header};
use device_machine::Device;
use request_reasons::reason;
use std::alloc::{AllocError, Global};

/// Whether a code is a request's.
fn is_request(code: u8) -> bool
    ensures { result ≡ is_request code }
{
    code / 32 == 0 && code != 0
}

/// Why bytes that are not a message are handled so.
fn malformed_reason(fault: CoapFault, bytes: &[u8]) -> ArrivalReason
    ensures { (f : FlatState) (server : ℕ) → IsMalformed f server bytes.now fault
        → IsArrivalReason f server bytes.now result }
{
    match header(bytes) {
        Some((Kind::Con, mid)) => ArrivalReason::MalformedCon { fault, mid },
        Some((Kind::Non | Kind::Ack | Kind::Rst, _)) | None => ArrivalReason::Malformed { fault },
    }
}

/// Why a request is handled so.
fn request_reason(
    alloc: Global,
    device: &Device,
    server: u16,
    message: &Message,
) -> Result<ArrivalReason, AllocError>
    requires kind { (message.now.kind ≡ Con) ⊎ (message.now.kind ≡ Non) }
    requires request { is_request message.now.code ≡ true }
    ensures { (f : FlatState) (bytes : List ℕ) → Shows device.now f
        → IsMessage f server bytes message.now.kind message.now
        → IfOk result (λ r. IsArrivalReason f server bytes r) }
{
    let mid = message.mid();
    if device.is_repeat(server, message) {
        return Ok(match message.kind() {
            Kind::Con => ArrivalReason::RepeatedCon { mid },
            Kind::Non => ArrivalReason::RepeatedNon { mid },
            Kind::Ack | Kind::Rst => unreachable!(),
        });
    }
    let reason = reason(alloc, device.client(), server, message)?;
    Ok(ArrivalReason::Request { reason })
}

/// Why an Empty Reset is handled so.
fn reset_reason(device: &Device, server: u16, mid: u16) -> Result<ArrivalReason, AllocError>
    ensures { IfOk result (λ r. (f : FlatState) → Shows device.now f
        → r ≡ EmptyReset mid (count_by (was_sent server mid) f.kept.observations)) }
{
    let mut observations = device.observations().copy()?;
    let ended = observations.reset(server, mid);
    Ok(ArrivalReason::EmptyReset { mid, ended })
}

/// Why an Empty ACK is handled so.
fn ack_reason(device: &Device, server: u16, mid: u16) -> Result<ArrivalReason, AllocError>
    ensures { IfOk result (λ r. (f : FlatState) → Shows device.now f
        → r ≡ EmptyAck mid (list_any (is_awaited server mid) f.kept.observations)) }
{
    let mut observations = device.observations().copy()?;
    let closes = observations.acknowledge(server, mid);
    Ok(ArrivalReason::EmptyAck { mid, closes })
}

/// Why a message is handled so.
fn message_reason(
    alloc: Global,
    device: &Device,
    server: u16,
    message: &Message,
) -> Result<ArrivalReason, AllocError>
    ensures { (f : FlatState) (bytes : List ℕ) → Shows device.now f
        → IsMessage f server bytes message.now.kind message.now
        → IfOk result (λ r. IsArrivalReason f server bytes r) }
{
    let code = message.code();
    let mid = message.mid();
    match message.kind() {
        Kind::Con | Kind::Non if is_request(code) => {
            request_reason(alloc, device, server, message)
        }
        Kind::Con => Ok(ArrivalReason::OtherCon { code, mid }),
        Kind::Non => Ok(ArrivalReason::OtherNon { code }),
        Kind::Ack if code == 0 => ack_reason(device, server, mid),
        Kind::Ack => Ok(ArrivalReason::OtherAck { code }),
        Kind::Rst if code == 0 => reset_reason(device, server, mid),
        Kind::Rst => Ok(ArrivalReason::OtherReset { code }),
    }
}

/// Why a device handles bytes that come from a server as it does: the first condition of the table of
/// docs/device/requests.md that holds. For every flat state that the device shows, that is the one whose reaction the
/// device has (`reasons_decide`). Nothing changes by the question. Of a spent device nothing is promised.
pub fn arrival_reason(
    alloc: Global,
    device: &Device,
    server: u16,
    bytes: &[u8],
) -> Result<ArrivalReason, AllocError>
    ensures reason { (f : FlatState) → Shows device.now f → IfOk result (λ r. IsArrivalReason f server bytes.now r) }

    // That a server is a stranger takes no memory.
    ensures stranger { (f : FlatState) → Shows device.now f → has_account f.kept.client server ≡ false → IsOk result }
{
    if !device.client().has_account(server) {
        return Ok(ArrivalReason::Stranger { server });
    }
    match decode(alloc, bytes) {
        Ok(message) => message_reason(alloc, device, server, &message),
        Err(CoapFault::Memory) => Err(AllocError),
        Err(fault) => Ok(malformed_reason(fault, bytes)),
    }
}
