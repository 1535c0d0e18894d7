//! What a device outputs goes over the wire.
ghost use Rattle.std.specs.Prelude.{◌∷◌, [], ◌++◌, ◌+◌, ◌≤◌, ◌<◌, ◌≡◌, IfErr, IfOk, OnOk, vec_capacity, vec_len};
ghost use Rattle.live_link.specs.Live.{packets_in};
ghost use Rattle.live_link.specs.Serving.{AreCutShort, AreSent};

use crate::packet::Packet;
use crate::session::LiveEnd;
use crate::wire::{Wire, WireFault};
use device_machine::Output;
use std::alloc::{AllocError, Global};

/// Adds a copy of the datagram that an output sends. What a device does beside sending goes over no wire.
fn push_packet(packets: &mut Vec<Packet>, output: &Output) -> Result<(), AllocError>
    ensures { OnOk result (packets.new.items ≡ packets.old.items ++ packets_in (output.now ∷ [])) }
{
    match output {
        Output::Send { server, bytes } => {
            let bytes = bytes.clone()?;
            packets.push(Packet {
                server: *server,
                bytes,
            })?;
            Ok(())
        }
        Output::Act(_) => Ok(()),
    }
}

/// Copies of the datagrams among the outputs, in order.
#[tactic(auto, using(crate::proofs::Sent::packets_more))]
pub(crate) fn packets_of(alloc: Global, outputs: &[Output]) -> Result<Vec<Packet>, AllocError>
    ensures { IfOk result (λ packets. packets.items ≡ packets_in outputs.now) }
{
    let mut packets = Vec::new(alloc);
    for output in outputs {
        push_packet(&mut packets, output)?;
    }
    Ok(packets)
}

/// Sends a datagram, and notes it where the wire took it in.
#[tactic(auto, using(crate::proofs::Sent::one_sent, crate::proofs::Sent::one_failed, crate::proofs::Sent::one_refused))]
fn send_one<W: Wire>(wire: &mut W, sent: &mut Vec<Packet>, packet: Packet) -> Result<(), LiveEnd>
    requires room { vec_len sent.old < vec_capacity sent.old }
    ensures sent { OnOk result (AreSent (packet ∷ []) 0 0 sent.old.items sent.new.items
        (W.told wire.old) (W.told wire.new)) }
    ensures cut { IfErr result (λ end. AreCutShort end (packet ∷ []) sent.old.items sent.new.items
        (W.told wire.old) (W.told wire.new)) }
    ensures len { OnOk result (vec_len sent.new ≡ vec_len sent.old + 1) }
    ensures capacity { vec_capacity sent.new ≡ vec_capacity sent.old }
{
    match wire.send(packet.server, packet.bytes.as_slice()) {
        Ok(()) => {
            sent.push_reserved(packet);
            Ok(())
        }
        Err(WireFault::Failed) => Err(LiveEnd::SendFault),
        Err(WireFault::Memory) => Err(LiveEnd::Memory),
    }
}

/// Sends datagrams, in order, and notes each that the wire took in, for which there is room.
pub(crate) fn send_all<W: Wire>(
    wire: &mut W,
    sent: &mut Vec<Packet>,
    packets: Vec<Packet>,
) -> Result<(), LiveEnd>
    requires room { vec_len sent.old + vec_len packets ≤ vec_capacity sent.old }
    ensures sent { OnOk result (AreSent packets.items 0 0 sent.old.items sent.new.items
        (W.told wire.old) (W.told wire.new)) }
    ensures cut { IfErr result (λ end. AreCutShort end packets.items sent.old.items sent.new.items
        (W.told wire.old) (W.told wire.new)) }
{
    for packet in packets {
        send_one(wire, sent, packet)?;
    }
    Ok(())
}
