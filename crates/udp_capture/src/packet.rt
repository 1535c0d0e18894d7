//! Packets, written at the end of a vector.

ghost use Rattle.std.specs.Prelude.{◌≡◌, ◌++◌, ◌≤◌, length, OnOk, OnErr};
ghost use Rattle.udp_capture.specs.Capture.{file_header, most_payload, packet_record};
ghost use Rattle.udp_capture.specs.Fields.{header_bytes};
ghost use Rattle.udp_capture.specs.Packet.{ip_checksum, sent_checksum, udp_checksum};

use crate::checksum::{checksum_of_sum, sum_of_words};
use crate::envelope::{Endpoint, Envelope};
use crate::header::{FILE_HEADER, ip_header, pseudo_header, record_header, udp_header};
use std::alloc::AllocError;

/// The most bytes that a datagram of UDP carries in a packet of IPv4: 65,535 less the 20 and 8 bytes of their headers.
pub const MOST_PAYLOAD: usize = 65_507;

/// The checksum of the header of a packet of IPv4 of this total length.
fn ip_checksum(total: u16, source: Endpoint, destination: Endpoint) -> u16
    ensures { result ≡ ip_checksum total source destination }
{
    checksum_of_sum(sum_of_words(&ip_header(total, 0, source, destination)))
}

/// How the checksum of a datagram of UDP is sent: a 0 as all ones.
#[tactic(auto, using(crate::proofs::Headers::sent_same))]
fn sent_checksum(check: u16) -> u16
    ensures { result ≡ sent_checksum check }
{
    match check {
        0 => 0xFFFF,
        _ => check,
    }
}

/// The checksum of a datagram of UDP, which covers its addresses too.
fn udp_checksum(source: Endpoint, destination: Endpoint, payload: &[u8]) -> u16
    requires { length payload.now ≤ most_payload }
    ensures { result ≡ udp_checksum source destination payload.now }
{
    let len = 8 + payload.len() as u16;
    let before = sum_of_words(&pseudo_header(len, source, destination));
    let header = sum_of_words(&udp_header(len, 0, source, destination));
    sent_checksum(checksum_of_sum(before + header + sum_of_words(payload)))
}

/// Writes the header of a capture file. Where memory runs out, the vector has the bytes that it had.
#[tactic(auto, unfolding(crate::specs::Capture::file_header))]
pub fn put_file_header(out: &mut Vec<u8>) -> Result<(), AllocError>
    ensures ok { OnOk result (out.new.items ≡ out.old.items ++ header_bytes file_header) }
    ensures err { OnErr result (out.new.items ≡ out.old.items) }
{
    out.extend_from_slice(&FILE_HEADER)
}

/// Writes a packet with its record header: a datagram of UDP with this payload in a packet of IPv4, with the lengths
/// and the checksums of the datagram. Where memory runs out, some of its bytes may have been written.
pub fn put_packet(out: &mut Vec<u8>, envelope: Envelope, payload: &[u8]) -> Result<(), AllocError>
    requires { length payload.now ≤ most_payload }
    ensures { OnOk result (out.new.items ≡ out.old.items
        ++ packet_record (record { envelope = envelope; payload = payload.now })) }
{
    let Envelope {
        source,
        destination,
        ..
    } = envelope;
    let len = 8 + payload.len() as u16;
    let total = 20 + len;
    let in_ip = ip_checksum(total, source, destination);
    let in_udp = udp_checksum(source, destination, payload);
    out.extend_from_slice(&record_header(envelope, total))?;
    out.extend_from_slice(&ip_header(total, in_ip, source, destination))?;
    out.extend_from_slice(&udp_header(len, in_udp, source, destination))?;
    out.extend_from_slice(payload)
}
