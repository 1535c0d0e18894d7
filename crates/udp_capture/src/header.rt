//! The headers of a captured packet, field by field.

ghost use Rattle.std.specs.Prelude.{◌≡◌};
ghost use Rattle.udp_capture.specs.Capture.{record_header};
ghost use Rattle.udp_capture.specs.Fields.{header_bytes};
ghost use Rattle.udp_capture.specs.Packet.{ip_header, pseudo_header, udp_header};

use crate::envelope::{Endpoint, Envelope};

/// The header of the file.
pub(crate) const FILE_HEADER: [u8; 24] = [
    0xA1, 0xB2, 0xC3, 0xD4, 0, 2, 0, 4, 0, 0, 0, 0, 0, 0, 0, 0, 0, 0, 0xFF, 0xFF, 0, 0, 0, 101,
];

/// The header of a packet of this length.
#[tactic(auto, unfolding(crate::specs::Capture::record_header))]
pub(crate) fn record_header(envelope: Envelope, len: u16) -> [u8; 16]
    ensures { result ≡ header_bytes (record_header envelope len) }
{
    let [s0, s1, s2, s3] = envelope.seconds.to_be_bytes();
    let [m0, m1, m2, m3] = envelope.microseconds.to_be_bytes();
    let [len0, len1] = len.to_be_bytes();
    [
        s0, s1, s2, s3, m0, m1, m2, m3, 0, 0, len0, len1, 0, 0, len0, len1,
    ]
}

/// The header of a packet of IPv4 of this total length, with this checksum.
#[tactic(auto, unfolding(crate::specs::Packet::ip_header))]
pub(crate) fn ip_header(total: u16, check: u16, source: Endpoint, destination: Endpoint) -> [u8; 20]
    ensures { result ≡ header_bytes (ip_header total check source destination) }
{
    let [total0, total1] = total.to_be_bytes();
    let [check0, check1] = check.to_be_bytes();
    let [s0, s1, s2, s3] = source.address.to_be_bytes();
    let [d0, d1, d2, d3] = destination.address.to_be_bytes();
    [
        0x45, 0, total0, total1, 0, 0, 0x40, 0, 64, 17, check0, check1, s0, s1, s2, s3, d0, d1, d2,
        d3,
    ]
}

/// What the checksum of a datagram of UDP of this length covers before its header.
#[tactic(auto, unfolding(crate::specs::Packet::pseudo_header))]
pub(crate) fn pseudo_header(len: u16, source: Endpoint, destination: Endpoint) -> [u8; 12]
    ensures { result ≡ header_bytes (pseudo_header len source destination) }
{
    let [s0, s1, s2, s3] = source.address.to_be_bytes();
    let [d0, d1, d2, d3] = destination.address.to_be_bytes();
    let [len0, len1] = len.to_be_bytes();
    [s0, s1, s2, s3, d0, d1, d2, d3, 0, 17, len0, len1]
}

/// The header of a datagram of UDP of this length, with this checksum.
#[tactic(auto, unfolding(crate::specs::Packet::udp_header))]
pub(crate) fn udp_header(len: u16, check: u16, source: Endpoint, destination: Endpoint) -> [u8; 8]
    ensures { result ≡ header_bytes (udp_header len check source destination) }
{
    let [s0, s1] = source.port.to_be_bytes();
    let [d0, d1] = destination.port.to_be_bytes();
    let [len0, len1] = len.to_be_bytes();
    let [check0, check1] = check.to_be_bytes();
    [s0, s1, d0, d1, len0, len1, check0, check1]
}
