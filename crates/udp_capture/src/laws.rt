//! What follows from the definitions, for their readers. The calls do nothing; their contracts are the laws.

ghost use Rattle.std.specs.Prelude.{◌≡◌, List, ℕ};
ghost use Rattle.udp_capture.specs.Checksum.{ones_sum, sixteen_bit_words};
ghost use Rattle.udp_capture.specs.Fields.{header_bytes};
ghost use Rattle.udp_capture.specs.Packet.{ip_checksum, ip_header, total_length, udp_checksum, udp_covered};
ghost use Rattle.udp_capture.specs.Capture.{CapturedPacket, FitsPacket, IsCapture};

/// The bytes of a capture file are those of one list of packets: times, addresses, ports and payloads.
pub fn one_capture()
    ensures { (bytes : List ℕ) (packets : List CapturedPacket) (others : List CapturedPacket) → IsCapture bytes packets
        → IsCapture bytes others → packets ≡ others }
{}

/// In every packet the one's complement sum of the header of IPv4 is FFFF, and so is that of what the checksum of UDP
/// covers, the checksum among the words (RFC 1071 section 1): so a receiver finds both right.
pub fn sums_are_all_ones()
    ensures ip { (p : CapturedPacket) → FitsPacket p → ones_sum (sixteen_bit_words
        (header_bytes (ip_header (total_length p.payload)
        (ip_checksum (total_length p.payload) p.envelope.source p.envelope.destination)
        p.envelope.source p.envelope.destination))) ≡ 0xFFFF }
    ensures udp { (p : CapturedPacket) → FitsPacket p → ones_sum (sixteen_bit_words
        (udp_covered (udp_checksum p.envelope.source p.envelope.destination p.payload)
        p.envelope.source p.envelope.destination p.payload)) ≡ 0xFFFF }
{}

/// The checksum of a header that textbooks work out, of 115 bytes from 192.168.0.1 to 192.168.0.199: it is B861.
pub fn known_checksum()
    ensures { ip_checksum 115 (record { address = 0xC0A80001; port = 0 }) (record { address = 0xC0A800C7; port = 0 })
        ≡ 0xB861 }
{}
