//! Datagrams of UDP over IPv4 in a capture file, which Wireshark, tshark and tcpdump open. docs/use/files.md has the
//! file in words.
#![tactic(auto)]

mod checksum;
mod envelope;
mod header;
mod laws;
mod packet;

pub use envelope::{Endpoint, Envelope};
pub use laws::{known_checksum, one_capture, sums_are_all_ones};
pub use packet::{MOST_PAYLOAD, put_file_header, put_packet};
