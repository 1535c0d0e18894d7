//! A trace as a capture file, which Wireshark, tshark and tcpdump open: each datagram that a device received or sent,
//! as UDP over IPv4. docs/use/files.md has the file in words.
#![tactic(auto)]

mod count;
mod ends;
mod fault;
mod laws;
mod limit;
mod pcap;
mod writer;

pub use count::packet_count;
pub use fault::PcapFault;
pub use laws::{one_trace, packets_have_datagrams, seconds_are_clocks};
pub use pcap::trace_pcap;
