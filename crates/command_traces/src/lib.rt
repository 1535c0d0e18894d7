//! `show` and `pcap`: the trace of a run, as text or JSON Lines, and as a capture of packets.
#![tactic(auto)]

mod form;
mod traces;

pub use form::TraceForm;
pub use traces::{pcap, show};
