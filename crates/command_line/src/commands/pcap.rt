//! The words of `pcap`.
use crate::argument::{Argument, ArgumentKind, Subcommand, arguments};

pub(crate) const COMMAND: Subcommand = Subcommand {
    name: "pcap",
    about: "Writes the datagrams of a run as a capture of packets",
    arguments: &arguments! {
        "IMAGE" Needed: "The scenario that was run, as an image";
        "TRACE" Needed: "The trace file of the run";
        "OUT" Needed: "Where the capture goes";
    },
    below: "\
Reads IMAGE, and then TRACE. Writes OUT, which is replaced where it exists: a capture of packets, with
the datagrams that arrived at the devices and those that they sent, for programs that read pcap files.
Then prints how many there are. Where the trace is not a run of the scenario, writes nothing, and prints
the least place, from 0, at which it is not (status 3):
  ok N packets
  not a run at N

Example:
  lwbench pcap reader.image reader.trace reader.pcap
  ok 2 packets",
};
