//! The capture file of a trace.

ghost use Rattle.std.specs.Prelude.{◌≡◌, ◌↔◌, false, IfOk, IsErrOf, IsTrue, OnOk};
ghost use Rattle.std.specs.List.{list_any};
ghost use Rattle.udp_capture.specs.Capture.{IsCapture};
ghost use Rattle.trace_pcap.specs.declared.fault.PcapFault.TheVariants.{TooLong};
ghost use Rattle.trace_pcap.specs.Packets.{has_long, is_long, trace_packets};
ghost use Rattle.trace_pcap.specs.Transmissions.{entry_transmissions, transmissions};
ghost use Rattle.trace_pcap.specs.Written.{AreWritten};

use crate::fault::PcapFault;
use crate::limit::has_long;
use crate::writer::Writer;
use fleet_core::step_of;
use octets::Bytes;
use scenario_image::Scenario;
use std::alloc::{AllocError, Global};
use trace_file::Entry;
use trace_text::Clocks;
use udp_capture::put_file_header;

/// Writes the datagrams of an entry. Where memory runs out, some of their bytes may have been written.
fn put_entry(
    writer: &mut Writer,
    clocks: &mut Clocks,
    scenario: &Scenario,
    entry: &Entry,
) -> Result<(), AllocError>
    requires clocks { clocks.old ≡ scenario.now }
    requires short { list_any is_long (entry_transmissions scenario.now entry.now) ≡ false }
    ensures written { OnOk result (AreWritten writer.old writer.new (entry_transmissions scenario.now entry.now)) }
    ensures same { clocks.new ≡ clocks.old }
{
    let second = clocks.second_at(entry.device, entry.step as usize + 1);
    let step = step_of(scenario, entry.device, entry.step);
    writer.put_arrival(second, entry.device, step)?;
    writer.put_outputs(second, entry.device, entry.outputs.as_slice())?;
    Ok(())
}

/// Writes the datagrams of entries, in their order. Where memory runs out, some of their bytes may have been written.
fn put_entries(
    alloc: Global,
    writer: &mut Writer,
    scenario: &Scenario,
    entries: &[Entry],
) -> Result<(), AllocError>
    requires { has_long scenario.now entries.now ≡ false }
    ensures { OnOk result (AreWritten writer.old writer.new (transmissions scenario.now entries.now)) }
{
    let mut clocks = Clocks::new(alloc, scenario)?;
    for entry in entries {
        put_entry(writer, &mut clocks, scenario, entry)?;
    }
    Ok(())
}

/// The capture file of entries of a scenario, in any order: a packet for each datagram, first the one that arrives in
/// an entry's step, from its server to the device, then each that the device sends. The time of a packet is the second
/// of the device's clock after the step; its microseconds are the number of packets before it in the file, up to
/// 999,999.
///
/// `TooLong` comes exactly where a datagram has more than 65,507 bytes, and before memory is taken.
pub fn trace_pcap(alloc: Global, scenario: &Scenario, entries: &[Entry]) -> Result<Bytes, PcapFault>
    ensures written { IfOk result (λ b. IsCapture b (trace_packets scenario.now entries.now)) }
    ensures refused { IsErrOf result TooLong ↔ IsTrue (has_long scenario.now entries.now) }
{
    if has_long(scenario, entries) {
        return Err(PcapFault::TooLong);
    }
    let mut writer = Writer {
        out: Vec::new(alloc),
        microseconds: 0,
    };
    put_file_header(&mut writer.out)?;
    put_entries(alloc, &mut writer, scenario, entries)?;
    Ok(Bytes::from_vec(writer.out))
}
