//! Whether a trace has a datagram that no packet carries.

ghost use Rattle.std.specs.Prelude.{◌≡◌, length, nat_lt};
ghost use Rattle.std.specs.List.{list_any};
ghost use Rattle.std.specs.Option.{option_copied};
ghost use Rattle.udp_capture.specs.Capture.{most_payload};
ghost use Rattle.trace_pcap.specs.Packets.{has_long, is_long};
ghost use Rattle.trace_pcap.specs.Transmissions.{arrival, entry_transmissions, sending};

use device_machine::{Event, Output};
use fleet_core::step_of;
use scenario_image::{Scenario, Step};
use trace_file::Entry;
use udp_capture::MOST_PAYLOAD;

fn is_long(bytes: &[u8]) -> bool
    ensures { result ≡ nat_lt most_payload (length bytes.now) }
{
    MOST_PAYLOAD < bytes.len()
}

/// Whether a datagram arrives in the step that is so long, whatever the second and the device.
fn has_long_arrival(step: Option<&Step>) -> bool
    ensures { result ≡ list_any is_long (arrival 0 0 (option_copied step.entry)) }
{
    match step {
        Some(Step::Event(Event::Recv { bytes, .. })) => is_long(bytes.as_slice()),
        Some(
            Step::Event(Event::Put { .. } | Event::Firmware(_) | Event::Tick(_))
            | Step::Post(_)
            | Step::Need(_, _),
        )
        | None => false,
    }
}

/// Whether the output is a datagram that is so long, whatever the second and the device.
fn is_long_output(output: &Output) -> bool
    ensures { result ≡ list_any is_long (sending 0 0 output.now) }
{
    match output {
        Output::Send { bytes, .. } => is_long(bytes.as_slice()),
        Output::Act(_) => false,
    }
}

/// Whether one of the outputs is.
fn has_long_output(outputs: &[Output]) -> bool
    ensures { result ≡ list_any (λ o. list_any is_long (sending 0 0 o)) outputs.now }
{
    outputs.iter().any(|output| is_long_output(output))
}

/// Whether a datagram of the entry is.
fn entry_has_long(scenario: &Scenario, entry: &Entry) -> bool
    ensures { result ≡ list_any is_long (entry_transmissions scenario.now entry.now) }
{
    has_long_arrival(step_of(scenario, entry.device, entry.step))
        || has_long_output(entry.outputs.as_slice())
}

/// Whether a datagram of the entries has more bytes than a packet carries.
pub(crate) fn has_long(scenario: &Scenario, entries: &[Entry]) -> bool
    ensures { result ≡ has_long scenario.now entries.now }
{
    for entry in entries {
        if entry_has_long(scenario, entry) {
            return true;
        }
    }
    false
}
