//! How many packets a trace has.

ghost use Rattle.std.specs.Prelude.{◌≡◌, ◌^◌, ◌≤◌, ℕ, length};
ghost use Rattle.std.specs.List.{flat_map};
ghost use Rattle.std.specs.Option.{option_copied};
ghost use Rattle.trace_pcap.specs.Packets.{trace_packets};
ghost use Rattle.trace_pcap.specs.Transmissions.{arrival, entry_transmissions, sending, transmissions};

use device_machine::{Event, Output};
use fleet_core::step_of;
use scenario_image::{Scenario, Step};
use trace_file::Entry;

fn arrival_count(step: Option<&Step>) -> usize
    ensures count { (second : ℕ) (device : ℕ) → result ≡ length (arrival second device (option_copied step.entry)) }
    ensures bound { result ≤ 1 }
{
    match step {
        Some(Step::Event(Event::Recv { .. })) => 1,
        Some(
            Step::Event(Event::Put { .. } | Event::Firmware(_) | Event::Tick(_))
            | Step::Post(_)
            | Step::Need(_, _),
        )
        | None => 0,
    }
}

fn sending_count(output: &Output) -> usize
    ensures count { (second : ℕ) (device : ℕ) → result ≡ length (sending second device output.now) }
    ensures bound { result ≤ 1 }
{
    match output {
        Output::Send { .. } => 1,
        Output::Act(_) => 0,
    }
}

/// How many datagrams the outputs have, at most one each.
fn sendings_count(outputs: &[Output]) -> usize
    ensures count { (second : ℕ) (device : ℕ) → result ≡ length (flat_map (sending second device) outputs.now) }
    ensures bound { result ≤ length outputs.now }
{
    let mut count: usize = 0;
    for output in outputs {
        count += sending_count(output);
    }
    count
}

/// How many datagrams an entry has.
fn entry_count(scenario: &Scenario, entry: &Entry) -> u128
    ensures count { result ≡ length (entry_transmissions scenario.now entry.now) }
    ensures bound { result ≤ 2 ^ 64 }
{
    let arrived = arrival_count(step_of(scenario, entry.device, entry.step));
    let sent = sendings_count(entry.outputs.as_slice());
    arrived as u128 + sent as u128
}

fn transmission_count(scenario: &Scenario, entries: &[Entry]) -> u128
    ensures { result ≡ length (transmissions scenario.now entries.now) }
{
    let mut count: u128 = 0;
    for entry in entries {
        count += entry_count(scenario, entry);
    }
    count
}

/// How many packets the capture file of these entries has.
#[tactic(auto, using(crate::proofs::Counted::packets_for))]
pub fn packet_count(scenario: &Scenario, entries: &[Entry]) -> u128
    ensures { result ≡ length (trace_packets scenario.now entries.now) }
{
    transmission_count(scenario, entries)
}
