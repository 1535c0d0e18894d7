//! The history of a device of a scenario.
ghost use Rattle.std.specs.Prelude.{◌≡◌, ◌+◌, ◌<◌, ◌++◌, Some, IfOk, OnOk, length};
ghost use Rattle.std.specs.List.{flat_map};
ghost use Rattle.fleet_core.specs.Board.{ShowsAfter};
ghost use Rattle.fleet_core.specs.Run.{step_at};
ghost use Rattle.trace_text.specs.Seconds.{second_at};
ghost use Rattle.command_lint.specs.History.{end_of, history_at, history_of, received_in, sent_by, step_count};

use device_machine::{Device, Event, Output};
use fleet_core::{make_step, start_of_row, step_of};
use octets::Bytes;
use scenario_image::{Scenario, Step};
use server_lint::{Sender, Transmission};
use std::alloc::{AllocError, Global};
use trace_text::Clocks;

/// What went between a device and its servers.
#[derive(Drop)]
pub(crate) struct History {
    /// The datagrams, in their order.
    pub items: Vec<Transmission>,
    /// The second of the device after its last step.
    pub end: u32,
}

/// Bytes that equal these.
fn copy_bytes(bytes: &Bytes) -> Result<Bytes, AllocError>
    ensures { IfOk result (λ b. b ≡ bytes.now) }
{
    bytes.clone()
}

/// Adds what arrives in a step.
fn add_received(
    alloc: Global,
    items: &mut Vec<Transmission>,
    place: u32,
    second: u32,
    step: &Step,
) -> Result<(), AllocError>
    ensures { OnOk result (items.new.items ≡ items.old.items ++ received_in place second step.now) }
{
    match step {
        Step::Event(Event::Recv { server, bytes }) => {
            let bytes = copy_bytes(bytes)?;
            let received = Transmission::new(alloc, place, second, Sender::Server, *server, bytes)?;
            items.push(received)?;
            Ok(())
        }
        Step::Event(Event::Put { .. } | Event::Firmware(_) | Event::Tick(_))
        | Step::Post(_)
        | Step::Need(_, _) => Ok(()),
    }
}

/// Adds what is sent by an output.
fn add_sent(
    alloc: Global,
    items: &mut Vec<Transmission>,
    place: u32,
    second: u32,
    output: &Output,
) -> Result<(), AllocError>
    ensures { OnOk result (items.new.items ≡ items.old.items ++ sent_by place second output.now) }
{
    match output {
        Output::Send { server, bytes } => {
            let bytes = copy_bytes(bytes)?;
            let sent = Transmission::new(alloc, place, second, Sender::Device, *server, bytes)?;
            items.push(sent)?;
            Ok(())
        }
        Output::Act(_) => Ok(()),
    }
}

/// Adds what is sent by outputs.
fn add_outputs(
    alloc: Global,
    items: &mut Vec<Transmission>,
    place: u32,
    second: u32,
    outputs: &[Output],
) -> Result<(), AllocError>
    ensures { OnOk result (items.new.items ≡ items.old.items ++ flat_map (sent_by place second) outputs.now) }
{
    for output in outputs {
        add_sent(alloc, items, place, second, output)?;
    }
    Ok(())
}

/// How many steps a device has.
fn step_count(scenario: &Scenario, device: u16) -> u32
    ensures { result ≡ step_count scenario.now device }
{
    // For the proof alone: a scenario whose rows are counted is known to be valid.
    let _known = scenario.rows();
    match scenario.row(device) {
        None => 0,
        Some((_, steps)) => steps.len() as u32,
    }
}

/// Lets the device make a step of its row, and adds what arrives in it and what the device sends.
fn add_step(
    alloc: Global,
    items: &mut Vec<Transmission>,
    scenario: &Scenario,
    clocks: &mut Clocks,
    machine: &mut Device,
    device: u16,
    place: u32,
) -> Result<(), AllocError>
    requires clocks { clocks.old ≡ scenario.now }
    requires shows { ShowsAfter scenario.now device place machine.old }
    requires within { place < step_count scenario.now device }
    ensures clocks { OnOk result (clocks.new ≡ clocks.old) }
    ensures shows { OnOk result (ShowsAfter scenario.now device (place + 1) machine.new) }
    ensures added { OnOk result (items.new.items ≡ items.old.items ++ history_at scenario.now device place) }
{
    let Some(step) = step_of(scenario, device, place) else {
        unreachable!()
    };
    let outputs = make_step(alloc, scenario, machine, device, place, step)?;
    let second = clocks.second_at(device, place as usize + 1);
    add_received(alloc, items, place, second, step)?;
    add_outputs(alloc, items, place, second, outputs.as_slice())
}

/// The history of a device in all its steps.
pub(crate) fn history_of(
    alloc: Global,
    scenario: &Scenario,
    clocks: &mut Clocks,
    device: u16,
) -> Result<History, AllocError>
    requires clocks { clocks.old ≡ scenario.now }
    requires row { device < length scenario.now.rows }
    ensures clocks { OnOk result (clocks.new ≡ clocks.old) }
    ensures items { IfOk result (λ h. h.items.items ≡ history_of scenario.now device) }
    ensures end { IfOk result (λ h. h.end ≡ end_of scenario.now device) }
{
    let mut machine = start_of_row(scenario, device)?;
    let mut items = Vec::new(alloc);
    let count = step_count(scenario, device);
    for place in 0..count {
        add_step(
            alloc,
            &mut items,
            scenario,
            clocks,
            &mut machine,
            device,
            place,
        )?;
    }
    let end = clocks.second_at(device, count as usize);
    Ok(History { items, end })
}
