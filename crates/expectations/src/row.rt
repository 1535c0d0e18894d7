//! The datagrams that the row of a device receives.
ghost use Rattle.std.specs.Prelude.{◌≡◌, ◌≤◌, ◌++◌, length, IfOk, OnOk};
ghost use Rattle.scenario_image.specs.Layout.{seconds_in};
ghost use Rattle.scenario_image.specs.Scenario.{most_steps};
ghost use Rattle.expectations.specs.Arrivals.{arrivals_from, arrivals_in, arrivals_of, end_of_row, row_of};

use crate::arrival::Arrival;
use coap_codec::message_in;
use device_machine::Event;
use scenario_image::{Scenario, Step};
use std::alloc::{AllocError, Global};

/// A reference to the steps of a device's row, at most 4,096; to none where there is no such row.
fn row_of(scenario: &Scenario, device: u16) -> &[Step]
    ensures steps { result.now ≡ row_of scenario.now device }
    ensures few { length result.now ≤ most_steps }
{
    // For the proof alone: a scenario whose rows are counted is known to be valid.
    let _known = scenario.rows();
    match scenario.row(device) {
        None => &[],
        Some((_, steps)) => steps,
    }
}

/// The seconds that pass in a step.
fn seconds_in(step: &Step) -> u32
    ensures { result ≡ seconds_in step.now }
{
    match step {
        Step::Event(Event::Tick(seconds)) => *seconds,
        Step::Event(Event::Recv { .. } | Event::Put { .. } | Event::Firmware(_))
        | Step::Post(_)
        | Step::Need(_, _) => 0,
    }
}

/// Adds what arrives in a step.
fn add_arrival(
    alloc: Global,
    arrivals: &mut Vec<Arrival>,
    second: u64,
    step: &Step,
) -> Result<(), AllocError>
    ensures { OnOk result (arrivals.new.items ≡ arrivals.old.items ++ arrivals_in second step.now) }
{
    match step {
        Step::Event(Event::Recv { server, bytes }) => {
            let bytes = bytes.clone()?;
            let message = message_in(alloc, bytes.as_slice())?;
            arrivals.push(Arrival {
                second,
                server: *server,
                bytes,
                message,
            })?;
            Ok(())
        }
        Step::Event(Event::Put { .. } | Event::Firmware(_) | Event::Tick(_))
        | Step::Post(_)
        | Step::Need(_, _) => Ok(()),
    }
}

/// The datagrams that arrive in steps, in their order, each in its second; the first step is in second 0. There are no
/// more steps than a row may have, 4,096.
pub fn received_in(alloc: Global, steps: &[Step]) -> Result<Vec<Arrival>, AllocError>
    requires { length steps.now ≤ most_steps }
    ensures { IfOk result (λ v. v.items ≡ arrivals_from 0 steps.now) }
{
    let mut arrivals = Vec::new(alloc);
    let mut second = 0;
    for step in steps {
        add_arrival(alloc, &mut arrivals, second, step)?;
        second += u64::from(seconds_in(step));
    }
    Ok(arrivals)
}

/// The datagrams that the row of a device receives, in their order, each in its second; none where there is no such
/// row.
pub fn arrivals_of(
    alloc: Global,
    scenario: &Scenario,
    device: u16,
) -> Result<Vec<Arrival>, AllocError>
    ensures { IfOk result (λ v. v.items ≡ arrivals_of scenario.now device) }
{
    received_in(alloc, row_of(scenario, device))
}

/// The second of a device after all the steps of its row; 0 where there is no such row.
pub fn end_of_row(scenario: &Scenario, device: u16) -> u64
    ensures { result ≡ end_of_row scenario.now device }
{
    let mut second = 0;
    let steps = row_of(scenario, device);
    for step in steps {
        second += u64::from(seconds_in(step));
    }
    second
}
