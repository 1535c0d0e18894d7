//! What happens to the observations of a device in a tick, and why.

ghost use Rattle.std.specs.Prelude.{◌≡◌, ◌≢◌, ◌+◌, ◌-◌, ◌<◌, ◌≤◌, ◌^◌, ◌++◌, false, Err, IfOk, IfSome, OnOk};
ghost use Rattle.std.specs.Prelude.{MatchOption};
ghost use Rattle.device_machine.specs.declared.event.Event.TheVariants.{Tick};
ghost use Rattle.device_machine.specs.Reactions.{flat_after_seconds, passes_end};
ghost use Rattle.device_machine.specs.State.{Machine as FlatState, Shows};
ghost use Rattle.device_notifications.specs.Outlooks.{IsKnown};
ghost use Rattle.notification_reasons.specs.Happenings.{AreHappenings, AreTickHappenings, IsQuietFor, Tells};

use crate::finding::turn_reason;
use crate::reasons::Happening;
use device_machine::{Device, Event, StepFault};
use device_requests::Client;
use notifier::Observations;
use std::alloc::{AllocError, Global};

/// What observations do in the second that the clock shows, in their order.
fn second_happenings(
    alloc: Global,
    client: &Client,
    observations: &Observations,
    clock: u64,
) -> Result<Vec<Happening>, AllocError>
    ensures { IsKnown client.now observations.now
        → IfOk result (λ v. AreHappenings client.now clock observations.now.list v.items) }
{
    let mut happenings = Vec::new(alloc);
    for place in 0..observations.len() {
        let Some(observation) = observations.at(place) else {
            unreachable!()
        };
        match turn_reason(alloc, client, observations, place, clock) {
            Some(reason) => happenings.push(Happening {
                path: observation.path,
                second: clock,
                reason,
            })?,
            None => {}
        }
    }
    Ok(happenings)
}

/// How many seconds later the device sends or removes something next by itself, if that is within these seconds.
fn next_wait(device: &Device, left: u32) -> Option<u32>
    ensures within { IfSome result (λ wait. (1 ≤ wait) × (wait ≤ left)) }
    ensures quiet { (f : FlatState) → Shows device.now f → f.kept.clock + left < 2 ^ 64
        → MatchOption result (IsQuietFor f left) (λ wait. IsQuietFor f (wait - 1)) }
{
    let due = device.due()?;
    let wait = due.checked_sub(device.clock())?;
    if 0 < wait && wait <= u64::from(left) {
        Some(wait as u32)
    } else {
        None
    }
}

/// Lets this many seconds pass, and adds what happens in the last of them; in those before it nothing does.
fn pass(
    alloc: Global,
    device: &mut Device,
    wait: u32,
    told: &mut Vec<Happening>,
) -> Result<(), StepFault>
    requires { 1 ≤ wait }
    ensures told { (f : FlatState) → Shows device.old f → passes_end f.kept.clock (Tick wait) ≡ false
        → IsQuietFor f (wait - 1) → OnOk result (Tells f wait told.old.items told.new.items) }
    ensures shows { (f : FlatState) → Shows device.old f → OnOk result (Shows device.new (flat_after_seconds f wait)) }
    ensures goes { (f : FlatState) → Shows device.old f → passes_end f.kept.clock (Tick wait) ≡ false
        → result ≢ Err StepFault.Spent }
{
    device.step(&Event::Tick(wait - 1))?;
    let clock = device.clock().saturating_add(1);
    let mut happenings = second_happenings(alloc, device.client(), device.observations(), clock)?;
    told.append(&mut happenings)?;
    device.step(&Event::Tick(1))?;
    Ok(())
}

/// What happens to the observations of a device by themselves in a tick of this many seconds, in its order: for each
/// datagram, and each end without one, the path of its observation, the second, and why. That is proved for every flat
/// state that the device shows, if the tick does not take its clock past the last second; nothing is promised of
/// others. The device stays as it is. It is looked at only in the seconds in which something is due.
pub fn tick_happenings(
    alloc: Global,
    device: &Device,
    count: u32,
) -> Result<Vec<Happening>, AllocError>
    ensures { (f : FlatState) → Shows device.now f → passes_end f.kept.clock (Tick count) ≡ false
        → IfOk result (λ v. AreTickHappenings f count v.items) }
{
    let mut told = Vec::new(alloc);
    match next_wait(device, count) {
        Some(_) => {}
        None => return Ok(told),
    }
    let mut later = device.copy()?;
    let mut passed = 0;
    while let Some(wait) = next_wait(&later, count - passed) {
        match pass(alloc, &mut later, wait, &mut told) {
            Ok(()) => passed += wait,
            Err(StepFault::Memory) => return Err(AllocError),
            Err(StepFault::Spent) => return Ok(told),
        }
    }
    Ok(told)
}
