//! Whether it is settled what servers have to send, so that a session may end.
ghost use Rattle.std.specs.Prelude.{[], IfOk, IsTrue};
ghost use Rattle.std.specs.List.{All};
ghost use Rattle.command_fleet.specs.Settling.{AreFew, AreSettled, IsCaseSettled, IsDeviceSettled, IsFew};

use crate::asking::Quit;
use expectations::{Arrival, ExpectedCase, is_settled, received_in};
use fleet_link::{Fleet, Slot};
use std::alloc::{AllocError, Global};

/// How many steps a row of a scenario may have.
const MOST_STEPS: usize = 4096;

/// Whether no later datagram changes whether a case is met, by those up to this second.
fn is_case_settled(
    alloc: Global,
    case: &ExpectedCase,
    arrivals: &[Arrival],
    second: u64,
) -> Result<bool, AllocError>
    ensures settled { IfOk result (λ b. IsTrue b → IsCaseSettled arrivals.now second case.now) }
    ensures all { IfOk result (λ b. IsCaseSettled arrivals.now second case.now → IsTrue b) }
{
    is_settled(alloc, case.lines.as_slice(), arrivals, second)
}

/// The same of each case.
fn are_cases_settled(
    alloc: Global,
    goal: &[ExpectedCase],
    arrivals: &[Arrival],
    second: u64,
) -> Result<bool, AllocError>
    ensures settled { IfOk result (λ b. IsTrue b → All (IsCaseSettled arrivals.now second) goal.now) }
    ensures all { IfOk result (λ b. All (IsCaseSettled arrivals.now second) goal.now → IsTrue b) }
{
    for case in goal {
        if !is_case_settled(alloc, case, arrivals, second)? {
            return Ok(false);
        }
    }
    Ok(true)
}

/// The same of each case, for a device. It is not, if more steps are recorded than a row may have.
fn is_device_settled(
    alloc: Global,
    goal: &[ExpectedCase],
    second: u64,
    slot: &Slot,
) -> Result<bool, AllocError>
    ensures settled { IfOk result (λ b. IsTrue b → IsDeviceSettled goal.now second slot.now) }
    ensures all { IsFew slot.now → IfOk result (λ b. IsDeviceSettled goal.now second slot.now → IsTrue b) }
{
    let steps = slot.steps();
    if steps.len() > MOST_STEPS {
        return Ok(false);
    }
    let arrivals = received_in(alloc, steps)?;
    are_cases_settled(alloc, goal, arrivals.as_slice(), second)
}

/// The same of all devices.
pub(crate) fn are_settled(
    alloc: Global,
    goal: &[ExpectedCase],
    second: u64,
    slots: &[Slot],
) -> Result<bool, AllocError>
    ensures settled { IfOk result (λ b. IsTrue b → AreSettled goal.now second slots.now) }
    ensures all { AreFew slots.now → IfOk result (λ b. AreSettled goal.now second slots.now → IsTrue b) }
{
    for slot in slots {
        if !is_device_settled(alloc, goal, second, slot)? {
            return Ok(false);
        }
    }
    Ok(true)
}

/// What asks a session to end: something else does, or there is something that servers have to send, and it is settled.
#[derive(Drop)]
pub(crate) struct UntilSettled<Q: Quit + Drop> {
    alloc: Global,
    quit: Q,
    /// The second from which on it is looked at next.
    next: u64,
    asked: bool,
}

impl<Q: Quit + Drop> UntilSettled<Q> {
    /// It asks for the end if the other does, or once what servers have to send is settled.
    pub(crate) fn new(alloc: Global, quit: Q) -> UntilSettled<Q> {
        UntilSettled {
            alloc,
            quit,
            next: 0,
            asked: false,
        }
    }

    /// Whether there is something to send, and it is settled, as far as memory is left to tell; asked once a second.
    fn is_settled(&mut self, fleet: &Fleet, goal: &[ExpectedCase]) -> bool
        ensures { IsTrue result → AreSettled goal.now fleet.now.second fleet.now.slots.items }
    {
        let second = fleet.second();
        if goal.is_empty() || second < self.next {
            return false;
        }
        self.next = second.saturating_add(1);
        match are_settled(self.alloc, goal, second, fleet.devices()) {
            Ok(settled) => settled,
            Err(_) => false,
        }
    }
}

impl<Q: Quit + Drop> Quit for UntilSettled<Q> {
    ghost asked = { λ until. until.asked };

    fn asks(&mut self, fleet: &Fleet, goal: &[ExpectedCase]) -> bool {
        if !self.asked {
            self.asked = self.quit.asks(fleet, goal) || self.is_settled(fleet, goal);
        }
        self.asked
    }
}
