//! The seconds of devices, by the ticks of their rows.

ghost use Rattle.std.specs.Prelude.{◌≡◌, ◌≤◌, ◌<◌, ◌^◌, take, true, length, slice_get};
ghost use Rattle.std.specs.List.{sum_by};
ghost use Rattle.fleet_core.specs.Run.{steps_in};
ghost use Rattle.trace_text.specs.Clocks.{IsClock};
ghost use Rattle.trace_text.specs.Seconds.{step_seconds};

use device_machine::Event;
use scenario_image::{Scenario, Step};

/// A place in a device's row, and the device's second there.
#[derive(Clone, Copy)]
pub(crate) struct Clock {
    /// How many steps are before the place.
    pub place: usize,
    /// The seconds that these take together.
    pub second: u32,
}

/// The beginning of a row.
pub(crate) const START: Clock = Clock {
    place: 0,
    second: 0,
};

/// The seconds that pass in a step.
fn step_seconds(step: &Step) -> u32
    ensures { result ≡ step_seconds step.now }
{
    match step {
        Step::Event(Event::Tick(seconds)) => *seconds,
        Step::Event(Event::Recv { .. } | Event::Put { .. } | Event::Firmware(_))
        | Step::Post(_)
        | Step::Need(_, _) => 0,
    }
}

/// A reference to the steps of a device's row; to none where there is no such row. They take less than 2^32 seconds
/// together.
pub(crate) fn row_steps(scenario: &Scenario, device: u16) -> &[Step]
    ensures steps { result.now ≡ steps_in (slice_get scenario.now.rows device) }
    ensures seconds { sum_by step_seconds result.now < 2 ^ 32 }
{
    // For the proof alone: a scenario whose rows are counted is known to be valid.
    let _known = scenario.rows();
    match scenario.row(device) {
        None => &[],
        Some((_, steps)) => steps,
    }
}

/// The second at a place of a row, from the clock at that place or an earlier one.
fn second_from(clock: Clock, steps: &[Step], place: usize) -> u32
    requires is { IsClock steps.now clock }
    requires order { clock.place ≤ place }
    requires within { place ≤ length steps.now }
    requires room { sum_by step_seconds steps.now < 2 ^ 32 }
    ensures { result ≡ sum_by step_seconds (take place steps.now) }
{
    let mut second = clock.second;
    for at in clock.place..place {
        second += step_seconds(&steps[at]);
    }
    second
}

/// The same from the clock at any place: where that is a later one, the row is looked at from its beginning.
fn second_of(clock: Clock, steps: &[Step], place: usize) -> u32
    requires is { IsClock steps.now clock }
    requires within { place ≤ length steps.now }
    requires room { sum_by step_seconds steps.now < 2 ^ 32 }
    ensures { result ≡ sum_by step_seconds (take place steps.now) }
{
    if clock.place <= place {
        second_from(clock, steps, place)
    } else {
        second_from(START, steps, place)
    }
}

/// The place of the step of this number; the end of the row where that has fewer steps.
fn place_of(steps: &[Step], step: usize) -> usize
    ensures within { result ≤ length steps.now }
    ensures same { take result steps.now ≡ take step steps.now }
{
    if step < steps.len() {
        step
    } else {
        steps.len()
    }
}

/// The clock before the step of this number, or at the end of the row where that has fewer steps, from another clock of
/// the row.
pub(crate) fn clock_before(clock: Clock, steps: &[Step], step: usize) -> Clock
    requires is { IsClock steps.now clock }
    requires room { sum_by step_seconds steps.now < 2 ^ 32 }
    ensures clock { IsClock steps.now result }
    ensures second { result.second ≡ sum_by step_seconds (take step steps.now) }
{
    let place = place_of(steps, step);
    Clock {
        place,
        second: second_of(clock, steps, place),
    }
}
