//! Where breakpoints hold, and the first stop by them.

ghost use Rattle.std.specs.Prelude.{◌≡◌, ◌+◌, ◌^◌, ◌<◌, ◌≤◌, ◌↔◌, IsTrue, false, length, take, IfOk, IfSome, IfNone};
ghost use Rattle.std.specs.List.{list_any};
ghost use Rattle.std.specs.Option.{option_copied};
ghost use Rattle.fleet_core.specs.Run.{IsRun};
ghost use Rattle.debugger.specs.Stops.{is_send, has_code, is_tick_event, is_tick, Holds};
ghost use Rattle.debugger.specs.Searches.{marks, AreWatched, IsWatching, AreWatching, IsStill, AreStill};
ghost use Rattle.debugger.specs.Searches.{IsHeld, AreSilent, IsStopBy};

use crate::breaks::{Break, Stop, StopAt};
use crate::changes::changes_after;
use crate::points::Numbered;
use crate::watches::{Watch, change_in, step_watched};
use device_machine::{Device, Event, Output};
use fleet_core::step_of;
use scenario_image::{Scenario, Step};
use std::alloc::{AllocError, Global};
use trace_file::Entry;

fn is_send(output: &Output) -> bool
    ensures { result ≡ is_send output.now }
{
    match output {
        Output::Send { .. } => true,
        Output::Act(_) => false,
    }
}

fn has_code(output: &Output, code: u8) -> bool
    ensures { result ≡ has_code code output.now }
{
    match output {
        Output::Send { server: _, bytes } => {
            let bytes = bytes.as_slice();
            1 < bytes.len() && bytes[1] == code
        }
        Output::Act(_) => false,
    }
}

fn sends(outputs: &[Output]) -> bool
    ensures { result ≡ list_any is_send outputs.now }
{
    outputs.iter().any(|output| is_send(output))
}

fn sends_code(outputs: &[Output], code: u8) -> bool
    ensures { result ≡ list_any (has_code code) outputs.now }
{
    outputs.iter().any(|output| has_code(output, code))
}

fn is_tick_event(event: &Event) -> bool
    ensures { result ≡ is_tick_event event.now }
{
    match event {
        Event::Recv { .. } | Event::Put { .. } | Event::Firmware(_) => false,
        Event::Tick(_) => true,
    }
}

fn is_tick(step: Option<&Step>) -> bool
    ensures { result ≡ is_tick (option_copied step.entry) }
{
    match step {
        Some(Step::Event(event)) => is_tick_event(event),
        None | Some(Step::Post(_) | Step::Need(_, _)) => false,
    }
}

/// Whether the breakpoint holds after the entry, which is at this index of a run.
fn marks(scenario: &Scenario, entry: &Entry, index: usize, point: &Break) -> bool
    requires { index + 1 < 2 ^ 64 }
    ensures { result ≡ marks scenario.now entry.now index point.now }
{
    match point {
        Break::At(place) => *place == index + 1,
        Break::DeviceStep { device, step } => {
            entry.device == *device && u64::from(entry.step) + 1 == u64::from(*step)
        }
        Break::Changed { .. } => false,
        Break::Code { device, code } => {
            entry.device == *device && sends_code(entry.outputs.as_slice(), *code)
        }
        Break::Notified { device } => {
            entry.device == *device
                && is_tick(step_of(scenario, *device, entry.step))
                && sends(entry.outputs.as_slice())
        }
    }
}

/// Whether the breakpoint holds after the entry at this index, with copies that have made the entry's step.
fn holds_after(
    scenario: &Scenario,
    entries: &[Entry],
    devices: &[Device],
    watched: &[Watch],
    point: &Break,
    index: usize,
) -> bool
    requires run { IsRun scenario.now entries.now }
    requires within { index < length entries.now }
    requires rows { length devices.now ≡ length scenario.now.rows }
    requires watched { AreWatched scenario.now (take (index + 1) entries.now) watched.now }
    requires own { IsWatching watched.now (length devices.now) point.now }
    requires still { IsStill scenario.now entries.now devices.now index point.now }
    ensures holds { IsTrue result ↔ Holds scenario.now entries.now point.now (index + 1) }
    ensures still { result ≡ false → IsStill scenario.now entries.now devices.now (index + 1) point.now }
{
    match change_in(point) {
        None => marks(scenario, &entries[index], index, point),
        Some((device, path)) => changes_after(
            scenario, entries, devices, watched, device, &path, index,
        ),
    }
}

/// The least number of these breakpoints that hold after the entry at this index.
fn first_holding(
    scenario: &Scenario,
    entries: &[Entry],
    devices: &[Device],
    watched: &[Watch],
    points: &[Numbered],
    index: usize,
) -> Option<u8>
    requires run { IsRun scenario.now entries.now }
    requires within { index < length entries.now }
    requires rows { length devices.now ≡ length scenario.now.rows }
    requires watched { AreWatched scenario.now (take (index + 1) entries.now) watched.now }
    requires own { AreWatching watched.now (length devices.now) (length points.now) points.now }
    requires still { AreStill scenario.now entries.now devices.now index points.now }
    ensures held { IfSome result (λ n. IsHeld scenario.now entries.now points.now (index + 1) n) }
    ensures none { IfNone result (AreSilent scenario.now entries.now (index + 1) (length points.now) points.now) }
    ensures still { IfNone result (AreStill scenario.now entries.now devices.now (index + 1) points.now) }
{
    for one in points {
        if holds_after(scenario, entries, devices, watched, &one.point, index) {
            return Some(one.number);
        }
    }
    None
}

/// The first stop after a place, by these breakpoints: one walk along the run, with copies of the devices whose values
/// they watch.
pub(crate) fn first_stop(
    alloc: Global,
    scenario: &Scenario,
    entries: &[Entry],
    devices: &[Device],
    points: &[Numbered],
    mut watched: Vec<Watch>,
    from: usize,
) -> Result<StopAt, AllocError>
    requires run { IsRun scenario.now entries.now }
    requires within { from ≤ length entries.now }
    requires rows { length devices.now ≡ length scenario.now.rows }
    requires watched { AreWatched scenario.now (take from entries.now) watched.items }
    requires own { AreWatching watched.items (length devices.now) (length points.now) points.now }
    requires still { AreStill scenario.now entries.now devices.now from points.now }
    ensures { IfOk result (λ r. IsStopBy scenario.now entries.now points.now from r.stop r.place) }
{
    for index in from..entries.len() {
        step_watched(alloc, scenario, entries, &mut watched, index)?;
        match first_holding(
            scenario,
            entries,
            devices,
            watched.as_slice(),
            points,
            index,
        ) {
            None => {}
            Some(number) => {
                return Ok(StopAt {
                    stop: Stop::Break(number),
                    place: index + 1,
                });
            }
        }
    }
    Ok(StopAt {
        stop: Stop::End,
        place: entries.len(),
    })
}
