//! The serial run.

ghost use Rattle.std.specs.Prelude.{ℕ, ◌≤◌, List, IfOk};
ghost use Rattle.trace_file.specs.declared.entry.Entry.{Entry};
ghost use Rattle.fleet_core.specs.Run.{IsComplete, IsSerial, IsSame};

use crate::fleet::Fleet;
use crate::roster::{Roster, next_turn, turn_after};
use scenario_image::Scenario;
use std::alloc::{AllocError, Global};
use trace_file::Entries;

/// The most entries that a serial run has room for before its first step: 56 MiB. It takes more only as it goes, by
/// doubling what it has; so a run that stalls early takes no more.
const MOST_FIRST_ROOM: usize = 1_048_576;

/// For how many entries there is room before the first step.
fn first_room(scenario: &Scenario) -> usize
    ensures { result ≤ 1048576 }
{
    let steps = scenario.steps();
    if steps < MOST_FIRST_ROOM {
        steps
    } else {
        MOST_FIRST_ROOM
    }
}

/// The serial run. It is always the turn of the lowest device that is not known to be unable to step: it goes on until
/// it can't, or until a post wakes a lower one. A device is looked at anew only where a post to its group has woken it.
fn serial_entries(alloc: Global, scenario: &Scenario) -> Result<Entries, AllocError>
    ensures { IfOk result (λ es. IsSerial scenario.now es) }
{
    let mut fleet = Fleet::with_room(alloc, scenario, first_room(scenario))?;
    let mut roster = Roster::new(alloc, scenario)?;
    let mut low = 0u16;
    'turns: loop {
        let made = fleet.advance(0, low)?;
        if made.is_none() {
            let Some(next) = next_turn(&fleet, &mut roster, low)? else {
                return Ok(fleet.into_entries());
            };
            low = next;
            continue 'turns;
        }
        low = turn_after(&fleet, &mut roster, made, low)?;
    }
}

/// The serial run of a scenario: always the entry of the lowest device that can step, under worker 0. All complete runs
/// of the scenario are the same, device by device (`same`).
pub fn run_serial(alloc: Global, scenario: &Scenario) -> Result<Entries, AllocError>
    ensures serial { IfOk result (λ es. IsSerial scenario.now es) }
    ensures same { (a : List Entry) (b : List Entry) → IsComplete scenario.now a → IsComplete scenario.now b → (d : ℕ)
        → IsSame d a b }
{
    serial_entries(alloc, scenario)
}
