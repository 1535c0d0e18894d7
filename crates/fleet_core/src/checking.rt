//! The checker of runs.

ghost use Rattle.std.specs.Prelude.{IfOk};
ghost use Rattle.fleet_core.specs.Verdict.{Judges};

use crate::replay::Replay;
use crate::verdict::Verdict;
use scenario_image::Scenario;
use std::alloc::{AllocError, Global};
use trace_file::Entry;

/// Whether the entries are a run of the scenario, otherwise the least place at which they are not: the entries before
/// it are a run, and with the one at it they are none. No device makes a step past that place.
pub fn check(alloc: Global, scenario: &Scenario, entries: &[Entry]) -> Result<Verdict, AllocError>
    ensures { IfOk result (λ verdict. Judges scenario.now entries.now verdict) }
{
    let mut replay = Replay::new(alloc, scenario)?;
    for (at, entry) in entries.iter().enumerate() {
        if !replay.take(entry)? {
            return Ok(Verdict::NotRun(at));
        }
    }
    Ok(Verdict::Run)
}
