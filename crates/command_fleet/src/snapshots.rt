//! Snapshots of a session: what has happened so far, saved each minute.
ghost use Rattle.std.specs.Prelude.{◌≡◌, ◌+◌, ◌≤◌, ◌↔◌, IsTrue, IfErr, IfOk, OnErr, OnOk, option_map};
ghost use Rattle.std.specs.String.{string_bytes};
ghost use Rattle.fleet_link.specs.Saved.{IsSaved};
ghost use Rattle.scenario_image.specs.Image.{IsImageIn};
ghost use Rattle.scenario_image.specs.Scenario.{Scenario as ScenarioData};
ghost use Rattle.command_files.specs.World.{OnlyMakes};
ghost use Rattle.command_fleet.specs.Fleet.{IsSaveFault, IsSavedAt, IsUnfit};
ghost use Rattle.command_fleet.specs.Inside.{IsKeptUp, IsKeptUpAt, IsNotKeptUp};
ghost use Rattle.command_fleet.specs.Snapshots.{snapshot_path};

use command_files::{Fault, NewFile, Refusal, Why, World, image_file, make};
use fleet_link::Fleet;
use scenario_image::Scenario;
use std::alloc::{AllocError, Global};

/// How many seconds pass from a snapshot to the next one.
const SECONDS_BETWEEN: u64 = 60;

/// Where the snapshots of a session go that is to be saved at this path.
fn snapshot_path(alloc: Global, path: &str) -> Result<String, AllocError>
    ensures { IfOk result (λ text. string_bytes text ≡ snapshot_path path.now) }
{
    format!(in alloc; "{path}.snapshot")
}

/// The image of copies of the devices' steps, for the path.
#[tactic(auto, using(crate::proofs::Sessions::unfit_memory, crate::proofs::Sessions::unfit_step))]
fn copy_file<'a>(
    alloc: Global,
    path: &'a str,
    part: &Scenario,
    fleet: &Fleet,
) -> Result<NewFile<'a>, Fault>
    ensures path { IfOk result (λ f. f.path.now ≡ path.entry.now) }
    ensures image { IfOk result (λ f. (s : ScenarioData) × IsSaved part.now fleet.now.slots.items s
        × IsImageIn 2 f.bytes s) }
    ensures refused { IfErr result IsUnfit }
{
    match fleet.to_scenario(alloc, part) {
        Ok(scenario) => Ok(image_file(alloc, &scenario, path)?),
        Err(fault) => Err(Fault::from(fault)),
    }
}

/// Saves copies of the devices' steps as a scenario.
#[tactic(auto, using(crate::proofs::Sessions::saved_at, crate::proofs::Sessions::not_fit, crate::proofs::Sessions::not_made))]
fn save_copy<'a, W: World>(
    alloc: Global,
    path: &'a str,
    part: &Scenario,
    fleet: &Fleet,
    world: &mut W,
) -> Result<(), Refusal<'a>>
    ensures saved { OnOk result (IsSavedAt (W.seen world.old).made (W.seen world.new).made path.entry.now part.now
        fleet.now.slots.items) }
    ensures kept { OnErr result ((W.seen world.new).made ≡ (W.seen world.old).made) }
    ensures refused { IfErr result (λ r. IsSaveFault W.refuses path.entry.now r.fault) }
    ensures only { OnlyMakes (W.seen world.old) (W.seen world.new) }
{
    let file = copy_file(alloc, path, part, fleet)?;
    make(&Some(file), world)
}

/// Why a snapshot was not made, for people.
fn why_not(alloc: Global, why: Why) -> Why {
    match why {
        Why::Known(words) => match format!(in alloc; "its snapshot: {words}") {
            Ok(made) => Why::Made(made),
            Err(_) => Why::Known(words),
        },
        other => other,
    }
}

/// The refusal of a snapshot of the session that is to be saved at this path.
fn refusal_at<'a>(alloc: Global, path: &'a str, refusal: Refusal) -> Refusal<'a>
    ensures { result.fault ≡ refusal.entry.fault }
{
    Refusal {
        fault: refusal.fault,
        about: Some(path),
        why: why_not(alloc, refusal.why),
    }
}

/// Makes a snapshot, beside the path.
fn take_snapshot<'a, W: World>(
    alloc: Global,
    path: &'a str,
    part: &Scenario,
    fleet: &Fleet,
    world: &mut W,
) -> Result<(), Refusal<'a>>
    ensures saved { OnOk result (IsSavedAt (W.seen world.old).made (W.seen world.new).made
        (snapshot_path path.entry.now)
        part.now fleet.now.slots.items) }
    ensures kept { OnErr result ((W.seen world.new).made ≡ (W.seen world.old).made) }
    ensures refused { IfErr result (λ r. IsSaveFault W.refuses (snapshot_path path.entry.now) r.fault) }
    ensures only { OnlyMakes (W.seen world.old) (W.seen world.new) }
{
    let place = snapshot_path(alloc, path)?;
    match save_copy(alloc, place.as_str(), part, fleet, world) {
        Ok(()) => Ok(()),
        Err(refusal) => Err(refusal_at(alloc, path, refusal)),
    }
}

/// Whether a snapshot is to be made at this second, where the last one was made at that.
fn is_due(last: u64, second: u64) -> bool
    ensures { IsTrue result ↔ (last + 60 ≤ second) }
{
    second.saturating_sub(last) >= SECONDS_BETWEEN
}

/// Makes a snapshot beside the path, if it is due. Returns the second of the last one.
fn keep_up_at<'a, W: World>(
    alloc: Global,
    path: &'a str,
    part: &Scenario,
    fleet: &Fleet,
    last: u64,
    world: &mut W,
) -> Result<u64, Refusal<'a>>
    ensures kept_up { IfOk result (IsKeptUpAt (W.seen world.old).made (W.seen world.new).made path.entry.now part.now
        fleet.now.slots.items last fleet.now.second) }
    ensures none { OnErr result ((W.seen world.new).made ≡ (W.seen world.old).made) }
    ensures due { OnErr result (last + 60 ≤ fleet.now.second) }
    ensures refused { IfErr result (λ r. IsSaveFault W.refuses (snapshot_path path.entry.now) r.fault) }
    ensures only { OnlyMakes (W.seen world.old) (W.seen world.new) }
{
    let second = fleet.second();
    if !is_due(last, second) {
        return Ok(last);
    }
    take_snapshot(alloc, path, part, fleet, world)?;
    Ok(second)
}

/// Makes a snapshot of a session at the end of a turn, if it is to be saved, and 60 seconds or more have passed since
/// the second of the last one. Returns that of the last one then.
pub(crate) fn keep_up<'a, W: World>(
    alloc: Global,
    save: Option<&'a str>,
    part: &Scenario,
    fleet: &Fleet,
    last: u64,
    world: &mut W,
) -> Result<u64, Refusal<'a>>
    ensures kept_up { IfOk result (IsKeptUp (W.seen world.old).made (W.seen world.new).made
        (option_map (λ p. p.now) save.entry) part.now fleet.now.slots.items last fleet.now.second) }
    ensures none { OnErr result ((W.seen world.new).made ≡ (W.seen world.old).made) }
    ensures refused { IfErr result (λ r. IsNotKeptUp W.refuses (option_map (λ p. p.now) save.entry) last
        fleet.now.second r.fault) }
    ensures only { OnlyMakes (W.seen world.old) (W.seen world.new) }
{
    match save {
        None => Ok(last),
        Some(path) => keep_up_at(alloc, path, part, fleet, last, world),
    }
}
