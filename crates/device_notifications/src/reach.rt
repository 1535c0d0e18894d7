//! Which values an observation depends on, and what is said after they have changed.

ghost use Rattle.std.specs.Prelude.{◌≡◌, ◌<◌, if◌then◌else◌, length, slice_get, slice_set, OnErr, OnOk, Some, true};
ghost use Rattle.instance_store.specs.Stored.{Stored, is_part, lies_in};
ghost use Rattle.notifier.specs.declared.observation.Observation.{Observation};
ghost use Rattle.device_requests.specs.Client.{with_stored};
ghost use Rattle.device_notifications.specs.Outlooks.{IsKnown, outlook_of};
ghost use Rattle.device_notifications.specs.Reach.{DifferAt, is_of_periods, is_one_reached, is_reached, reaches};

use crate::outlooks::say;
use device_requests::Client;
use notifier::{Observation, Observations};
use object_defs::object_number::{ACCESS_CONTROL, SERVER};
use object_defs::resource_number::{
    DEFAULT_MAXIMUM_PERIOD, DEFAULT_MINIMUM_PERIOD, SHORT_SERVER_ID,
};
use object_defs::{FullPath, Path};
use std::alloc::AllocError;

/// Whether a part is the part of this number.
fn is_part(number: u16, part: Option<u16>) -> bool
    ensures { result ≡ is_part number part }
{
    match part {
        None => false,
        Some(part) => part == number,
    }
}

/// Whether a full path is at or below a path.
fn lies_in(path: Path, full: FullPath) -> bool
    ensures { result ≡ lies_in path full }
{
    match path {
        Path::Object(object) => full.object == object,
        Path::Instance(object, instance) => full.object == object && full.instance == instance,
        Path::Resource(object, instance, resource) => {
            full.object == object && full.instance == instance && full.resource == resource
        }
        Path::Part(object, instance, resource, part) => {
            full.object == object
                && full.instance == instance
                && full.resource == resource
                && is_part(part, full.part)
        }
    }
}

/// Whether periods are found by the value at a full path: it is a Short Server ID, or a default period of Server.
fn is_of_periods(path: FullPath) -> bool
    ensures { result ≡ is_of_periods path }
{
    path.object == SERVER
        && (path.resource == SHORT_SERVER_ID
            || path.resource == DEFAULT_MINIMUM_PERIOD
            || path.resource == DEFAULT_MAXIMUM_PERIOD)
}

/// Whether the value at a full path reaches an observation: it is at or below the observed path, or rights or periods
/// are found by it.
fn reaches(path: FullPath, observation: &Observation) -> bool
    ensures { result ≡ reaches path observation.now }
{
    lies_in(observation.path, path) || path.object == ACCESS_CONTROL || is_of_periods(path)
}

/// Whether one of these values reaches an observation.
fn is_reached(paths: &[FullPath], observation: &Observation) -> bool
    ensures { result ≡ is_reached paths.now observation.now }
{
    paths.iter().any(|path| reaches(*path, observation))
}

/// Whether one of these values reaches the observation at a place.
fn is_reached_at(observations: &Observations, place: usize, paths: &[FullPath]) -> bool
    requires { place < length observations.now.list }
    ensures { (o : Observation) → slice_get observations.now.list place ≡ Some o → result ≡ is_reached paths.now o }
{
    match observations.at(place) {
        None => false,
        Some(observation) => is_reached(paths, observation),
    }
}

/// Says of the observation at a place what its present answer is, and its periods, where one of these values reaches
/// it.
fn say_if_reached(
    client: &Client,
    observations: &mut Observations,
    place: usize,
    paths: &[FullPath],
) -> Result<(), AllocError>
    requires { place < length observations.old.list }
    ensures list { observations.new.list ≡ observations.old.list }
    ensures said { OnOk result ((o : Observation) → slice_get observations.old.list place ≡ Some o
        → observations.new.said ≡ (if is_reached paths.now o
        then slice_set observations.old.said place (outlook_of client.now o) else observations.old.said)) }
    ensures may_lack_memory { OnErr result ((o : Observation) → slice_get observations.old.list place ≡ Some o
        → is_reached paths.now o ≡ true) }
{
    if is_reached_at(observations, place, paths) {
        return say(client, observations, place);
    }
    Ok(())
}

/// Says of each observation that one of these values reaches what its present answer is, and its periods, after these
/// values have changed and no others. The other observations are not read, so there may be no memory for it only where
/// one is reached.
pub fn say_reached(
    client: &Client,
    observations: &mut Observations,
    paths: &[FullPath],
) -> Result<(), AllocError>
    ensures list { observations.new.list ≡ observations.old.list }
    ensures known { OnOk result ((before : Stored) → DifferAt paths.now before client.now.store
        → IsKnown (with_stored client.now before) observations.old → IsKnown client.now observations.new) }
    ensures may_lack_memory { OnErr result (is_one_reached paths.now observations.old.list ≡ true) }
{
    for place in 0..observations.len() {
        say_if_reached(client, observations, place, paths)?;
    }
    Ok(())
}
