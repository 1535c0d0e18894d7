//! What is said of the observations: what their present answers are, and their periods.

ghost use Rattle.std.specs.Prelude.{◌≡◌, ◌≢◌, ◌<◌, ◌≤◌, [], length, slice_get, slice_set, MatchOption, OnErr, OnOk};
ghost use Rattle.std.specs.Prelude.{IfOk, Some, true};
ghost use Rattle.notifier.specs.Due.{IsFirstDue};
ghost use Rattle.notifier.specs.declared.observation.Observation.{Observation};
ghost use Rattle.notifier.specs.Observed.{has_name};
ghost use Rattle.device_notifications.specs.Outlooks.{AreAtRest, IsKnown, IsKnownBut, content_outlook, outlook_of};
ghost use Rattle.device_notifications.specs.Outlooks.{outlook_with};
ghost use Rattle.device_notifications.specs.Second.{triggers_on};

use crate::period::{pmax_of, pmin_of};
use crate::report::number_at;
use device_requests::Client;
use notifier::{Name, Observation, Observations, Outlook, Pending, Report, triggers};
use object_defs::Path;
use std::alloc::AllocError;

/// Whether content with this payload triggers, compared with the last report of a server's observation of a path.
fn triggers_on(client: &Client, server: u16, path: Path, report: &Report, payload: &[u8]) -> bool
    ensures { result ≡ triggers_on client.now server path report.now payload.now }
{
    let attributes = client.attributes();
    triggers(
        attributes.assigned(server, path, Name::Gt),
        attributes.assigned(server, path, Name::Lt),
        attributes.assigned(server, path, Name::St),
        report,
        number_at(client, path),
        payload,
    )
}

/// That this is pending of a server's observation of a path, and the periods that have effect.
fn outlook_with(client: &Client, server: u16, path: Path, pending: Pending) -> Outlook
    ensures { result ≡ outlook_with client.now server path pending }
{
    Outlook {
        pending,
        pmin: pmin_of(client, server, path),
        pmax: pmax_of(client, server, path),
    }
}

/// What a present answer with this payload is beside this last report of a server's observation of a path.
pub(crate) fn content_outlook(
    client: &Client,
    server: u16,
    path: Path,
    report: &Report,
    payload: &[u8],
) -> Outlook
    ensures { result ≡ content_outlook client.now server path report.now payload.now }
{
    let pending = if triggers_on(client, server, path, report, payload) {
        Pending::Changed
    } else {
        Pending::Idle
    };
    outlook_with(client, server, path, pending)
}

/// What the present answer of an observation is, and its periods.
fn outlook_of(client: &Client, observation: &Observation) -> Result<Outlook, AllocError>
    ensures { IfOk result (λ s. s ≡ outlook_of client.now observation.now) }
{
    let server = observation.server;
    let path = observation.path;
    let answer = client.read(server, path, observation.accept)?;
    if !answer.is_content() {
        return Ok(outlook_with(client, server, path, Pending::Gone(answer.code().byte())));
    }
    Ok(content_outlook(
        client,
        server,
        path,
        &observation.report,
        answer.payload.as_slice(),
    ))
}

/// Says of the observation at a place what its present answer is, and its periods.
pub(crate) fn say(
    client: &Client,
    observations: &mut Observations,
    place: usize,
) -> Result<(), AllocError>
    requires { place < length observations.old.list }
    ensures list { observations.new.list ≡ observations.old.list }
    ensures said { OnOk result ((o : Observation) → slice_get observations.old.list place ≡ Some o
        → observations.new.said ≡ slice_set observations.old.said place (outlook_of client.now o)) }
{
    let Some(observation) = observations.at(place) else {
        return Ok(());
    };
    let outlook = outlook_of(client, observation)?;
    observations.pending(place, outlook.pending, outlook.pmin, outlook.pmax);
    Ok(())
}

/// Says of each observation what its present answer is, and its periods. Each is read anew, so there may be no memory
/// for it where there is one.
pub fn say_all(client: &Client, observations: &mut Observations) -> Result<(), AllocError>
    ensures list { observations.new.list ≡ observations.old.list }
    ensures known { OnOk result (IsKnown client.now observations.new) }
    ensures may_lack_memory { OnErr result (observations.old.list ≢ []) }
{
    for place in 0..observations.len() {
        say(client, observations, place)?;
    }
    Ok(())
}

/// Says of the observation of this server under this token, if there is one, what its present answer is, and its
/// periods. It is for where that is known of the others, as after a registration: they are not read, so there may be no
/// memory for it only where there is one of this name.
pub fn say_named(
    client: &Client,
    observations: &mut Observations,
    server: u16,
    token: &[u8],
) -> Result<(), AllocError>
    requires { IsKnownBut server token.now client.now observations.old }
    ensures list { observations.new.list ≡ observations.old.list }
    ensures known { OnOk result (IsKnown client.now observations.new) }
    ensures may_lack_memory { OnErr result (has_name observations.old.list server token.now ≡ true) }
{
    // For the proof alone: no two observations have one name.
    let _known = observations.len();
    let Some(place) = observations.place_of(server, token) else {
        return Ok(());
    };
    say(client, observations, place)
}

/// The first second after `now`, and not after `end`, at which an observation sends or is removed, by what was said of
/// each.
pub(crate) fn due_within(observations: &Observations, now: u64, end: u64) -> Option<u64>
    ensures { MatchOption result (AreAtRest observations.now.list observations.now.said now end)
        (λ first. IsFirstDue now observations.now.list observations.now.said first × (first ≤ end)) }
{
    if end <= now {
        return None;
    }
    let first = observations.due(now)?;
    if first <= end { Some(first) } else { None }
}
