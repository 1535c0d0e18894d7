//! What a second does to each observation: it is worked out first, with all that it allocates, and then done, which
//! allocates nothing.

ghost use Rattle.std.specs.Prelude.{◌≡◌, ◌<◌, ◌≤◌, ◌+◌, length, slice_get, IfOk, Some};
ghost use Rattle.notifier.specs.declared.observation.Observation.{Observation};
ghost use Rattle.notifier.specs.declared.pending.Outlook.{Outlook as OutlookModel};
ghost use Rattle.device_notifications.specs.Deeds.{Does, Plans, Replaces, left_by, left_by_all, said_by, said_by_all};
ghost use Rattle.device_notifications.specs.Outlooks.{IsKnown};
ghost use Rattle.device_notifications.specs.Second.{turn_of, turn_of_evaluated};

use crate::evaluation::{Evaluation, judge};
use crate::notification::{datagram_of, next_notification, resend, timer_of};
use crate::outbox::Outbox;
use crate::outlooks::content_outlook;
use crate::report::report_of;
use coap_codec::Kind;
use device_requests::Client;
use notifier::{Observations, Outlook, Report, Timer, Turn};
use std::alloc::{AllocError, Global};

/// What a second does to an observation.
#[derive(Drop)]
pub(crate) enum Deed {
    /// It stays as it is.
    Stays,
    /// It notes a notification.
    Notified {
        /// The message ID.
        mid: u16,
        /// What it reported.
        report: Report,
        /// What it is sent again by, if it is a CON.
        timer: Option<Timer>,
        /// What is said of the observation then.
        outlook: Outlook,
    },
    /// It is removed.
    Goes,
}

/// Evaluates the observation at a place.
fn evaluate(
    alloc: Global,
    client: &Client,
    observations: &Observations,
    clock: u64,
    place: usize,
    outbox: &mut Outbox,
) -> Result<Deed, AllocError>
    requires within { place < length observations.now.list }
    requires known { IsKnown client.now observations.now }
    ensures { IfOk result (λ deed. (o : Observation) → slice_get observations.now.list place ≡ Some o
        → Does client.now clock o (turn_of_evaluated client.now clock outbox.old.next_id o) deed outbox.old
        outbox.new) }
{
    let Some(observation) = observations.at(place) else {
        return Ok(Deed::Stays);
    };
    let said = observations.outlook(place);
    if !said.is_due(observation.second, clock) {
        return Ok(Deed::Stays);
    }
    let mid = outbox.next_id();
    match judge(client, clock, observation)? {
        Evaluation::Quiet => Ok(Deed::Stays),
        Evaluation::Sends(answer) => {
            let datagram = next_notification(alloc, client, observation, mid, &answer)?;
            let timer = timer_of(client, &datagram)?;
            outbox.post(datagram)?;
            let path = observation.path;
            let report = report_of(client, path, answer.payload);
            let payload = report.payload.as_slice();
            let outlook = content_outlook(client, observation.server, path, &report, payload);
            Ok(Deed::Notified {
                mid,
                report,
                timer,
                outlook,
            })
        }
        Evaluation::Gone(answer) => {
            outbox.post(datagram_of(alloc, Kind::Non, observation, mid, None, &answer)?)?;
            Ok(Deed::Goes)
        }
    }
}

/// What the turn of the observation at a place does to it. What it sends goes to the outbox.
fn deed_of(
    alloc: Global,
    client: &Client,
    observations: &Observations,
    clock: u64,
    place: usize,
    outbox: &mut Outbox,
) -> Result<Deed, AllocError>
    requires within { place < length observations.now.list }
    requires known { IsKnown client.now observations.now }
    ensures { IfOk result (λ deed. (o : Observation) → slice_get observations.now.list place ≡ Some o
        → Does client.now clock o (turn_of client.now clock outbox.old.next_id o) deed outbox.old outbox.new) }
{
    match observations.turn(place, clock) {
        Turn::Evaluate => evaluate(alloc, client, observations, clock, place, outbox),
        Turn::Wait => Ok(Deed::Stays),
        Turn::Resend => {
            resend(observations, place, outbox)?;
            Ok(Deed::Stays)
        }
        Turn::Expire => Ok(Deed::Goes),
    }
}

/// What the second that the clock shows does to each observation, in their order. What is sent goes to the outbox.
pub(crate) fn plan(
    alloc: Global,
    client: &Client,
    observations: &Observations,
    clock: u64,
    outbox: &mut Outbox,
) -> Result<Vec<Deed>, AllocError>
    requires { IsKnown client.now observations.now }
    ensures { IfOk result (λ deeds. Plans client.now clock observations.now.list deeds.items outbox.old outbox.new) }
{
    let mut deeds = Vec::with_capacity(alloc, observations.len())?;
    for place in 0..observations.len() {
        deeds.push(deed_of(alloc, client, observations, clock, place, outbox)?)?;
    }
    Ok(deeds)
}

/// Does this to the observation at a place. Returns the place of the next one.
fn carry_out_one(observations: &mut Observations, clock: u64, place: usize, deed: Deed) -> usize
    requires within { place < length observations.old.list }
    requires few { place < 32 }
    ensures next { result ≤ place + 1 }
    ensures list { (o : Observation) → slice_get observations.old.list place ≡ Some o
        → Replaces observations.old.list observations.new.list (left_by clock o deed) place result }
    ensures said { (s : OutlookModel) → slice_get observations.old.said place ≡ Some s
        → Replaces observations.old.said observations.new.said (said_by s deed) place result }
{
    match deed {
        Deed::Stays => place + 1,
        Deed::Notified {
            mid,
            report,
            timer,
            outlook,
        } => {
            observations.sent(place, clock, mid, report, timer);
            observations.pending(place, outlook.pending, outlook.pmin, outlook.pmax);
            place + 1
        }
        Deed::Goes => {
            observations.remove(place);
            place
        }
    }
}

/// Does this to the observations, in their order.
pub(crate) fn carry_out(observations: &mut Observations, clock: u64, deeds: Vec<Deed>)
    requires each { length deeds.items ≡ length observations.old.list }
    requires few { length deeds.items ≤ 32 }
    requires said { length observations.old.said ≡ length observations.old.list }
    ensures list { observations.new.list ≡ left_by_all clock observations.old.list deeds.items }
    ensures said { observations.new.said ≡ said_by_all observations.old.said deeds.items }
{
    let mut place = 0;
    for deed in deeds {
        place = carry_out_one(observations, clock, place, deed);
    }
}
