//! Why the turn of an observation sends something, or ends it.

ghost use Rattle.std.specs.Prelude.{◌≡◌, ◌<◌, length, slice_get, true, Some, MatchOption};
ghost use Rattle.notifier.specs.Resending.{turn_at};
ghost use Rattle.notifier.specs.declared.observation.Observation.{Observation as Seen};
ghost use Rattle.notifier.specs.declared.turn.Turn.TheVariants.{Evaluate, Resend};
ghost use Rattle.device_notifications.specs.Outlooks.{IsKnown, outlook_of};
ghost use Rattle.device_notifications.specs.Second.{age_of};
ghost use Rattle.notification_reasons.specs.Finding.{due_by, reason_by, resent_reason, times_of};
ghost use Rattle.notification_reasons.specs.Finding.{trigger_of};
ghost use Rattle.notification_reasons.specs.Reasons.{IsNotificationReason, DoesNothing};

use crate::reasons::{DueBy, NotificationReason};
use device_notifications::report_of;
use device_requests::Client;
use notifier::{
    Name, Observation, Observations, Outlook, Pending, Report, Trigger, Turn, trigger_in,
};
use octets::Bytes;
use std::alloc::Global;

/// A trigger with both numbers and its bound; the payload, where no number triggers.
fn due_by(
    trigger: Option<Trigger>,
    old: i64,
    now: i64,
    gt: Option<i64>,
    lt: Option<i64>,
    st: Option<i64>,
) -> DueBy
    ensures { result ≡ due_by trigger old now gt lt st }
{
    match (trigger, gt, lt, st) {
        (Some(Trigger::Gt), Some(gt), _, _) => DueBy::Gt { old, now, gt },
        (Some(Trigger::Lt), _, Some(lt), _) => DueBy::Lt { old, now, lt },
        (Some(Trigger::St), _, _, Some(st)) => DueBy::St { old, now, st },
        _ => DueBy::Payload,
    }
}

/// What content that triggers does so by. The present payload takes memory, so it is not looked at: where no number
/// triggers, it does.
fn trigger_of(alloc: Global, client: &Client, observation: &Observation) -> DueBy
    ensures { result ≡ trigger_of client.now observation.now }
{
    let server = observation.server;
    let path = observation.path;
    let report = &observation.report;
    let present = report_of(client, path, Bytes::new(alloc));
    match (report.number, present.number) {
        (Some(old), Some(now)) => {
            let attributes = client.attributes();
            let gt = attributes.assigned(server, path, Name::Gt);
            let lt = attributes.assigned(server, path, Name::Lt);
            let st = attributes.assigned(server, path, Name::St);
            let trigger = trigger_in(gt, lt, st, report, Some(now), &[]);
            due_by(trigger, old, now, gt, lt, st)
        }
        _ => DueBy::Payload,
    }
}

/// Why an observation that is evaluated sends something, if it does.
fn evaluated_reason(
    alloc: Global,
    client: &Client,
    observation: &Observation,
    outlook: Outlook,
    clock: u64,
) -> Option<NotificationReason>
    ensures { result ≡ reason_by outlook (trigger_of client.now observation.now) (age_of clock observation.now) }
{
    if !outlook.is_due(observation.second, clock) {
        return None;
    }
    let age = clock.saturating_sub(observation.second);
    let pmin = outlook.pmin;
    let by = match outlook.pending {
        Pending::Gone(code) => return Some(NotificationReason::Ended { code }),
        Pending::Changed => trigger_of(alloc, client, observation),
        Pending::Idle => DueBy::Pmax {
            pmax: outlook.pmax?,
        },
    };
    Some(NotificationReason::Due { by, age, pmin })
}

/// Which resending comes so many seconds after the first sending.
fn times_of(first: u8, after: u64) -> u8
    ensures { result ≡ times_of first after }
{
    let first = u64::from(first);
    if after == first {
        1
    } else if after == 3 * first {
        2
    } else if after == 7 * first {
        3
    } else {
        4
    }
}

/// Why an observation that is open sends its notification again.
fn resent_reason(observation: &Observation, clock: u64) -> Option<NotificationReason>
    ensures { result ≡ resent_reason observation.now.timer (age_of clock observation.now) }
{
    let Some(timer) = &observation.timer else {
        return None;
    };
    let after = clock.saturating_sub(observation.second);
    let times = times_of(timer.first, after);
    Some(NotificationReason::Resent { times, after })
}

/// Why an observation ends whose notification nobody acknowledged.
fn given_up(observation: &Observation, clock: u64) -> NotificationReason
    ensures { result ≡ NotificationReason.Unacknowledged (age_of clock observation.now) }
{
    let after = clock.saturating_sub(observation.second);
    NotificationReason::Unacknowledged { after }
}

/// Why the observation at a place sends something or ends in the second that the clock shows, or none where it does
/// neither then. What was last said of the observations is what their present answers are, and their periods, as it is
/// in a device; it takes no memory.
pub fn turn_reason(
    alloc: Global,
    client: &Client,
    observations: &Observations,
    place: usize,
    clock: u64,
) -> Option<NotificationReason>
    requires { place < length observations.now.list }
    ensures { IsKnown client.now observations.now → (o : Seen) → slice_get observations.now.list place ≡ Some o
        → MatchOption result (DoesNothing client.now clock o) (IsNotificationReason client.now clock o) }
{
    let observation = observations.at(place)?;
    match observations.turn(place, clock) {
        Turn::Evaluate => {
            let outlook = observations.outlook(place);
            evaluated_reason(alloc, client, observation, outlook, clock)
        }
        Turn::Resend => resent_reason(observation, clock),
        Turn::Wait => None,
        Turn::Expire => Some(given_up(observation, clock)),
    }
}
