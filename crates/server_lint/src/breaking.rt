//! Whether a datagram breaks a rule.
ghost use Rattle.std.specs.Prelude.{◌≡◌};
ghost use Rattle.server_lint.specs.Inside.{answers_some, breaks, has_response, is_con_from_server, is_repeated};
ghost use Rattle.server_lint.specs.Inside.{is_registered_while_fresh, is_request_from_server, is_unacknowledged};
ghost use Rattle.server_lint.specs.Inside.{is_unanswered, times_sent_within, was_sent_within, was_used};

use crate::earlier::{has_fresh, has_replied, has_token_of_other, is_answered, is_late};
use crate::observing::{lives, responds, response_to};
use crate::pairs::{answers, is_again_within, is_repeat, reuses_id};
use crate::rule::Rule;
use crate::single::{
    has_empty_segment, has_long_number, has_unknown_option, is_client_error, is_confirmable,
    is_from_server, is_full_reply, is_not_taken, is_registration, is_reply, is_some_request,
};
use crate::transmission::Transmission;

/// Whether the server used its message ID before, for other bytes.
fn was_used(before: &[Transmission], t: &Transmission) -> bool
    ensures { result ≡ was_used before.now t.now }
{
    before.iter().any(|earlier| reuses_id(earlier, t))
}

/// Whether it was sent before, fewer than so many seconds ago.
fn was_sent_within(seconds: u32, before: &[Transmission], t: &Transmission) -> bool
    ensures { result ≡ was_sent_within seconds before.now t.now }
{
    before
        .iter()
        .any(|earlier| is_again_within(seconds, earlier, t))
}

/// How often it was sent before, fewer than so many seconds ago.
pub(crate) fn times_sent_within(seconds: u32, before: &[Transmission], t: &Transmission) -> usize
    ensures { result ≡ times_sent_within seconds before.now t.now }
{
    before
        .iter()
        .filter(|earlier| is_again_within(seconds, earlier, t))
        .count()
}

/// Whether it answers something.
fn answers_some(before: &[Transmission], t: &Transmission) -> bool
    ensures { result ≡ answers_some before.now t.now }
{
    before.iter().any(|earlier| answers(earlier, t))
}

fn is_con_from_server(t: &Transmission) -> bool
    ensures { result ≡ is_con_from_server t.now }
{
    is_from_server(t) && is_confirmable(t)
}

/// Whether it is confirmable, the device sent it for the first time, and nothing answers it.
fn is_unacknowledged(
    before: &[Transmission],
    t: &Transmission,
    after: &[Transmission],
    end: u32,
) -> bool
    ensures { result ≡ is_unacknowledged before.now t.now after.now end }
{
    !is_from_server(t)
        && (is_confirmable(t)
            && (93 <= end.saturating_sub(t.second())
                && (!was_sent_within(247, before, t) && !is_answered(t, after))))
}

/// Whether it was sent before, and that one's lifetime has not elapsed.
fn is_repeated(before: &[Transmission], t: &Transmission) -> bool
    ensures { result ≡ is_repeated before.now t.now }
{
    before.iter().any(|earlier| is_repeat(earlier, t))
}

fn is_request_from_server(t: &Transmission) -> bool
    ensures { result ≡ is_request_from_server t.now }
{
    is_from_server(t) && is_some_request(t)
}

/// Whether the device sent something to a request.
fn has_response(t: &Transmission, after: &[Transmission]) -> bool
    ensures { result ≡ has_response t.now after.now }
{
    after.iter().any(|later| responds(t, later))
}

/// Whether it registers anew while the latest message of the observation is fresh.
fn is_registered_while_fresh(before: &[Transmission], t: &Transmission) -> bool
    ensures { result ≡ is_registered_while_fresh before.now t.now }
{
    is_registration(t) && (!is_repeated(before, t) && has_fresh(t, before))
}

/// Whether it is a request, no repeat, to which the device sent nothing.
fn is_unanswered(before: &[Transmission], t: &Transmission, after: &[Transmission]) -> bool
    ensures { result ≡ is_unanswered before.now t.now after.now }
{
    is_request_from_server(t) && (!is_repeated(before, t) && !has_response(t, after))
}

/// Whether it breaks a rule, among the datagrams before and after it, in a history that ends in this second.
pub(crate) fn breaks(
    rule: Rule,
    before: &[Transmission],
    t: &Transmission,
    after: &[Transmission],
    end: u32,
) -> bool
    ensures { result ≡ breaks rule before.now t.now after.now end }
{
    match rule {
        Rule::NotAMessage => is_from_server(t) && !t.message().is_some(),
        Rule::MessageIdReused => was_used(before, t),
        Rule::RepeatedTooSoon => is_con_from_server(t) && was_sent_within(2, before, t),
        Rule::RepeatedTooOften => is_con_from_server(t) && 4 < times_sent_within(247, before, t),
        Rule::AnswersNothing => is_from_server(t) && (is_reply(t) && !answers_some(before, t)),
        Rule::NotificationNotAcknowledged => is_unacknowledged(before, t, after, end),
        Rule::UnknownCriticalOption => is_from_server(t) && has_unknown_option(t),
        Rule::EmptyPathSegment => is_from_server(t) && has_empty_segment(t),
        Rule::ReplyNotEmpty => is_from_server(t) && is_full_reply(t),
        Rule::AcknowledgedLate => is_from_server(t) && (is_reply(t) && is_late(t, before)),
        Rule::RepeatedAfterReply => is_con_from_server(t) && has_replied(t, before),
        Rule::NumberNotShortest => is_from_server(t) && has_long_number(t),
        Rule::TokenInUse => is_request_from_server(t) && has_token_of_other(t, before),
        Rule::RegisteredWhileFresh => is_registered_while_fresh(before, t),
        Rule::ObservationNotTaken => is_registration(t) && is_not_taken(response_to(t, after)),
        Rule::RequestRefused => {
            is_request_from_server(t) && is_client_error(response_to(t, after))
        }
        Rule::RequestUnanswered => is_unanswered(before, t, after),
        Rule::ObservationLeft => lives(t, after),
    }
}
