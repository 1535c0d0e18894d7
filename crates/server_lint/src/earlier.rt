//! What a datagram is to the earlier ones, where those in between count too.
ghost use Rattle.std.specs.Prelude.{◌≡◌};
ghost use Rattle.server_lint.specs.Inside.{any_then, has_fresh, has_replied, has_token_of_other, is_again_after_reply};
ghost use Rattle.server_lint.specs.Inside.{is_answered, is_fresh_for, is_late, is_late_answer, is_replied};
ghost use Rattle.server_lint.specs.Inside.{is_token_of_other, times_again_within, was_notified_within};

use crate::observing::{is_sent_within, lives, shares_token};
use crate::pairs::{answers, is_again_within, replies};
use crate::path::shares_path;
use crate::single::is_confirmable;
use crate::transmission::Transmission;

/// Whether something after it answers it.
pub(crate) fn is_answered(t: &Transmission, after: &[Transmission]) -> bool
    ensures { result ≡ is_answered t.now after.now }
{
    after.iter().any(|later| answers(t, later))
}

/// How often it is sent again, fewer than so many seconds later.
fn times_again_within(seconds: u32, t: &Transmission, after: &[Transmission]) -> usize
    ensures { result ≡ times_again_within seconds t.now after.now }
{
    after
        .iter()
        .filter(|again| is_again_within(seconds, t, again))
        .count()
}

/// Whether it answers what the device sent first here and four times again, which nothing answered.
fn is_late_answer(this: &Transmission, first: &Transmission, since: &[Transmission]) -> bool
    ensures { result ≡ is_late_answer this.now first.now since.now }
{
    answers(first, this)
        && (is_confirmable(first)
            && (4 <= times_again_within(247, first, since) && !is_answered(first, since)))
}

/// Whether it answers what the device had sent 5 times.
pub(crate) fn is_late(t: &Transmission, before: &[Transmission]) -> bool
    ensures { result ≡ is_late t.now before.now }
{
    let mut rest = before;
    while let [first, since @ ..] = rest {
        if is_late_answer(t, first, since) {
            return true;
        }
        rest = since;
    }
    false
}

/// Whether the device acknowledges or resets it.
fn is_replied(earlier: &Transmission, since: &[Transmission]) -> bool
    ensures { result ≡ is_replied earlier.now since.now }
{
    since.iter().any(|t| replies(earlier, t))
}

/// Whether it is the earlier one again, which the device has acknowledged or reset since.
fn is_again_after_reply(this: &Transmission, earlier: &Transmission, since: &[Transmission]) -> bool
    ensures { result ≡ is_again_after_reply this.now earlier.now since.now }
{
    is_again_within(247, earlier, this) && is_replied(earlier, since)
}

/// Whether it is an earlier one again that the device has acknowledged or reset since.
pub(crate) fn has_replied(t: &Transmission, before: &[Transmission]) -> bool
    ensures { result ≡ has_replied t.now before.now }
{
    let mut rest = before;
    while let [earlier, since @ ..] = rest {
        if is_again_after_reply(t, earlier, since) {
            return true;
        }
        rest = since;
    }
    false
}

/// Whether it has the token of a registration of another path, whose observation lives.
fn is_token_of_other(
    this: &Transmission,
    registration: &Transmission,
    since: &[Transmission],
) -> bool
    ensures { result ≡ is_token_of_other this.now registration.now since.now }
{
    shares_token(registration, this)
        && (lives(registration, since) && !shares_path(registration, this))
}

/// Whether it has the token of an observation of another path.
pub(crate) fn has_token_of_other(t: &Transmission, before: &[Transmission]) -> bool
    ensures { result ≡ has_token_of_other t.now before.now }
{
    let mut rest = before;
    while let [registration, since @ ..] = rest {
        if is_token_of_other(t, registration, since) {
            return true;
        }
        rest = since;
    }
    false
}

/// Whether the device sent something with the token of a registration, fewer than so many seconds before.
fn was_notified_within(
    seconds: u32,
    registration: &Transmission,
    this: &Transmission,
    since: &[Transmission],
) -> bool
    ensures { result ≡ was_notified_within seconds registration.now this.now since.now }
{
    since
        .iter()
        .any(|t| is_sent_within(seconds, registration, this, t))
}

/// Whether it has token and path of a registration whose observation lives, with a latest message that is fresh.
fn is_fresh_for(this: &Transmission, registration: &Transmission, since: &[Transmission]) -> bool
    ensures { result ≡ is_fresh_for this.now registration.now since.now }
{
    shares_token(registration, this)
        && (lives(registration, since)
            && (shares_path(registration, this)
                && was_notified_within(65, registration, this, since)))
}

/// Whether it has token and path of an observation whose latest message is fresh.
pub(crate) fn has_fresh(t: &Transmission, before: &[Transmission]) -> bool
    ensures { result ≡ has_fresh t.now before.now }
{
    let mut rest = before;
    while let [registration, since @ ..] = rest {
        if is_fresh_for(t, registration, since) {
            return true;
        }
        rest = since;
    }
    false
}
