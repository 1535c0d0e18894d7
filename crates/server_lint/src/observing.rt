//! Tokens, and the observations of a server.
ghost use Rattle.std.specs.Prelude.{◌≡◌, ◌==◌, find};
ghost use Rattle.std.specs.Cmp.Lexicographic.{pointwise};
ghost use Rattle.std.specs.Option.{option_copied};
ghost use Rattle.server_lint.specs.History.{message_of};
ghost use Rattle.server_lint.specs.Inside.{any_then, has_answered_too, has_ended, has_reset, is_answered_too};
ghost use Rattle.server_lint.specs.Inside.{is_reset_in, is_reset_later, lives};
ghost use Rattle.server_lint.specs.Observing.{ends, has_token_of, is_sent_for, is_sent_within, responds, response_to};
ghost use Rattle.server_lint.specs.Observing.{sent_message, shares_token};

use crate::pairs::{replies, resets, seconds_since};
use crate::single::{is_from_server, is_registration, is_some_request, is_taken, lacks_observe};
use crate::transmission::Transmission;
use coap_codec::Message;

fn has_token_of(request: &Transmission, t: &Transmission) -> bool
    ensures { result ≡ has_token_of (message_of request.now) (message_of t.now) }
{
    let Some(asked) = request.message() else {
        return false;
    };
    let Some(message) = t.message() else {
        return false;
    };
    !(message.code() == 0) && asked.token().as_slice() == message.token().as_slice()
}

/// Whether it went between the device and the server of a request, with its token.
pub(crate) fn shares_token(request: &Transmission, t: &Transmission) -> bool
    ensures { result ≡ shares_token request.now t.now }
{
    request.server() == t.server() && has_token_of(request, t)
}

/// Whether the device sent it to the server of a request, with its token.
pub(crate) fn is_sent_for(request: &Transmission, t: &Transmission) -> bool
    ensures { result ≡ is_sent_for request.now t.now }
{
    !is_from_server(t) && shares_token(request, t)
}

/// What stands next with the token of a request.
fn next_for<'a>(request: &Transmission, after: &'a [Transmission]) -> Option<&'a Transmission>
    ensures { option_copied result ≡ find (λ t. shares_token request.now t) after.now }
{
    after.iter().find(|t| shares_token(request, t))
}

/// The message, where the device sent it.
fn sent_message(t: Option<&Transmission>) -> Option<&Message>
    ensures { option_copied result ≡ sent_message (option_copied t.entry) }
{
    match t {
        None => None,
        Some(t) => { if is_from_server(t) { None } else { t.message() } }
    }
}

/// The response to a request, among the datagrams after it.
pub(crate) fn response_to<'a>(
    request: &Transmission,
    after: &'a [Transmission],
) -> Option<&'a Message>
    ensures { option_copied result ≡ response_to request.now after.now }
{
    sent_message(next_for(request, after))
}

/// Whether the device sent it with the token of a registration, fewer than so many seconds before.
pub(crate) fn is_sent_within(
    seconds: u32,
    registration: &Transmission,
    this: &Transmission,
    t: &Transmission,
) -> bool
    ensures { result ≡ is_sent_within seconds registration.now this.now t.now }
{
    is_sent_for(registration, t) && seconds_since(t, this) < seconds
}

/// Whether the device sent it with the token of a request, or acknowledges or resets the request.
pub(crate) fn responds(request: &Transmission, t: &Transmission) -> bool
    ensures { result ≡ responds request.now t.now }
{
    is_sent_for(request, t) || replies(request, t)
}

/// Whether the device sent it with the token of a registration, but without an Observe.
fn ends(registration: &Transmission, t: &Transmission) -> bool
    ensures { result ≡ ends registration.now t.now }
{
    is_sent_for(registration, t) && lacks_observe(t)
}

fn has_ended(registration: &Transmission, after: &[Transmission]) -> bool
    ensures { result ≡ has_ended registration.now after.now }
{
    after.iter().any(|t| ends(registration, t))
}

/// Whether the server sent another request with the token, and the device responded.
fn is_answered_too(earlier: &Transmission, t: &Transmission, rest: &[Transmission]) -> bool
    ensures { result ≡ is_answered_too earlier.now t.now rest.now }
{
    is_from_server(t)
        && (shares_token(earlier, t) && (is_some_request(t) && response_to(t, rest).is_some()))
}

/// Whether the device responded to another request with the token.
fn has_answered_too(registration: &Transmission, after: &[Transmission]) -> bool
    ensures { result ≡ has_answered_too registration.now after.now }
{
    let mut rest = after;
    while let [t, others @ ..] = rest {
        if is_answered_too(registration, t, others) {
            return true;
        }
        rest = others;
    }
    false
}

/// Whether the server resets it.
fn is_reset_in(t: &Transmission, rest: &[Transmission]) -> bool
    ensures { result ≡ is_reset_in t.now rest.now }
{
    rest.iter().any(|later| resets(t, later))
}

/// Whether the device sent it with the token of a registration, and the server reset it.
fn is_reset_later(earlier: &Transmission, t: &Transmission, rest: &[Transmission]) -> bool
    ensures { result ≡ is_reset_later earlier.now t.now rest.now }
{
    is_sent_for(earlier, t) && is_reset_in(t, rest)
}

/// Whether the server reset something that the device sent with the token.
fn has_reset(registration: &Transmission, after: &[Transmission]) -> bool
    ensures { result ≡ has_reset registration.now after.now }
{
    let mut rest = after;
    while let [t, others @ ..] = rest {
        if is_reset_later(registration, t, others) {
            return true;
        }
        rest = others;
    }
    false
}

/// Whether a registration and the datagrams after it make an observation that lives.
pub(crate) fn lives(registration: &Transmission, after: &[Transmission]) -> bool
    ensures { result ≡ lives registration.now after.now }
{
    is_registration(registration)
        && (is_taken(response_to(registration, after))
            && (!has_answered_too(registration, after)
                && (!has_ended(registration, after) && !has_reset(registration, after))))
}
