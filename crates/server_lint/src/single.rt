//! What a datagram is by itself.
ghost use Rattle.std.specs.Prelude.{◌≡◌, ◌==◌};
ghost use Rattle.std.specs.List.{list_any};
ghost use Rattle.std.specs.Option.{option_copied};
ghost use Rattle.device_requests.specs.Options.{has_unrecognized_critical};
ghost use Rattle.server_lint.specs.History.{message_of};
ghost use Rattle.server_lint.specs.Single.{begins_with_zero, has_empty_segment, has_long_number, has_observe};
ghost use Rattle.server_lint.specs.Single.{has_own_id, has_unknown_option, is_client_error, is_con, is_confirmable};
ghost use Rattle.server_lint.specs.Single.{is_empty_segment, is_from_server, is_full_reply, is_long_number};
ghost use Rattle.server_lint.specs.Single.{is_not_taken, is_registration, is_reply, is_request, is_reset, is_rst};
ghost use Rattle.server_lint.specs.Single.{is_some_request, is_taken, is_zero, lacks_observe, number_options};
ghost use Rattle.server_lint.specs.Single.{registers};

use crate::sender::Sender;
use crate::transmission::Transmission;
use coap_codec::option_number::{ACCEPT, CONTENT_FORMAT, OBSERVE, URI_PATH, URI_PORT};
use coap_codec::{Kind, Message, Opt};
use device_requests::{Request, Ruling, observe_of};

/// Max-Age (RFC 7252 section 5.10.5).
const MAX_AGE: u16 = 14;

/// Size1 (RFC 7252 section 5.10.9).
const SIZE1: u16 = 60;

/// GET (RFC 7252 section 12.1.1).
const GET: u8 = 1;

/// 2.05 Content (RFC 7252 section 12.1.2).
const CONTENT: u8 = 69;

/// Whether a server sent it.
pub(crate) fn is_from_server(t: &Transmission) -> bool
    ensures { result ≡ is_from_server t.now }
{
    match t.sender() {
        Sender::Server => true,
        Sender::Device => false,
    }
}

/// Whether a message of this type has a message ID of its own.
pub(crate) fn has_own_id(kind: Kind) -> bool
    ensures { result ≡ has_own_id kind }
{
    match kind {
        Kind::Con | Kind::Non => true,
        Kind::Ack | Kind::Rst => false,
    }
}

fn is_con(kind: Kind) -> bool
    ensures { result ≡ is_con kind }
{
    match kind {
        Kind::Con => true,
        Kind::Non | Kind::Ack | Kind::Rst => false,
    }
}

/// Whether it is a confirmable message.
pub(crate) fn is_confirmable(t: &Transmission) -> bool
    ensures { result ≡ is_confirmable (message_of t.now) }
{
    match t.message() {
        None => false,
        Some(message) => is_con(message.kind()),
    }
}

/// Whether it is an acknowledgement or a reset.
pub(crate) fn is_reply(t: &Transmission) -> bool
    ensures { result ≡ is_reply (message_of t.now) }
{
    match t.message() {
        None => false,
        Some(message) => !has_own_id(message.kind()),
    }
}

fn is_rst(kind: Kind) -> bool
    ensures { result ≡ is_rst kind }
{
    match kind {
        Kind::Rst => true,
        Kind::Con | Kind::Non | Kind::Ack => false,
    }
}

/// Whether it is a reset, which is Empty.
pub(crate) fn is_reset(t: &Transmission) -> bool
    ensures { result ≡ is_reset (message_of t.now) }
{
    match t.message() {
        None => false,
        Some(message) => is_rst(message.kind()) && message.code() == 0,
    }
}

/// Whether it is an acknowledgement or a reset that is not Empty.
pub(crate) fn is_full_reply(t: &Transmission) -> bool
    ensures { result ≡ is_full_reply (message_of t.now) }
{
    match t.message() {
        None => false,
        Some(message) => !has_own_id(message.kind()) && !(message.code() == 0),
    }
}

/// Whether it is a request.
fn is_request(message: &Message) -> bool
    ensures { result ≡ is_request message.now }
{
    let code = message.code();
    has_own_id(message.kind()) && 0 < code && code < 32
}

/// Whether it is a message that is a request.
pub(crate) fn is_some_request(t: &Transmission) -> bool
    ensures { result ≡ is_some_request (message_of t.now) }
{
    match t.message() {
        None => false,
        Some(message) => is_request(message),
    }
}

/// Whether one of its critical options is not recognized.
fn has_unrecognized(message: &Message) -> bool
    ensures { result ≡ has_unrecognized_critical message.now.options }
{
    match Request::read(message) {
        Ok(_) => false,
        Err(Ruling::Options) => true,
        Err(_) => false,
    }
}

/// Whether it is a request with a critical option that devices do not recognize.
pub(crate) fn has_unknown_option(t: &Transmission) -> bool
    ensures { result ≡ has_unknown_option (message_of t.now) }
{
    match t.message() {
        None => false,
        Some(message) => is_request(message) && has_unrecognized(message),
    }
}

/// Whether an option is a segment of the path, without a byte.
fn is_empty_segment(option: &Opt) -> bool
    ensures { result ≡ is_empty_segment option.now }
{
    option.number == URI_PATH && option.value.len() == 0
}

/// Whether one of the options is an empty segment.
fn has_empty(options: &[Opt]) -> bool
    ensures { result ≡ list_any is_empty_segment options.now }
{
    options.iter().any(|o| is_empty_segment(o))
}

/// Whether it is a request of which a segment of the path has no bytes.
pub(crate) fn has_empty_segment(t: &Transmission) -> bool
    ensures { result ≡ has_empty_segment (message_of t.now) }
{
    match t.message() {
        None => false,
        Some(message) => is_request(message) && has_empty(message.options().as_slice()),
    }
}

fn begins_with_zero(value: &[u8]) -> bool
    ensures { result ≡ begins_with_zero value.now }
{
    match value {
        [] => false,
        [first, ..] => *first == 0,
    }
}

/// Whether the value of the option of this number is a number.
fn is_number_option(number: u16) -> bool
    ensures { result ≡ list_any (λ n. n == number) number_options }
{
    match number {
        OBSERVE | URI_PORT | CONTENT_FORMAT | MAX_AGE | ACCEPT | SIZE1 => true,
        _ => false,
    }
}

/// Whether it is a number in more bytes than the fewest.
fn is_long_number(option: &Opt) -> bool
    ensures { result ≡ is_long_number option.now }
{
    is_number_option(option.number) && begins_with_zero(option.value.as_slice())
}

fn has_long(options: &[Opt]) -> bool
    ensures { result ≡ list_any is_long_number options.now }
{
    options.iter().any(|o| is_long_number(o))
}

/// Whether it has an option with a number in more bytes than the fewest.
pub(crate) fn has_long_number(t: &Transmission) -> bool
    ensures { result ≡ has_long_number (message_of t.now) }
{
    match t.message() {
        None => false,
        Some(message) => has_long(message.options().as_slice()),
    }
}

fn is_zero(number: Option<u32>) -> bool
    ensures { result ≡ is_zero number }
{
    match number {
        None => false,
        Some(n) => n == 0,
    }
}

/// Whether it is a GET whose Observe is 0.
fn registers(t: &Transmission) -> bool
    ensures { result ≡ registers (message_of t.now) }
{
    match t.message() {
        None => false,
        Some(message) => {
            is_request(message)
                && (message.code() == GET && is_zero(observe_of(message.options().as_slice())))
        }
    }
}

/// Whether a server asks in it for an observation.
pub(crate) fn is_registration(t: &Transmission) -> bool
    ensures { result ≡ is_registration t.now }
{
    is_from_server(t) && registers(t)
}

fn has_observe(message: &Message) -> bool
    ensures { result ≡ has_observe message.now }
{
    message
        .options()
        .as_slice()
        .iter()
        .any(|o| o.number == OBSERVE)
}

/// Whether it is content with an Observe.
pub(crate) fn is_taken(response: Option<&Message>) -> bool
    ensures { result ≡ is_taken (option_copied response.entry) }
{
    match response {
        None => false,
        Some(message) => message.code() == CONTENT && has_observe(message),
    }
}

/// Whether it is content without an Observe.
pub(crate) fn is_not_taken(response: Option<&Message>) -> bool
    ensures { result ≡ is_not_taken (option_copied response.entry) }
{
    match response {
        None => false,
        Some(message) => message.code() == CONTENT && !has_observe(message),
    }
}

/// Whether its code is of class 4.
pub(crate) fn is_client_error(response: Option<&Message>) -> bool
    ensures { result ≡ is_client_error (option_copied response.entry) }
{
    match response {
        None => false,
        Some(message) => 128 <= message.code() && message.code() < 160,
    }
}

/// Whether it is a message without an Observe.
pub(crate) fn lacks_observe(t: &Transmission) -> bool
    ensures { result ≡ lacks_observe (message_of t.now) }
{
    match t.message() {
        None => false,
        Some(message) => !has_observe(message),
    }
}
