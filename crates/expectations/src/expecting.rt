//! Whether what arrives is what is expected.
ghost use Rattle.std.specs.Prelude.{◌≡◌};
ghost use Rattle.std.specs.Str.{bytes_eq};
ghost use Rattle.device_requests.specs.Options.{queries_of};
ghost use Rattle.device_requests.specs.Request.{request_of};
ghost use Rattle.expectations.specs.Expecting.{are_same, format_in, has_details, has_format, has_payload, has_queries};
ghost use Rattle.expectations.specs.Expecting.{is_ack, is_expected, is_message, is_numbered, is_of_request, is_path};
ghost use Rattle.expectations.specs.Expecting.{is_request, is_reset, is_spelled, is_verb};

use crate::arrival::Arrival;
use crate::what::{AskedRequest, Details, What};
use coap_codec::option_number::URI_QUERY;
use coap_codec::{Kind, Message, Opt};
use device_requests::{Operation, Request};
use object_defs::Path;
use octets::Bytes;
use scenario_mnemonics::{Format, Queries, Verb};

/// Whether the option has this number as its value.
fn is_numbered(number: u32, value: Option<u32>) -> bool
    ensures { result ≡ is_numbered number value }
{
    match value {
        None => false,
        Some(value) => value == number,
    }
}

/// Whether the format that a request names has this number.
fn is_format(number: u16, named: Option<u16>) -> bool
    ensures { result ≡ is_numbered number named }
{
    match named {
        None => false,
        Some(named) => named == number,
    }
}

fn is_path(path: Path, asked: Path) -> bool
    ensures { result ≡ is_path path asked }
{
    match (path, asked) {
        (Path::Object(a), Path::Object(o)) => a == o,
        (Path::Instance(a, b), Path::Instance(o, i)) => a == o && b == i,
        (Path::Resource(a, b, c), Path::Resource(o, i, r)) => a == o && b == i && c == r,
        (Path::Part(a, b, c, d), Path::Part(o, i, r, p)) => a == o && b == i && c == r && d == p,
        _ => false,
    }
}

/// Whether the verb is that of a Read with this Observe.
fn is_read(verb: Verb, observe: Option<u32>) -> bool
    ensures { result ≡ is_verb verb Operation.Read observe }
{
    match verb {
        Verb::Read => !is_numbered(0, observe) && !is_numbered(1, observe),
        Verb::Observe => is_numbered(0, observe),
        Verb::Cancel => is_numbered(1, observe),
        _ => false,
    }
}

/// Whether the verb is what an operation and an Observe make.
fn is_verb(verb: Verb, operation: Operation, observe: Option<u32>) -> bool
    ensures { result ≡ is_verb verb operation observe }
{
    match operation {
        Operation::Read => is_read(verb, observe),
        Operation::Discover => matches!(verb, Verb::Discover),
        Operation::Delete => matches!(verb, Verb::Delete),
        Operation::WriteReplace => matches!(verb, Verb::Write),
        Operation::WritePartial => matches!(verb, Verb::Update),
        Operation::Create => matches!(verb, Verb::Create),
        Operation::WriteAttributes => matches!(verb, Verb::Attr),
        Operation::Execute => matches!(verb, Verb::Exec),
    }
}

/// The number of the format that a request names, with a verb.
fn format_in(verb: Verb, request: &Request) -> Option<u16>
    ensures { result ≡ format_in verb request.now }
{
    match verb {
        Verb::Read | Verb::Observe | Verb::Cancel => request.accept,
        _ => request.content_format,
    }
}

fn has_format(format: Option<Format>, named: Option<u16>) -> bool
    ensures { result ≡ has_format format named }
{
    match format {
        None => true,
        Some(Format::Any) => named.is_none(),
        Some(Format::Text) => is_format(0, named),
        Some(Format::Opaque) => is_format(42, named),
        Some(Format::Tlv) => is_format(11542, named),
    }
}

/// Whether bytes are these.
fn are_bytes(bytes: &[u8], others: &[u8]) -> bool
    ensures { result ≡ bytes_eq bytes.now others.now }
{
    bytes == others
}

fn has_payload(expected: &Option<Bytes>, payload: &Bytes) -> bool
    ensures { result ≡ has_payload expected.now payload.now }
{
    match expected {
        None => true,
        Some(bytes) => are_bytes(payload.as_slice(), bytes.as_slice()),
    }
}

/// Whether the queries of these options are these, in their order.
fn are_queries(options: &[Opt], expected: &[Bytes]) -> bool
    ensures { result ≡ are_same (queries_of options.now) expected.now }
{
    let mut left = expected;
    for option in options {
        if option.number == URI_QUERY {
            match left {
                [first, behind @ ..] if are_bytes(option.value.as_slice(), first.as_slice()) => {
                    left = behind;
                }
                _ => return false,
            }
        }
    }
    left.is_empty()
}

fn has_queries(expected: &Option<Queries>, message: &Message) -> bool
    ensures { result ≡ has_queries expected.now (queries_of message.now.options) }
{
    match expected {
        None => true,
        Some(queries) => are_queries(message.options().as_slice(), queries.as_slice()),
    }
}

fn has_details(details: &Details, verb: Verb, message: &Message, request: &Request) -> bool
    ensures { result ≡ has_details details.now verb message.now request.now }
{
    has_format(details.format, format_in(verb, request))
        && has_payload(&details.payload, message.payload())
        && has_queries(&details.queries, message)
}

/// Whether the request that a message makes is the one that is asked for.
fn is_request(asked: &AskedRequest, message: &Message) -> bool
    ensures { result ≡ is_request asked.now message.now (request_of message.now) }
{
    match Request::read(message) {
        Err(_) => false,
        Ok(request) => {
            is_path(request.path, asked.path)
                && is_verb(asked.verb, request.operation, request.observe)
                && has_details(&asked.details, asked.verb, message, &request)
        }
    }
}

fn is_ack(kind: Kind) -> bool
    ensures { result ≡ is_ack kind }
{
    matches!(kind, Kind::Ack)
}

fn is_reset(kind: Kind) -> bool
    ensures { result ≡ is_reset kind }
{
    matches!(kind, Kind::Rst)
}

fn is_of_request(kind: Kind) -> bool
    ensures { result ≡ is_of_request kind }
{
    matches!(kind, Kind::Con | Kind::Non)
}

fn is_message(what: &What, message: &Message) -> bool
    ensures { result ≡ is_message what.now message.now }
{
    match what {
        What::Ack => is_ack(message.kind()) && message.code() == 0,
        What::Reset => is_reset(message.kind()),
        What::Request(asked) => is_of_request(message.kind()) && is_request(asked, message),
    }
}

fn is_spelled(what: &What, message: &Option<Message>) -> bool
    ensures { result ≡ is_spelled what.now message.now }
{
    match message {
        None => false,
        Some(message) => is_message(what, message),
    }
}

/// Whether a datagram is of this server and says what is expected. Its type, if it is a request, its message ID and its
/// token may be any.
pub fn is_expected(server: u16, what: &What, arrival: &Arrival) -> bool
    ensures { result ≡ is_expected server what.now arrival.now }
{
    arrival.server == server && is_spelled(what, &arrival.message)
}
