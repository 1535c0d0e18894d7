//! The mnemonic that a datagram has.

ghost use Rattle.std.specs.Prelude.{◌≡◌, ◌++◌, IfOk, OnOk};
ghost use Rattle.std.specs.Str.{bytes_eq};
ghost use Rattle.coap_codec.specs.Reading.{reading_of};
ghost use Rattle.object_defs.specs.Decimal.{decimal_number};
ghost use Rattle.scenario_mnemonics.specs.Denoting.{values, mnemonic_of};
ghost use Rattle.scenario_mnemonics.specs.Inside.{value_with, type_from, format_named, format_from, path_from};
ghost use Rattle.scenario_mnemonics.specs.Inside.{is_discover, get_from, post_from, put_from, action_from};
ghost use Rattle.scenario_mnemonics.specs.Inside.{request_from, mnemonic_from, own, mnemonic_found};

use crate::action::Action;
use crate::format::Format;
use crate::message::encode;
use crate::mnemonic::{Mnemonic, Request};
use crate::queries::Queries;
use crate::request_type::RequestType;
use crate::token::Token;
use coap_codec::option_number::{ACCEPT, CONTENT_FORMAT, OBSERVE, URI_PATH, URI_QUERY};
use coap_codec::{CoapFault, Kind, Message, Opt, decode};
use object_defs::{Path, decimal_number};
use octets::Bytes;
use std::alloc::{AllocError, Global};

/// Adds the value of an option, if it has this number.
fn put_value(found: &mut Vec<Bytes>, number: u16, option: &Opt) -> Result<(), AllocError>
    ensures { OnOk result (found.new.items ≡ found.old.items ++ value_with number option.now) }
{
    if option.number == number {
        let value = option.value.clone()?;
        found.push(value)?;
    }
    Ok(())
}

/// The values of the options of a number, in their order.
fn values(alloc: Global, number: u16, options: &[Opt]) -> Result<Vec<Bytes>, AllocError>
    ensures { IfOk result (λ v. v.items ≡ values number options.now) }
{
    let mut found = Vec::new(alloc);
    for option in options {
        put_value(&mut found, number, option)?;
    }
    Ok(found)
}

fn type_from(kind: Kind) -> RequestType
    ensures { result ≡ type_from kind }
{
    match kind {
        Kind::Con => RequestType::Con,
        _ => RequestType::Non,
    }
}

/// Whether a value is these bytes.
fn is_value(value: &[u8], bytes: &[u8]) -> bool
    ensures { result ≡ bytes_eq value.now bytes.now }
{
    value == bytes
}

fn format_named(value: &[u8]) -> Option<Format>
    ensures { result ≡ format_named value.now }
{
    if is_value(value, &[]) {
        Some(Format::Text)
    } else if is_value(value, &[42]) {
        Some(Format::Opaque)
    } else if is_value(value, &[45, 22]) {
        Some(Format::Tlv)
    } else {
        None
    }
}

/// The format of at most one option.
fn format_from(values: &[Bytes]) -> Option<Format>
    ensures { result ≡ format_from values.now }
{
    match values {
        [] => Some(Format::Any),
        [value] => format_named(value.as_slice()),
        _ => None,
    }
}

fn number(segment: &Bytes) -> Option<u16>
    ensures { result ≡ decimal_number segment.now }
{
    decimal_number(segment.as_slice())
}

/// The path of one to four segments.
fn path_from(segments: &[Bytes]) -> Option<Path>
    ensures { result ≡ path_from segments.now }
{
    match segments {
        [a] => Some(Path::Object(number(a)?)),
        [a, b] => Some(Path::Instance(number(a)?, number(b)?)),
        [a, b, c] => Some(Path::Resource(number(a)?, number(b)?, number(c)?)),
        [a, b, c, d] => Some(Path::Part(number(a)?, number(b)?, number(c)?, number(d)?)),
        _ => None,
    }
}

/// Whether there is an Accept of 40, the link format.
fn is_discover(accepts: &[Bytes]) -> bool
    ensures { result ≡ is_discover accepts.now }
{
    match accepts {
        [] => false,
        [value, ..] => is_value(value.as_slice(), &[40]),
    }
}

/// What a GET asks for, by its Observe and Accept.
fn get_from(observes: &[Bytes], accepts: &[Bytes]) -> Option<Action>
    ensures { result ≡ get_from observes.now accepts.now }
{
    match observes {
        [] if is_discover(accepts) => Some(Action::Discover),
        [] => Some(Action::Read(format_from(accepts)?)),
        [value, ..] if is_value(value.as_slice(), &[]) => {
            Some(Action::Observe(format_from(accepts)?))
        }
        _ => Some(Action::Cancel(format_from(accepts)?)),
    }
}

/// What a POST asks for, by its path.
fn post_from(path: Path, contents: &[Bytes], payload: Bytes) -> Option<Action>
    ensures { result ≡ post_from path contents.now payload }
{
    match path {
        Path::Object(_) => Some(Action::Create(format_from(contents)?, payload)),
        Path::Instance(_, _) => Some(Action::Update(format_from(contents)?, payload)),
        Path::Resource(_, _, _) => Some(Action::Exec(payload)),
        Path::Part(_, _, _, _) => None,
    }
}

/// What a PUT asks for, by its queries.
fn put_from(queries: Vec<Bytes>, contents: &[Bytes], payload: Bytes) -> Option<Action>
    ensures { result ≡ put_from queries.items contents.now payload }
{
    if queries.is_empty() {
        return Some(Action::Write(format_from(contents)?, payload));
    }
    Some(Action::Attr(Queries::new(queries)?))
}

/// What a request asks for, by its method.
fn action_from(alloc: Global, message: &Message, path: Path) -> Result<Option<Action>, AllocError>
    ensures { IfOk result (λ a. a ≡ action_from message.now path) }
{
    let options = message.options().as_slice();
    match message.code() {
        1 => {
            let observes = values(alloc, OBSERVE, options)?;
            let accepts = values(alloc, ACCEPT, options)?;
            Ok(get_from(observes.as_slice(), accepts.as_slice()))
        }
        2 => {
            let contents = values(alloc, CONTENT_FORMAT, options)?;
            let payload = message.payload().clone()?;
            Ok(post_from(path, contents.as_slice(), payload))
        }
        3 => {
            let queries = values(alloc, URI_QUERY, options)?;
            let contents = values(alloc, CONTENT_FORMAT, options)?;
            let payload = message.payload().clone()?;
            Ok(put_from(queries, contents.as_slice(), payload))
        }
        4 => Ok(Some(Action::Delete)),
        _ => Ok(None),
    }
}

fn request_from(alloc: Global, message: &Message) -> Result<Option<Mnemonic>, AllocError>
    ensures { IfOk result (λ m. m ≡ request_from message.now) }
{
    let segments = values(alloc, URI_PATH, message.options().as_slice())?;
    let Some(path) = path_from(segments.as_slice()) else {
        return Ok(None);
    };
    let Some(action) = action_from(alloc, message, path)? else {
        return Ok(None);
    };
    let Some(token) = Token::new(message.token().clone()?) else {
        return Ok(None);
    };
    Ok(Some(Mnemonic::Request(Request {
        kind: type_from(message.kind()),
        mid: message.mid(),
        token,
        path,
        action,
    })))
}

/// The mnemonic that a message would have.
fn mnemonic_from(alloc: Global, message: &Message) -> Result<Option<Mnemonic>, AllocError>
    ensures { IfOk result (λ m. m ≡ mnemonic_from message.now) }
{
    if message.code() == 0 {
        return Ok(Some(Mnemonic::Reset(message.mid())));
    }
    request_from(alloc, message)
}

/// The mnemonic, where the datagram is its own.
fn own(alloc: Global, datagram: &[u8], mnemonic: Mnemonic) -> Result<Option<Mnemonic>, AllocError>
    ensures { IfOk result (λ m. m ≡ own datagram.now mnemonic) }
{
    let spelled = encode(alloc, &mnemonic)?;
    if is_value(spelled.as_slice(), datagram) {
        Ok(Some(mnemonic))
    } else {
        Ok(None)
    }
}

/// The mnemonic of a datagram: the one that its message would have, where the datagram is its own.
fn found(alloc: Global, datagram: &[u8]) -> Result<Option<Mnemonic>, AllocError>
    ensures { IfOk result (λ m. m ≡ mnemonic_found datagram.now) }
{
    let message = match decode(alloc, datagram) {
        Ok(message) => message,
        Err(CoapFault::Memory) => return Err(AllocError),
        Err(_) => return Ok(None),
    };
    match mnemonic_from(alloc, &message)? {
        Some(mnemonic) => own(alloc, datagram, mnemonic),
        None => Ok(None),
    }
}

/// The mnemonic of a datagram: the one whose encoding it is, of those that text can say and that fit; none where
/// there is no such mnemonic. There is at most one.
pub fn mnemonic_for(alloc: Global, datagram: &[u8]) -> Result<Option<Mnemonic>, AllocError>
    ensures { IfOk result (λ m. m ≡ mnemonic_of datagram.now) }
{
    found(alloc, datagram)
}
