ghost use Rattle.std.specs.Prelude.{◌≡◌, ◌≢◌, ◌≤◌, ◌<◌, ◌+◌, ◌*◌, [], ◌++◌, length, Some, IfOk, OnOk};
ghost use Rattle.coap_codec.specs.Message.{Spells, MayFollow, IsOptionList, kind_number, start_bytes};
ghost use Rattle.coap_codec.specs.Message.{nibble_of, extension_of, option_bytes, options_bytes, payload_bytes, spelling};
ghost use Rattle.coap_codec.specs.OptionNumber.{content_format_option};
ghost use Rattle.coap_codec.specs.Options.{number_option};

use crate::{Kind, Message, Opt};
use std::alloc::{AllocError, Global};

/// The bytes of a message (RFC 7252 section 3). Every message has them, so only an allocation can fail: one buffer,
/// with room for just these bytes.
pub fn encode(alloc: Global, message: &Message) -> Result<Vec<u8>, AllocError>
    ensures spells { IfOk result (λ v. Spells v.items message.now) }
    ensures spelling { IfOk result (λ v. v.items ≡ spelling message.now) }
{
    let mut out = Vec::with_capacity(alloc, room_for(message))?;
    encode_into(&mut out, message)?;
    Ok(out)
}

/// Adds the bytes of a message to a buffer, so that one buffer serves for many messages. If an allocation fails, part
/// of them may have been added.
pub fn encode_into(out: &mut Vec<u8>, message: &Message) -> Result<(), AllocError>
    ensures spells { OnOk result (Spells (spelling message.now) message.now) }
    ensures spelling { OnOk result (out.new.items ≡ out.old.items ++ spelling message.now) }
{
    // Read first: they come with the promise that the message is well formed.
    let options = message.options();
    let token = message.token().as_slice();
    put_start(out, message.kind(), message.code(), message.mid(), token)?;
    put_options(out, options.as_slice())?;
    put_payload(out, message.payload().as_slice())
}

/// How many bytes the message takes, so that its buffer is made once. It is only a hint: the buffer grows where it is
/// too small.
fn room_for(message: &Message) -> usize {
    let mut room = 4usize.saturating_add(message.token().len());
    let mut number: u16 = 0;
    for option in message.options().as_slice() {
        let length = option.value.len();
        let delta = usize::from(option.number.saturating_sub(number));
        room = room
            .saturating_add(1 + extension_room(delta) + extension_room(length))
            .saturating_add(length);
        number = option.number;
    }
    if message.payload().is_empty() {
        return room;
    }
    room.saturating_add(1)
        .saturating_add(message.payload().len())
}

/// How many bytes extend a delta or a length.
fn extension_room(n: usize) -> usize
    ensures { result ≤ 2 }
{
    if n < 13 {
        return 0;
    }
    if n < 269 { 1 } else { 2 }
}

/// The two bits of a type.
fn kind_bits(kind: Kind) -> u8
    ensures bits { result ≡ kind_number kind }
    ensures small { result < 4 }
{
    match kind {
        Kind::Con => 0,
        Kind::Non => 1,
        Kind::Ack => 2,
        Kind::Rst => 3,
    }
}

/// Adds the header and the token of a message to a buffer (RFC 7252 section 3). Its options (`put_option`,
/// `put_number_option`) and its payload (`put_payload`) come after it: so a message is written without being made. If
/// an allocation fails, part of the bytes may have been added, here as in these.
pub fn put_start(
    out: &mut Vec<u8>,
    kind: Kind,
    code: u8,
    mid: u16,
    token: &[u8],
) -> Result<(), AllocError>
    requires { length token.now ≤ 8 }
    ensures { OnOk result (out.new.items ≡ out.old.items ++ start_bytes kind code mid token.now) }
{
    let first = 64 + 16 * kind_bits(kind) + token.len() as u8;
    out.extend_from_slice(&[first, code, (mid / 256) as u8, (mid % 256) as u8])?;
    put_bytes(out, token)
}

/// These bytes, of which there often is none: tokens and values of options are short.
fn put_bytes(out: &mut Vec<u8>, bytes: &[u8]) -> Result<(), AllocError>
    ensures { OnOk result (out.new.items ≡ out.old.items ++ bytes.now) }
{
    if bytes.is_empty() {
        return Ok(());
    }
    out.extend_from_slice(bytes)
}

/// The nibble of a delta or a length.
fn nibble(n: u32) -> u8
    ensures nibble { result ≡ nibble_of n }
    ensures small { result < 15 }
{
    if n < 13 {
        return n as u8;
    }
    if n < 269 { 13 } else { 14 }
}

/// The bytes that extend a delta or a length.
fn put_extension(out: &mut Vec<u8>, n: u32) -> Result<(), AllocError>
    requires { n ≤ 65804 }
    ensures { OnOk result (out.new.items ≡ out.old.items ++ extension_of n) }
{
    if n < 13 {
        return Ok(());
    }
    if n < 269 {
        return out.extend_from_slice(&[(n - 13) as u8]);
    }
    let behind = n - 269;
    out.extend_from_slice(&[(behind / 256) as u8, (behind % 256) as u8])
}

/// Adds an option of this number and value after one of number `before`, 0 where it is the first (RFC 7252 section
/// 3.1).
pub fn put_option(
    out: &mut Vec<u8>,
    before: u16,
    number: u16,
    value: &[u8],
) -> Result<(), AllocError>
    requires { MayFollow before (record { number = number; value = value.now }) }
    ensures { OnOk result (out.new.items
        ≡ out.old.items ++ option_bytes before (record { number = number; value = value.now })) }
{
    let delta = u32::from(number - before);
    let length = value.len() as u32;
    out.push(16 * nibble(delta) + nibble(length))?;
    put_extension(out, delta)?;
    put_extension(out, length)?;
    put_bytes(out, value)
}

/// Adds an option whose value is a number in the fewest bytes after one of number `before`; or nothing, where there is
/// no value.
pub fn put_number_option(
    out: &mut Vec<u8>,
    before: u16,
    number: u16,
    value: Option<u32>,
) -> Result<(), AllocError>
    requires { before ≤ number }
    ensures { OnOk result (out.new.items ≡ out.old.items ++ options_bytes before (number_option number value)) }
{
    match value {
        None => Ok(()),
        Some(value) => put_uint_option(out, before, number, value),
    }
}

/// Adds an option whose value is this number in the fewest bytes after one of number `before`.
fn put_uint_option(
    out: &mut Vec<u8>,
    before: u16,
    number: u16,
    value: u32,
) -> Result<(), AllocError>
    requires { before ≤ number }
    ensures { OnOk result (out.new.items ≡ out.old.items ++ options_bytes before (number_option number (Some value))) }
{
    if value == 0 {
        return put_option(out, before, number, &[]);
    }
    let low = (value % 256) as u8;
    if value < 256 {
        return put_option(out, before, number, &[low]);
    }
    let second = (value / 256 % 256) as u8;
    if value < 65536 {
        return put_option(out, before, number, &[second, low]);
    }
    let third = (value / 65536 % 256) as u8;
    if value < 16777216 {
        return put_option(out, before, number, &[third, second, low]);
    }
    let fourth = (value / 16777216) as u8;
    put_option(out, before, number, &[fourth, third, second, low])
}

/// The options, the first one's number from 0.
fn put_options(out: &mut Vec<u8>, options: &[Opt]) -> Result<(), AllocError>
    requires { IsOptionList 0 options.now }
    ensures { OnOk result (out.new.items ≡ out.old.items ++ options_bytes 0 options.now) }
{
    let mut number: u16 = 0;
    for option in options {
        put_option(out, number, option.number, option.value.as_slice())?;
        number = option.number;
    }
    Ok(())
}

/// Adds the marker and a payload to a buffer, or nothing where the payload is empty (RFC 7252 section 3).
pub fn put_payload(out: &mut Vec<u8>, payload: &[u8]) -> Result<(), AllocError>
    ensures { OnOk result (out.new.items ≡ out.old.items ++ payload_bytes payload.now) }
{
    if payload.is_empty() {
        return Ok(());
    }
    out.push(255)?;
    out.extend_from_slice(payload)
}

/// Adds what follows the token of a message whose payload is this plain text: the one option that says so, which is a
/// Content-Format of 0 (RFC 7252 section 12.3), and the payload, which is not empty.
pub fn put_plain_text(out: &mut Vec<u8>, text: &[u8]) -> Result<(), AllocError>
    requires { text.now ≢ [] }
    ensures { OnOk result (out.new.items
        ≡ out.old.items ++ (options_bytes 0 (number_option content_format_option (Some 0)) ++ payload_bytes text.now)) }
{
    // An option of number 12 without a value, and the payload marker.
    out.extend_from_slice(&[0xC0, 0xFF])?;
    out.extend_from_slice(text)
}
