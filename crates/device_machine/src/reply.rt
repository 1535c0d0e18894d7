//! The datagrams that a device sends.

ghost use Rattle.std.specs.Prelude.{◌≡◌, ◌≤◌, ◌<◌, ◌∷◌, ◌++◌, [], true, false, None, Some, is_some, length};
ghost use Rattle.std.specs.Prelude.{ℕ, Option, option_map, IfOk, OnErr, OnOk};
ghost use Rattle.std.specs.Fmt.{decimal, signed_decimal};
ghost use Rattle.coap_codec.specs.Message.{option_bytes, options_bytes, payload_bytes, spelling, start_bytes};
ghost use Rattle.coap_codec.specs.OptionNumber.{location_path_option};
ghost use Rattle.device_notifications.specs.Message.{format_options};
ghost use Rattle.device_requests.specs.Answer.{code_byte, content};
ghost use Rattle.device_requests.specs.declared.answer.Answer.{Answer as Said};
ghost use Rattle.device_machine.specs.declared.output.Output.TheVariants.{Send};
ghost use Rattle.device_machine.specs.Reactions.{answer_options, location_options, reset, response, sent_to};
ghost use Rattle.device_machine.specs.Reactions.{reply_with};

use crate::output::{Output, Outputs};
use coap_codec::option_number::{CONTENT_FORMAT, LOCATION_PATH, OBSERVE};
use coap_codec::{
    Kind, Message, Options, encode, put_number_option, put_option, put_payload, put_plain_text,
    put_start,
};
use device_requests::{Answer, Code};
use itoa::Buffer;
use object_defs::InstancePath;
use octets::Bytes;
use std::alloc::{AllocError, Global};

/// Adds a segment of Location-Path, a number in decimal, after an option of number `before`.
#[tactic(auto, using(crate::proofs::Naming::short_decimal))]
fn put_segment(alloc: Global, out: &mut Vec<u8>, before: u16, number: u16) -> Result<(), AllocError>
    requires { before ≤ location_path_option }
    ensures { OnOk result (out.new.items ≡ out.old.items
        ++ option_bytes before (record { number = location_path_option; value = decimal number })) }
{
    let text = format!(in alloc; "{number}")?;
    put_option(out, before, LOCATION_PATH, text.as_bytes())
}

/// Adds the Location-Path of an answer that names an instance, and Content-Format, after an option of number `before`.
fn put_location_and_format(
    alloc: Global,
    out: &mut Vec<u8>,
    before: u16,
    location: Option<InstancePath>,
    format: Option<u16>,
) -> Result<(), AllocError>
    requires { before ≤ location_path_option }
    ensures { OnOk result (out.new.items ≡ out.old.items
        ++ options_bytes before (location_options location ++ format_options format)) }
{
    let format = format.map(u32::from);
    let Some(place) = location else {
        return put_number_option(out, before, CONTENT_FORMAT, format);
    };
    put_segment(alloc, out, before, place.object)?;
    put_segment(alloc, out, LOCATION_PATH, place.instance)?;
    put_number_option(out, LOCATION_PATH, CONTENT_FORMAT, format)
}

/// Adds Observe, Location-Path and Content-Format, in the order of their numbers.
fn put_answer_options(
    alloc: Global,
    out: &mut Vec<u8>,
    number: Option<u32>,
    location: Option<InstancePath>,
    format: Option<u16>,
) -> Result<(), AllocError>
    ensures { OnOk result (out.new.items ≡ out.old.items
        ++ options_bytes 0 (answer_options number location format)) }
{
    let Some(number) = number else {
        return put_location_and_format(alloc, out, 0, location, format);
    };
    put_number_option(out, 0, OBSERVE, Some(number))?;
    put_location_and_format(alloc, out, OBSERVE, location, format)
}

/// Begins a datagram in the buffer, in the place of what is there: its header and its token.
fn begin(
    buffer: &mut Vec<u8>,
    kind: Kind,
    code: Code,
    mid: u16,
    token: &[u8],
) -> Result<(), AllocError>
    requires { length token.now ≤ 8 }
    ensures { OnOk result (buffer.new.items ≡ start_bytes kind (code_byte code) mid token.now) }
{
    buffer.clear();
    put_start(buffer, kind, code.byte(), mid, token)
}

/// The datagram of an answer, with the token of the request and this Observe number. It is written to the buffer first,
/// and copied: a short one takes no memory then.
fn answer_datagram(
    alloc: Global,
    buffer: &mut Vec<u8>,
    kind: Kind,
    mid: u16,
    token: &[u8],
    number: Option<u32>,
    answer: &Answer,
) -> Result<Bytes, AllocError>
    requires { length token.now ≤ 8 }
    ensures { IfOk result (λ b. b ≡ spelling (response kind mid token.now number answer.now)) }
{
    begin(buffer, kind, answer.code(), mid, token)?;
    put_answer_options(alloc, buffer, number, answer.location, answer.format)?;
    put_payload(buffer, answer.payload.as_slice())?;
    Bytes::from_slice(alloc, buffer.as_slice())
}

/// Adds a number in digits as plain text, with its Content-Format.
fn put_number(out: &mut Vec<u8>, number: i64) -> Result<(), AllocError>
    ensures { OnOk result (out.new.items ≡ out.old.items
        ++ (options_bytes 0 (format_options (Some 0)) ++ payload_bytes (signed_decimal number))) }
{
    put_plain_text(out, Buffer::new().format(number).as_bytes())
}

/// The datagram of the answer that is a number in digits: 2.05 with the number's decimal in plain text. It is the one
/// that `answer_datagram` writes of that answer, which is not made.
fn number_datagram(
    alloc: Global,
    buffer: &mut Vec<u8>,
    kind: Kind,
    mid: u16,
    token: &[u8],
    number: i64,
) -> Result<Bytes, AllocError>
    requires { length token.now ≤ 8 }
    ensures { IfOk result (λ b. b ≡ spelling (response kind mid token.now None (content 0 (signed_decimal number)))) }
{
    begin(buffer, kind, Code::Content, mid, token)?;
    put_number(buffer, number)?;
    Bytes::from_slice(alloc, buffer.as_slice())
}

/// What a reply takes over of its request.
#[derive(Clone, Copy)]
pub(crate) struct Asked<'a> {
    /// The type: CON or NON.
    pub kind: Kind,
    /// The message ID.
    pub mid: u16,
    /// The token.
    pub token: &'a [u8],
}

/// What the reply to a message takes over of it.
pub(crate) fn asked_by(message: &Message) -> Asked<'_>
    ensures kind { result.kind ≡ message.now.kind }
    ensures mid { result.mid ≡ message.now.mid }
    ensures token { result.token.now ≡ message.now.token }
    ensures short { length result.token.now ≤ 8 }
{
    // For the proof alone: a message whose options are read is known to be well formed.
    let _known = message.options();
    Asked {
        kind: message.kind(),
        mid: message.mid(),
        token: message.token().as_slice(),
    }
}

/// The type and the message ID of the reply to a request: none to a NON that is rejected. A NON is replied to with the
/// device's own message ID.
fn reply_head(next_id: u16, asked: Asked<'_>, is_rejected: bool) -> Option<(Kind, u16)>
    ensures { (number : Option ℕ) (answer : Said)
        → reply_with next_id asked.entry.kind asked.entry.mid asked.entry.token.now is_rejected number answer
        ≡ option_map (λ h. response h.0 h.1 asked.entry.token.now number answer) result }
{
    match asked.kind {
        Kind::Con => Some((Kind::Ack, asked.mid)),
        Kind::Non => {
            if is_rejected {
                None
            } else {
                Some((Kind::Non, next_id))
            }
        }
        Kind::Ack | Kind::Rst => None,
    }
}

/// The datagram that replies to a request with this answer and this Observe number, if one does.
pub(crate) fn reply_datagram(
    alloc: Global,
    buffer: &mut Vec<u8>,
    next_id: u16,
    asked: Asked<'_>,
    is_rejected: bool,
    number: Option<u32>,
    answer: &Answer,
) -> Result<Option<Bytes>, AllocError>
    requires { length asked.token.now ≤ 8 }
    ensures { IfOk result (λ d. d ≡ option_map spelling
        (reply_with next_id asked.entry.kind asked.entry.mid asked.entry.token.now is_rejected number answer.now)) }
{
    let Some((kind, mid)) = reply_head(next_id, asked, is_rejected) else {
        return Ok(None);
    };
    let bytes = answer_datagram(alloc, buffer, kind, mid, asked.token, number, answer)?;
    Ok(Some(bytes))
}

/// The datagram that replies to a request with a number in digits, if one does.
pub(crate) fn number_reply(
    alloc: Global,
    buffer: &mut Vec<u8>,
    next_id: u16,
    asked: Asked<'_>,
    number: i64,
) -> Result<Option<Bytes>, AllocError>
    requires { length asked.token.now ≤ 8 }
    ensures { IfOk result (λ d. d ≡ option_map spelling
        (reply_with next_id asked.entry.kind asked.entry.mid asked.entry.token.now false None
        (content 0 (signed_decimal number)))) }
{
    let Some((kind, mid)) = reply_head(next_id, asked, false) else {
        return Ok(None);
    };
    let bytes = number_datagram(alloc, buffer, kind, mid, asked.token, number)?;
    Ok(Some(bytes))
}

/// An empty Reset of this message ID.
pub(crate) fn reset(alloc: Global, mid: u16) -> Message
    ensures { result ≡ reset mid }
{
    Message::of_parts(
        Kind::Rst,
        0,
        mid,
        Bytes::new(alloc),
        Options::new(alloc),
        Bytes::new(alloc),
    )
}

/// The datagram of a message.
fn datagram(alloc: Global, message: &Message) -> Result<Bytes, AllocError>
    ensures { IfOk result (λ b. b ≡ spelling message.now) }
{
    Ok(Bytes::from_vec(encode(alloc, message)?))
}

/// A datagram that is sent to a server, alone, or nothing.
pub(crate) fn sent_to(
    alloc: Global,
    server: u16,
    datagram: &Option<Bytes>,
) -> Result<Outputs, AllocError>
    ensures sends { IfOk result (λ o. o ≡ sent_to server datagram.now) }
    ensures may_lack_memory { OnErr result (is_some datagram.now ≡ true) }
{
    match datagram {
        None => Ok(Outputs::none(alloc)),
        Some(bytes) => Outputs::one(
            alloc,
            Output::Send {
                server,
                bytes: bytes.clone()?,
            },
        ),
    }
}

/// A message that is sent to a server, alone.
pub(crate) fn sent(alloc: Global, server: u16, message: &Message) -> Result<Outputs, AllocError>
    ensures { IfOk result (λ o. o ≡ Send server (spelling message.now) ∷ []) }
{
    let bytes = datagram(alloc, message)?;
    Outputs::one(alloc, Output::Send { server, bytes })
}
