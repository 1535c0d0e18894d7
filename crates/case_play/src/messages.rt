//! The message of a datagram, beside what is stated of it.

ghost use Rattle.std.specs.Prelude.{◌≡◌, ◌↔◌, IsTrue, IfOk};
ghost use Rattle.std.specs.List.{list_any};
ghost use Rattle.std.specs.Option.{option_copied};
ghost use Rattle.case_play.specs.Outputs.{HasPayload, IsMessage, IsNotification, is_observe};

use coap_codec::option_number::OBSERVE;
use coap_codec::{Opt, message_in, uint};
use lwm2m_values::Text;
use octets::Bytes;
use std::alloc::{AllocError, Global};

fn has_payload(text: Option<&Text>, payload: &Bytes) -> bool
    ensures { IsTrue result ↔ HasPayload (option_copied text.entry) payload.now }
{
    match text {
        None => true,
        Some(text) => payload.as_slice() == text.as_str().as_bytes(),
    }
}

fn is_observe(option: &Opt, number: u32) -> bool
    ensures { result ≡ is_observe number option.now }
{
    let value = option.value.as_slice();
    option.number == OBSERVE && value.len() <= 3 && uint(value) == number
}

fn has_observe(options: &[Opt], number: u32) -> bool
    ensures { result ≡ list_any (is_observe number) options.now }
{
    options.iter().any(|option| is_observe(option, number))
}

/// Whether a datagram is a message of this code, with this payload if one is stated.
pub(crate) fn is_message(
    alloc: Global,
    code: u8,
    text: Option<&Text>,
    bytes: &[u8],
) -> Result<bool, AllocError>
    ensures { IfOk result (λ b. IsTrue b ↔ IsMessage code (option_copied text.entry) bytes.now) }
{
    let Some(message) = message_in(alloc, bytes)? else {
        return Ok(false);
    };
    Ok(message.code() == code && has_payload(text, message.payload()))
}

/// Whether a datagram is a message with an Observe option of this value, and with this payload.
pub(crate) fn is_notification(
    alloc: Global,
    number: u32,
    text: &Text,
    bytes: &[u8],
) -> Result<bool, AllocError>
    ensures { IfOk result (λ b. IsTrue b ↔ IsNotification number text.now bytes.now) }
{
    let Some(message) = message_in(alloc, bytes)? else {
        return Ok(false);
    };
    let observes = has_observe(message.options().as_slice(), number);
    Ok(observes && message.payload().as_slice() == text.as_str().as_bytes())
}
