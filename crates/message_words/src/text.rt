//! A message or a datagram in words.
ghost use Rattle.std.specs.Prelude.{◌≡◌, ◌++◌, codes, IfOk, OnOk};
ghost use Rattle.std.specs.Fmt.{decimal};
ghost use Rattle.std.specs.String.{string_bytes};
ghost use Rattle.coap_codec.specs.declared.fault.CoapFault.{CoapFault as Fault};
ghost use Rattle.coap_codec.specs.Fault.{HasFault};
ghost use Rattle.coap_codec.specs.Message.{Message as MessageData, Spells};
ghost use Rattle.coap_codec.specs.Reading.{reading_of};
ghost use Rattle.message_words.specs.Text.{IsOneLine, fault_reason, message_text, no_message, reading_text, token_text};

use crate::names::{put_code, type_name};
use crate::numbers::put_decimal;
use crate::options::put_options;
use crate::payload::{format_in, put_content};
use coap_codec::{CoapFault, Message, decode};
use scenario_words::hex_word;
use std::alloc::{AllocError, Global};

/// Room for a datagram in words, which mostly takes less.
const USUAL_LENGTH: usize = 128;

/// Writes words, and others after them.
fn put_words(out: &mut String, first: &str, second: &str) -> Result<(), AllocError>
    ensures { OnOk result (string_bytes out.new ≡ string_bytes out.old ++ (first.now ++ second.now)) }
{
    out.push_str(first)?;
    out.push_str(second)
}

fn put_message_id(out: &mut String, mid: u16) -> Result<(), AllocError>
    ensures { OnOk result (string_bytes out.new ≡ string_bytes out.old ++ (codes ", message " ++ decimal mid)) }
{
    out.push_str(", message ")?;
    put_decimal(out, usize::from(mid))
}

/// Writes a token, where there is one.
fn put_token(alloc: Global, out: &mut String, token: &[u8]) -> Result<(), AllocError>
    ensures { OnOk result (string_bytes out.new ≡ string_bytes out.old ++ token_text token.now) }
{
    if token.is_empty() {
        return Ok(());
    }
    let word = hex_word(alloc, token)?;
    out.push_str(", token ")?;
    out.push_str(word.as_str())
}

/// Writes a message.
fn put_message(alloc: Global, out: &mut String, message: &Message) -> Result<(), AllocError>
    ensures { OnOk result (string_bytes out.new ≡ string_bytes out.old ++ message_text message.now) }
{
    put_words(out, type_name(message.kind()), " ")?;
    put_code(out, message.code())?;
    put_message_id(out, message.mid())?;
    put_token(alloc, out, message.token().as_slice())?;
    let options = message.options().as_slice();
    put_options(alloc, out, options)?;
    put_content(alloc, out, format_in(options), message.payload().as_slice())
}

fn words_of(alloc: Global, message: &Message) -> Result<String, AllocError>
    ensures { IfOk result (λ text. string_bytes text ≡ message_text message.now) }
{
    let mut out = String::with_capacity(alloc, USUAL_LENGTH)?;
    put_message(alloc, &mut out, message)?;
    Ok(out)
}

/// A message in words: type, code, message ID, token, options, Content-Format and payload, in this order, as in `ACK
/// 2.05 Content, message 1, token AA, text/plain "80"`. There is no control character in it, so no line feed, whatever
/// bytes a sender chose (`one_line`).
#[tactic(auto, using(crate::proofs::OneLine::message_said))]
pub fn message_text(alloc: Global, message: &Message) -> Result<String, AllocError>
    ensures text { IfOk result (λ text. string_bytes text ≡ message_text message.now) }
    ensures one_line { IfOk result (λ text. IsOneLine (string_bytes text)) }
{
    words_of(alloc, message)
}

/// Why bytes are not a message.
pub fn fault_reason(fault: CoapFault) -> &'static str
    ensures { result.now ≡ fault_reason fault }
{
    match fault {
        CoapFault::Short => "fewer than four bytes",
        CoapFault::Version => "a version other than 1",
        CoapFault::TokenLength => "a token length above 8",
        CoapFault::EmptyWithData => "an empty message with bytes behind its header",
        CoapFault::OptionCut => "the bytes end within a token or an option",
        CoapFault::OptionReserved => "a reserved nibble",
        CoapFault::OptionNumber => "an option number above 65535",
        CoapFault::PayloadEmpty => "a payload marker with no payload",
        CoapFault::Memory => "out of memory",
    }
}

/// Writes that bytes are not a message, and why.
fn put_fault(out: &mut String, fault: CoapFault) -> Result<(), AllocError>
    ensures { OnOk result (string_bytes out.new ≡ string_bytes out.old ++ no_message fault) }
{
    put_words(out, "no message: ", fault_reason(fault))
}

/// Writes a datagram in words, as `datagram_text` has them.
pub fn put_datagram(alloc: Global, out: &mut String, bytes: &[u8]) -> Result<(), AllocError>
    ensures { OnOk result (string_bytes out.new ≡ string_bytes out.old ++ reading_text (reading_of bytes.now)) }
{
    match decode(alloc, bytes) {
        Ok(message) => put_message(alloc, out, &message),
        Err(CoapFault::Memory) => Err(AllocError),
        Err(fault) => put_fault(out, fault),
    }
}

fn words_said(alloc: Global, bytes: &[u8]) -> Result<String, AllocError>
    ensures { IfOk result (λ text. string_bytes text ≡ reading_text (reading_of bytes.now)) }
{
    let mut out = String::with_capacity(alloc, USUAL_LENGTH)?;
    put_datagram(alloc, &mut out, bytes)?;
    Ok(out)
}

/// A datagram in words: those of the message that the bytes spell, or `no message: ` and the fault that they have; for
/// all bytes one of the two, in one line.
pub fn datagram_text(alloc: Global, bytes: &[u8]) -> Result<String, AllocError>
    ensures text { IfOk result (λ text. string_bytes text ≡ reading_text (reading_of bytes.now)) }
    ensures message { (m : MessageData) → Spells bytes.now m
        → IfOk result (λ text. string_bytes text ≡ message_text m) }
    ensures fault { (f : Fault) → HasFault bytes.now f → IfOk result (λ text. string_bytes text ≡ no_message f) }
    ensures one_line { IfOk result (λ text. IsOneLine (string_bytes text)) }
{
    words_said(alloc, bytes)
}
