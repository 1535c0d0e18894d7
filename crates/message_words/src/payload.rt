//! Content-Format and payload.
ghost use Rattle.std.specs.Prelude.{◌≡◌, ◌++◌, true, false, IfOk, MatchOption, OnOk};
ghost use Rattle.std.specs.String.{string_bytes};
ghost use Rattle.std.specs.Str.{is_utf8};
ghost use Rattle.message_words.specs.Options.{format_in};
ghost use Rattle.message_words.specs.Text.{content_text, formatted_payload, payload_text};

use crate::names::put_format;
use crate::options::recognized_value;
use coap_codec::Opt;
use coap_codec::option_number::CONTENT_FORMAT;
use scenario_words::{hex_word, quoted_word};
use std::alloc::{AllocError, Global};

/// The Content-Format.
pub(crate) fn format_in(options: &[Opt]) -> Option<u32>
    ensures { result ≡ format_in 0 options.now }
{
    let mut before: u16 = 0;
    for option in options {
        if let Some(format) = recognized_value(CONTENT_FORMAT, 2, before, option) {
            return Some(format);
        }
        before = option.number;
    }
    None
}

/// The text that bytes are, where they are UTF-8.
fn utf8_of(bytes: &[u8]) -> Option<&str>
    ensures { MatchOption result (is_utf8 bytes.now ≡ false) (λ s. (s.now ≡ bytes.now) × (is_utf8 bytes.now ≡ true)) }
{
    str::from_utf8(bytes).ok()
}

/// A payload of a Content-Format.
fn payload_text(alloc: Global, format: u32, payload: &[u8]) -> Result<String, AllocError>
    ensures { IfOk result (λ text. string_bytes text ≡ payload_text format payload.now) }
{
    if format == 0 || format == 40 {
        match utf8_of(payload) {
            Some(text) => quoted_word(alloc, text),
            None => hex_word(alloc, payload),
        }
    } else {
        hex_word(alloc, payload)
    }
}

/// Writes a Content-Format, and the payload after it where there is one.
fn put_formatted(
    alloc: Global,
    out: &mut String,
    format: u32,
    payload: &[u8],
) -> Result<(), AllocError>
    ensures { OnOk result (string_bytes out.new ≡ string_bytes out.old ++ formatted_payload format payload.now) }
{
    put_format(out, format)?;
    if payload.is_empty() {
        return Ok(());
    }
    out.push(' ')?;
    let word = payload_text(alloc, format, payload)?;
    out.push_str(word.as_str())
}

/// Writes Content-Format and payload, where there are such.
pub(crate) fn put_content(
    alloc: Global,
    out: &mut String,
    format: Option<u32>,
    payload: &[u8],
) -> Result<(), AllocError>
    ensures { OnOk result (string_bytes out.new ≡ string_bytes out.old ++ content_text format payload.now) }
{
    match format {
        Some(format) => {
            out.push_str(", ")?;
            put_formatted(alloc, out, format, payload)
        }
        None if payload.is_empty() => Ok(()),
        None => {
            let word = hex_word(alloc, payload)?;
            out.push_str(", payload ")?;
            out.push_str(word.as_str())
        }
    }
}
