//! Options in words.
ghost use Rattle.std.specs.Prelude.{◌≡◌, ◌≤◌, ◌++◌, true, false, length, codes, MatchOption, OnOk};
ghost use Rattle.std.specs.String.{string_bytes};
ghost use Rattle.coap_codec.specs.Number.{big_endian};
ghost use Rattle.message_words.specs.Options.{is_recognized, option_text, options_text, segment_text};
ghost use Rattle.message_words.specs.Options.{plain_option, uri_text};
ghost use Rattle.message_words.specs.Names.{format_text};
ghost use Rattle.std.specs.Fmt.{decimal};

use crate::names::put_format;
use crate::numbers::put_decimal;
use crate::uri::put_uri_text;
use coap_codec::option_number::{
    ACCEPT, CONTENT_FORMAT, LOCATION_PATH, OBSERVE, URI_PATH, URI_QUERY,
};
use coap_codec::{Opt, uint};
use scenario_words::hex_word;
use std::alloc::{AllocError, Global};

/// Whether an option after one of the number `before` is understood as a number.
fn is_recognized(number: u16, most: usize, before: u16, option: &Opt) -> bool
    ensures { result ≡ is_recognized number most before option.now }
{
    option.number == number && (before != number && option.value.len() <= most)
}

/// The number that an option says, where it is understood as one.
pub(crate) fn recognized_value(number: u16, most: usize, before: u16, option: &Opt) -> Option<u32>
    requires { most ≤ 4 }
    ensures { MatchOption result (is_recognized number most before option.now ≡ false)
        (λ n. (is_recognized number most before option.now ≡ true) × (n ≡ big_endian option.now.value)) }
{
    if !is_recognized(number, most, before, option) {
        return None;
    }
    Some(uint(option.value.as_slice()))
}

/// Writes a segment of a path, and what is before its first one.
fn put_segment(
    alloc: Global,
    out: &mut String,
    lead: &str,
    before: u16,
    option: &Opt,
) -> Result<(), AllocError>
    ensures { OnOk result (string_bytes out.new ≡ string_bytes out.old ++ segment_text lead.now before option.now) }
{
    if before != option.number {
        out.push_str(lead)?;
    }
    out.push('/')?;
    put_uri_text(alloc, out, option.value.as_slice())
}

fn put_query(alloc: Global, out: &mut String, query: &[u8]) -> Result<(), AllocError>
    ensures { OnOk result (string_bytes out.new ≡ string_bytes out.old ++ (codes ", ?" ++ uri_text query.now)) }
{
    out.push_str(", ?")?;
    put_uri_text(alloc, out, query)
}

fn put_observe(out: &mut String, value: u32) -> Result<(), AllocError>
    ensures { OnOk result (string_bytes out.new ≡ string_bytes out.old ++ (codes ", observe " ++ decimal value)) }
{
    out.push_str(", observe ")?;
    put_decimal(out, value as usize)
}

fn put_accept(out: &mut String, format: u32) -> Result<(), AllocError>
    ensures { OnOk result (string_bytes out.new ≡ string_bytes out.old ++ (codes ", accept " ++ format_text format)) }
{
    out.push_str(", accept ")?;
    put_format(out, format)
}

/// Writes an option by its number and its value.
fn put_plain_option(alloc: Global, out: &mut String, option: &Opt) -> Result<(), AllocError>
    ensures { OnOk result (string_bytes out.new ≡ string_bytes out.old ++ plain_option option.now) }
{
    let value = hex_word(alloc, option.value.as_slice())?;
    out.push_str(", option ")?;
    put_decimal(out, usize::from(option.number))?;
    out.push(' ')?;
    out.push_str(value.as_str())
}

/// Writes an option that stands after one of the number `before`.
fn put_option(alloc: Global, out: &mut String, before: u16, option: &Opt) -> Result<(), AllocError>
    ensures { OnOk result (string_bytes out.new ≡ string_bytes out.old ++ option_text before option.now) }
{
    if option.number == URI_PATH {
        return put_segment(alloc, out, ", ", before, option);
    }
    if option.number == LOCATION_PATH {
        return put_segment(alloc, out, ", location ", before, option);
    }
    if option.number == URI_QUERY {
        return put_query(alloc, out, option.value.as_slice());
    }
    if let Some(value) = recognized_value(OBSERVE, 3, before, option) {
        return put_observe(out, value);
    }
    if let Some(format) = recognized_value(ACCEPT, 2, before, option) {
        return put_accept(out, format);
    }
    if is_recognized(CONTENT_FORMAT, 2, before, option) {
        return Ok(());
    }
    put_plain_option(alloc, out, option)
}

/// Writes the options in their order, all but the Content-Format.
pub(crate) fn put_options(
    alloc: Global,
    out: &mut String,
    options: &[Opt],
) -> Result<(), AllocError>
    ensures { OnOk result (string_bytes out.new ≡ string_bytes out.old ++ options_text 0 options.now) }
{
    let mut before: u16 = 0;
    for option in options {
        put_option(alloc, out, before, option)?;
        before = option.number;
    }
    Ok(())
}
