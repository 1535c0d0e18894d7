//! The names of types, of codes and of Content-Formats.
ghost use Rattle.std.specs.Prelude.{◌≡◌, ◌++◌, ◌/◌, ◌%◌, option_map, IfOk, OnOk};
ghost use Rattle.std.specs.String.{string_bytes};
ghost use Rattle.message_words.specs.Names.{class_and_detail, client_errors, code_name, code_text, format_text};
ghost use Rattle.message_words.specs.Names.{formats, type_name, methods, name_in, server_errors, successes};

use crate::numbers::{put_decimal, put_digit};
use coap_codec::Kind;
use std::alloc::{AllocError, Global};

/// The type of a message.
pub(crate) fn type_name(kind: Kind) -> &'static str
    ensures { result.now ≡ type_name kind }
{
    match kind {
        Kind::Con => "CON",
        Kind::Non => "NON",
        Kind::Ack => "ACK",
        Kind::Rst => "RST",
    }
}

fn method(detail: u8) -> Option<&'static str>
    ensures { option_map (λ name. name.now) result ≡ name_in methods detail }
{
    match detail {
        1 => Some("GET"),
        2 => Some("POST"),
        3 => Some("PUT"),
        4 => Some("DELETE"),
        5 => Some("FETCH"),
        6 => Some("PATCH"),
        7 => Some("iPATCH"),
        _ => None,
    }
}

fn success(detail: u8) -> Option<&'static str>
    ensures { option_map (λ name. name.now) result ≡ name_in successes detail }
{
    match detail {
        1 => Some("Created"),
        2 => Some("Deleted"),
        3 => Some("Valid"),
        4 => Some("Changed"),
        5 => Some("Content"),
        31 => Some("Continue"),
        _ => None,
    }
}

fn client_error(detail: u8) -> Option<&'static str>
    ensures { option_map (λ name. name.now) result ≡ name_in client_errors detail }
{
    match detail {
        0 => Some("Bad Request"),
        1 => Some("Unauthorized"),
        2 => Some("Bad Option"),
        3 => Some("Forbidden"),
        4 => Some("Not Found"),
        5 => Some("Method Not Allowed"),
        6 => Some("Not Acceptable"),
        8 => Some("Request Entity Incomplete"),
        12 => Some("Precondition Failed"),
        13 => Some("Request Entity Too Large"),
        15 => Some("Unsupported Content-Format"),
        _ => None,
    }
}

fn server_error(detail: u8) -> Option<&'static str>
    ensures { option_map (λ name. name.now) result ≡ name_in server_errors detail }
{
    match detail {
        0 => Some("Internal Server Error"),
        1 => Some("Not Implemented"),
        2 => Some("Bad Gateway"),
        3 => Some("Service Unavailable"),
        4 => Some("Gateway Timeout"),
        5 => Some("Proxying Not Supported"),
        _ => None,
    }
}

fn code_name(code: u8) -> Option<&'static str>
    ensures { option_map (λ name. name.now) result ≡ code_name code }
{
    let detail = code % 32;
    match code / 32 {
        0 => method(detail),
        2 => success(detail),
        4 => client_error(detail),
        5 => server_error(detail),
        _ => None,
    }
}

/// Writes `C.DD`.
fn put_class_and_detail(out: &mut String, code: u8) -> Result<(), AllocError>
    ensures { OnOk result (string_bytes out.new ≡ string_bytes out.old ++ class_and_detail code) }
{
    put_digit(out, code / 32)?;
    out.push('.')?;
    put_digit(out, code % 32 / 10)?;
    put_digit(out, code % 32 % 10)
}

/// A code as class and detail, as `4.04`.
pub fn class_and_detail(alloc: Global, code: u8) -> Result<String, AllocError>
    ensures { IfOk result (λ text. string_bytes text ≡ class_and_detail code) }
{
    let mut text = String::new(alloc);
    put_class_and_detail(&mut text, code)?;
    Ok(text)
}

/// Writes a code, and its name where it has one.
pub(crate) fn put_code(out: &mut String, code: u8) -> Result<(), AllocError>
    ensures { OnOk result (string_bytes out.new ≡ string_bytes out.old ++ code_text code) }
{
    if code == 0 {
        return out.push_str("empty");
    }
    put_class_and_detail(out, code)?;
    let Some(name) = code_name(code) else {
        return Ok(());
    };
    out.push(' ')?;
    out.push_str(name)
}

/// The name of a Content-Format, where it has one.
pub fn format_name(format: u32) -> Option<&'static str>
    ensures { option_map (λ name. name.now) result ≡ name_in formats format }
{
    match format {
        0 => Some("text/plain"),
        40 => Some("link-format"),
        42 => Some("octet-stream"),
        60 => Some("cbor"),
        110 => Some("senml+json"),
        112 => Some("senml+cbor"),
        11542 => Some("tlv"),
        11543 => Some("lwm2m+json"),
        _ => None,
    }
}

/// Writes a Content-Format: its name, or its number.
pub(crate) fn put_format(out: &mut String, format: u32) -> Result<(), AllocError>
    ensures { OnOk result (string_bytes out.new ≡ string_bytes out.old ++ format_text format) }
{
    match format_name(format) {
        Some(name) => out.push_str(name),
        None => put_decimal(out, format as usize),
    }
}
