//! The members of an object, written one after another.

ghost use Rattle.std.specs.Prelude.{◌≡◌, ◌++◌, OnOk, option_map};
ghost use Rattle.serde_json.specs.Data.{boolean, string};
ghost use Rattle.hex.specs.Hex.{encode_upper};
ghost use Rattle.trace_json.specs.Json.{integer_json, number_json, object_json};
ghost use Rattle.trace_json.specs.Notes.{if_there};
ghost use Rattle.trace_json.specs.Steps.{hex_json};
ghost use Rattle.trace_json.specs.Writing.{Has64Bits, fields_tokens, member_tokens};

use json::Writer;
use std::alloc::{AllocError, Global};

/// Writes a number from 0 on.
pub fn put_number(out: &mut Writer, key: &str, number: u64) -> Result<(), AllocError>
    ensures adds { OnOk result (out.new.tokens ≡ out.old.tokens ++ member_tokens key.now (number_json number)) }
    ensures before { out.new.before ≡ out.old.before }
    ensures exact { Has64Bits (number_json number) }
{
    out.key(key)?;
    out.u64(number)
}

/// Writes a number, if there is one.
pub(crate) fn put_number_if(
    out: &mut Writer,
    key: &str,
    number: Option<u64>,
) -> Result<(), AllocError>
    ensures adds { OnOk result (out.new.tokens
        ≡ out.old.tokens ++ fields_tokens (if_there key.now (option_map number_json number))) }
    ensures before { out.new.before ≡ out.old.before }
    ensures exact { Has64Bits (object_json (if_there key.now (option_map number_json number))) }
{
    match number {
        None => Ok(()),
        Some(number) => put_number(out, key, number),
    }
}

/// Writes an integer.
pub(crate) fn put_integer(out: &mut Writer, key: &str, number: i64) -> Result<(), AllocError>
    ensures adds { OnOk result (out.new.tokens ≡ out.old.tokens ++ member_tokens key.now (integer_json number)) }
    ensures before { out.new.before ≡ out.old.before }
    ensures exact { Has64Bits (integer_json number) }
{
    out.key(key)?;
    out.i64(number)
}

/// Writes a text.
pub fn put_string(out: &mut Writer, key: &str, text: &str) -> Result<(), AllocError>
    ensures adds { OnOk result (out.new.tokens ≡ out.old.tokens ++ member_tokens key.now (string text.now)) }
    ensures before { out.new.before ≡ out.old.before }
{
    out.key(key)?;
    out.string(text)
}

/// Writes a text, if there is one.
pub(crate) fn put_string_if(
    out: &mut Writer,
    key: &str,
    text: Option<&str>,
) -> Result<(), AllocError>
    ensures adds { OnOk result (out.new.tokens ≡ out.old.tokens
        ++ fields_tokens (if_there key.now (option_map (λ x. string x.now) text.entry))) }
    ensures before { out.new.before ≡ out.old.before }
    ensures exact { Has64Bits (object_json (if_there key.now (option_map (λ x. string x.now) text.entry))) }
{
    match text {
        None => Ok(()),
        Some(text) => put_string(out, key, text),
    }
}

/// Writes whether something holds.
pub(crate) fn put_flag(out: &mut Writer, key: &str, flag: bool) -> Result<(), AllocError>
    ensures adds { OnOk result (out.new.tokens ≡ out.old.tokens ++ member_tokens key.now (boolean flag)) }
    ensures before { out.new.before ≡ out.old.before }
{
    out.key(key)?;
    out.boolean(flag)
}

/// Writes bytes in hex.
pub(crate) fn put_hex(
    alloc: Global,
    out: &mut Writer,
    key: &str,
    bytes: &[u8],
) -> Result<(), AllocError>
    ensures adds { OnOk result (out.new.tokens ≡ out.old.tokens ++ member_tokens key.now (hex_json bytes.now)) }
    ensures before { out.new.before ≡ out.old.before }
{
    let text = hex::encode_upper(alloc, bytes)?;
    put_string(out, key, text.as_str())
}
