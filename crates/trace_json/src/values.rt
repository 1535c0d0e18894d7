//! The objects of values.

ghost use Rattle.std.specs.Prelude.{◌≡◌, ◌++◌, OnOk};
ghost use Rattle.json.specs.Tree.{members_tokens};
ghost use Rattle.serde_json.specs.Written.{members_outline};
ghost use Rattle.trace_json.specs.Json.{fields_json, object_json};
ghost use Rattle.trace_json.specs.Steps.{value_fields, value_json};
ghost use Rattle.trace_json.specs.Writing.{Has64Bits, tokens_of};

use crate::members::{put_flag, put_hex, put_integer, put_number, put_string};
use json::Writer;
use lwm2m_values::Value;
use scenario_words::kind_word;
use std::alloc::{AllocError, Global};

/// Writes what a value is, and the end of its object.
fn put_content(alloc: Global, out: &mut Writer, value: &Value) -> Result<(), AllocError>
    ensures adds { OnOk result
        (out.new.tokens ≡ out.old.tokens ++ members_tokens (members_outline (fields_json (value_fields value.now)))) }
    ensures before { out.new.before ≡ out.old.before }
    ensures exact { OnOk result (Has64Bits (object_json (value_fields value.now))) }
{
    match value {
        Value::Text(text) => put_string(out, "value", text.as_str())?,
        Value::Whole(number) | Value::Moment(number) => put_integer(out, "value", *number)?,
        Value::Flag(flag) => put_flag(out, "value", *flag)?,
        Value::Opaque(bytes) => put_hex(alloc, out, "value", bytes.as_slice())?,
        Value::Link(object, instance) => {
            put_number(out, "object", *object as u64)?;
            put_number(out, "instance", *instance as u64)?;
        }
    }
    out.end_object()?;
    Ok(())
}

/// Writes a value.
#[tactic(auto, unfolding(crate::specs::Steps::value_json))]
pub(crate) fn put_value(alloc: Global, out: &mut Writer, value: &Value) -> Result<(), AllocError>
    ensures adds { OnOk result (out.new.tokens ≡ out.old.tokens ++ tokens_of (value_json value.now)) }
    ensures before { out.new.before ≡ out.old.before }
    ensures exact { OnOk result (Has64Bits (value_json value.now)) }
{
    out.begin_object()?;
    put_string(out, "kind", kind_word(value.kind()))?;
    put_content(alloc, out, value)?;
    Ok(())
}
