//! Values of resources, and their words (OMA LwM2M 1.1 Core).

use crate::forms::{self, put_hex, put_text};
use crate::places::{self, put_yes_no};
use crate::question::Question;
use case_sheet::Sheet;
use lwm2m_values::{Value, ValueKind};
use octets::Bytes;

/// Answers a question of this subject; `false` where the subject is none of this module's.
pub fn answer(subject: &str, question: &mut Question<'_>, out: &mut Sheet) -> bool {
    match subject {
        "good" => put_yes_no(out, value(question).is_good()),
        "copy" => copy(question, out),
        _ => return false,
    }
    true
}

/// `copy KIND VALUE`: a copy of a value, and whether it equals its source.
fn copy(question: &mut Question<'_>, out: &mut Sheet) {
    let value = value(question);
    match value.copy() {
        Ok(copy) => put_copy(out, &value, &copy),
        Err(_) => out.cut(),
    }
}

fn put_copy(out: &mut Sheet, value: &Value, copy: &Value) {
    out.put(if copy == value { "equal " } else { "unequal " });
    put_value(out, copy);
}

/// Adds the words `KIND VALUE` of a value.
pub fn put_value(out: &mut Sheet, value: &Value) {
    out.put_all(&[kind_name(value.kind()), " "]);
    match value {
        Value::Text(text) => put_text(out, text.as_str()),
        Value::Whole(number) | Value::Moment(number) => out.put_signed(*number),
        Value::Flag(flag) => out.put(if *flag { "true" } else { "false" }),
        Value::Opaque(bytes) => put_hex(out, bytes.as_slice()),
        Value::Link(object, instance) => {
            out.put_number(u64::from(*object));
            out.put(":");
            out.put_number(u64::from(*instance));
        }
    }
}

/// What is left of a question, as the value of the words `KIND VALUE`.
pub fn value(question: &mut Question<'_>) -> Value {
    match kind(question) {
        ValueKind::Text => text(question),
        ValueKind::Whole => Value::Whole(question.last_integer()),
        ValueKind::Flag => Value::Flag(flag(question)),
        ValueKind::Opaque => Value::Opaque(Bytes::from_vec(forms::last_bytes(question))),
        ValueKind::Moment => Value::Moment(question.last_integer()),
        ValueKind::Link => link(question),
    }
}

fn text(question: &mut Question<'_>) -> Value {
    let words = question.rest();
    Value::Text(places::text_value(question, words))
}

fn flag(question: &mut Question<'_>) -> bool {
    match question.rest() {
        "true" => true,
        "false" => false,
        _ => {
            question.refuse("neither true nor false");
            false
        }
    }
}

fn link(question: &mut Question<'_>) -> Value {
    let Some((object, instance)) = question.rest().split_once(':') else {
        question.refuse("a link without a colon");
        return Value::Link(0, 0);
    };
    let object = question.half_of(object);
    question.turn_to(instance);
    Value::Link(object, question.last_half())
}

/// The kind that the next word names.
pub fn kind(question: &mut Question<'_>) -> ValueKind {
    match question.word() {
        "text" => ValueKind::Text,
        "whole" => ValueKind::Whole,
        "flag" => ValueKind::Flag,
        "opaque" => ValueKind::Opaque,
        "moment" => ValueKind::Moment,
        "link" => ValueKind::Link,
        _ => {
            question.refuse("not a kind of value");
            ValueKind::Flag
        }
    }
}

/// The name of a kind.
pub fn kind_name(kind: ValueKind) -> &'static str {
    match kind {
        ValueKind::Text => "text",
        ValueKind::Whole => "whole",
        ValueKind::Flag => "flag",
        ValueKind::Opaque => "opaque",
        ValueKind::Moment => "moment",
        ValueKind::Link => "link",
    }
}
