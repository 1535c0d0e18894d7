//! Where a payload stops being TLV, in words.

ghost use Rattle.std.specs.Prelude.{◌≡◌, IfOk};
ghost use Rattle.std.specs.String.{string_bytes};
ghost use Rattle.request_reasons.specs.TlvWords.{around_text, lack_words, left_text, record_type_text, tlv_words};

use crate::length_words::byte_count;
use lwm2m_values::{Around, RecordType, TlvLack, TlvPlace};
use std::alloc::{AllocError, Global};

/// The type of a record.
fn record_type_text(kind: RecordType) -> &'static str
    ensures { result.now ≡ record_type_text kind }
{
    match kind {
        RecordType::Instance => "an object instance",
        RecordType::Part => "a resource instance",
        RecordType::Multi => "a multiple resource",
        RecordType::Single => "a resource",
    }
}

/// What is around a record.
fn around_text(around: Around) -> &'static str
    ensures { result.now ≡ around_text around }
{
    match around {
        Around::Top => "the payload",
        Around::InInstance => "an object instance",
        Around::InMulti => "a multiple resource",
    }
}

/// How many bytes are left.
fn left_text(alloc: Global, left: usize) -> Result<String, AllocError>
    ensures { IfOk result (λ text. string_bytes text ≡ left_text left) }
{
    if left == 1 {
        return String::from_str(alloc, "1 is left");
    }
    format!(in alloc; "{left} are left")
}

/// What the record lacks.
fn lack_words(alloc: Global, lack: TlvLack) -> Result<String, AllocError>
    ensures { IfOk result (λ text. string_bytes text ≡ lack_words lack) }
{
    match lack {
        TlvLack::Head { needed, left } => {
            let header = byte_count(alloc, needed)?;
            format!(in alloc; "a record's header of {header} is cut after {left}")
        }
        TlvLack::Content { length, left } => {
            let value = byte_count(alloc, length)?;
            let rest = left_text(alloc, left)?;
            format!(in alloc; "a value of {value} is to follow, and {rest}")
        }
        TlvLack::Nesting { kind, around } => {
            let record = record_type_text(kind);
            let holder = around_text(around);
            format!(in alloc; "{record} stands within {holder}")
        }
    }
}

/// Where a payload stops being TLV, and what the record there lacks.
pub(crate) fn tlv_words(alloc: Global, place: TlvPlace) -> Result<String, AllocError>
    ensures { IfOk result (λ text. string_bytes text ≡ tlv_words place) }
{
    let at = place.at;
    let lack = lack_words(alloc, place.lack)?;
    format!(in alloc; "the payload is not TLV: at byte {at} {lack}")
}
