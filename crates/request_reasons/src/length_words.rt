//! The length of a value where no value of its kind has it, in words.

ghost use Rattle.std.specs.Prelude.{◌≡◌, IfOk};
ghost use Rattle.std.specs.String.{string_bytes};
ghost use Rattle.request_reasons.specs.LengthWords.{above, byte_count, length_words, other_than, stored_words};
ghost use Rattle.request_reasons.specs.LengthWords.{spelled_words};

use lwm2m_payloads::Format;
use lwm2m_values::ValueKind;
use std::alloc::{AllocError, Global};

/// A number of bytes.
pub(crate) fn byte_count(alloc: Global, count: usize) -> Result<String, AllocError>
    ensures { IfOk result (λ text. string_bytes text ≡ byte_count count) }
{
    if count == 1 {
        return String::from_str(alloc, "1 byte");
    }
    format!(in alloc; "{count} bytes")
}

/// A length above a limit.
fn above(alloc: Global, limit: usize, length: usize) -> Result<String, AllocError>
    ensures { IfOk result (λ text. string_bytes text ≡ above limit length) }
{
    if length > limit {
        return format!(in alloc; ": it has {length} bytes, the limit is {limit}");
    }
    Ok(String::new(alloc))
}

/// A length that is not among those that are possible.
fn other_than(
    alloc: Global,
    is_possible: bool,
    lengths: &str,
    length: usize,
) -> Result<String, AllocError>
    ensures { IfOk result (λ text. string_bytes text ≡ other_than is_possible lengths.now length) }
{
    if is_possible {
        return Ok(String::new(alloc));
    }
    let count = byte_count(alloc, length)?;
    format!(in alloc; ": it has {count}, not {lengths}")
}

/// The same of a value whose bytes are as TLV has them.
fn stored_words(alloc: Global, kind: ValueKind, length: usize) -> Result<String, AllocError>
    ensures { IfOk result (λ text. string_bytes text ≡ stored_words kind length) }
{
    match kind {
        ValueKind::Text => above(alloc, 255, length),
        ValueKind::Opaque => above(alloc, 1024, length),
        ValueKind::Whole | ValueKind::Moment => {
            let is_possible = length == 1 || length == 2 || length == 4 || length == 8;
            other_than(alloc, is_possible, "1, 2, 4 or 8", length)
        }
        ValueKind::Flag => other_than(alloc, length == 1, "1", length),
        ValueKind::Link => other_than(alloc, length == 4, "4", length),
    }
}

/// The same of a value in plain text: an Opaque is in base64 there.
fn spelled_words(alloc: Global, kind: ValueKind, length: usize) -> Result<String, AllocError>
    ensures { IfOk result (λ text. string_bytes text ≡ spelled_words kind length) }
{
    match kind {
        ValueKind::Text => above(alloc, 255, length),
        ValueKind::Opaque => above(alloc, 1368, length),
        ValueKind::Whole | ValueKind::Moment | ValueKind::Flag | ValueKind::Link => {
            Ok(String::new(alloc))
        }
    }
}

/// The length of a value of a kind in a format, behind the words of its fault, if no such value has it.
pub(crate) fn length_words(
    alloc: Global,
    format: Format,
    kind: ValueKind,
    length: usize,
) -> Result<String, AllocError>
    ensures { IfOk result (λ text. string_bytes text ≡ length_words format kind length) }
{
    match format {
        Format::PlainText => spelled_words(alloc, kind, length),
        Format::OctetStream | Format::Tlv => stored_words(alloc, kind, length),
    }
}
