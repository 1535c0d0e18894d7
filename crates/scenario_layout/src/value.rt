ghost use Rattle.std.specs.Prelude.{◌≡◌, ◌≢◌, ◌≤◌, true, false, length, IfOk, IfErr, IfSome, MatchOption};
ghost use Rattle.std.specs.Str.{IsUtf8, is_utf8};
ghost use Rattle.byte_layout.specs.Exact.{IsBytes};
ghost use Rattle.lwm2m_values.specs.Value.{IsGood};
ghost use Rattle.byte_layout.specs.declared.fault.ReadError.TheVariants.{Memory};
ghost use Rattle.byte_layout.specs.Outcome.{Gives};
ghost use Rattle.scenario_layout.specs.Value.{kind, fits, text, opaque, of_kind, value};

use byte_layout::{Break, ReadError, bytes_at, i64_at, u8_at, u16_at, u16_at_most};
use lwm2m_values::{Text, Value, ValueKind};
use octets::Bytes;
use std::alloc::{AllocError, Global};

/// The number of a kind: 0 Text, 1 Whole, 2 Flag, 3 Opaque, 4 Moment, 5 Link.
#[tactic(auto, unfolding(crate::specs::Value::kind))]
pub fn kind_at(bytes: &[u8]) -> Result<(ValueKind, &[u8]), ReadError>
    ensures read { Gives (λ x. (x.0, x.1.now)) result (kind.read bytes.now) }
    ensures no_memory { IfErr result (λ e. e ≢ Memory) }
{
    let (number, rest) = u8_at(bytes)?;
    match number {
        0 => Ok((ValueKind::Text, rest)),
        1 => Ok((ValueKind::Whole, rest)),
        2 => Ok((ValueKind::Flag, rest)),
        3 => Ok((ValueKind::Opaque, rest)),
        4 => Ok((ValueKind::Moment, rest)),
        5 => Ok((ValueKind::Link, rest)),
        _ => Err(ReadError::Fault(Break::BadField(bytes.len()))),
    }
}

/// A value, of this kind where one is wanted: the number of its kind, and what a value of that kind holds.
#[tactic(auto, unfolding(crate::specs::Value::value))]
pub fn value_at(
    alloc: Global,
    wanted: Option<ValueKind>,
    bytes: &[u8],
) -> Result<(Value, &[u8]), ReadError>
    ensures read { Gives (λ x. (x.0, x.1.now)) result ((value wanted).read bytes.now) }
    ensures good { IfOk result (λ x. IsGood x.0) }
{
    let (kind, rest) = kind_at(bytes)?;
    if !is_wanted(wanted, kind) {
        return Err(ReadError::Fault(Break::BadField(bytes.len())));
    }
    held_at(alloc, kind, rest)
}

fn is_wanted(wanted: Option<ValueKind>, kind: ValueKind) -> bool
    ensures { result ≡ fits wanted kind }
{
    match wanted {
        None => true,
        Some(wanted) => kind as u8 == wanted as u8,
    }
}

/// What a value of this kind holds.
fn held_at(alloc: Global, kind: ValueKind, bytes: &[u8]) -> Result<(Value, &[u8]), ReadError>
    ensures read { Gives (λ x. (x.0, x.1.now)) result ((of_kind kind).read bytes.now) }
    ensures good { IfOk result (λ x. IsGood x.0) }
{
    match kind {
        ValueKind::Text => {
            let (text, rest) = text_at(alloc, bytes)?;
            Ok((Value::Text(text), rest))
        }
        ValueKind::Whole => {
            let (number, rest) = i64_at(bytes)?;
            Ok((Value::Whole(number), rest))
        }
        ValueKind::Flag => flag_at(bytes),
        ValueKind::Opaque => {
            let (content, rest) = opaque_at(alloc, bytes)?;
            Ok((Value::Opaque(content), rest))
        }
        ValueKind::Moment => {
            let (number, rest) = i64_at(bytes)?;
            Ok((Value::Moment(number), rest))
        }
        ValueKind::Link => {
            let (object, rest) = u16_at(bytes)?;
            let (instance, rest) = u16_at(rest)?;
            Ok((Value::Link(object, instance), rest))
        }
    }
}

fn flag_at(bytes: &[u8]) -> Result<(Value, &[u8]), ReadError>
    ensures read { Gives (λ x. (x.0, x.1.now)) result ((of_kind ValueKind.Flag).read bytes.now) }
    ensures good { IfOk result (λ x. IsGood x.0) }
{
    let (flag, rest) = u8_at(bytes)?;
    match flag {
        0 => Ok((Value::Flag(false), rest)),
        1 => Ok((Value::Flag(true), rest)),
        _ => Err(ReadError::Fault(Break::BadField(bytes.len()))),
    }
}

#[tactic(auto, unfolding(crate::specs::Value::text))]
fn text_at(alloc: Global, bytes: &[u8]) -> Result<(Text, &[u8]), ReadError>
    ensures read { Gives (λ x. (x.0, x.1.now)) result (text.read bytes.now) }
    ensures good { IfOk result (λ x. IsUtf8 x.0 × (length x.0 ≤ 255)) }
{
    let (len, rest) = u8_at(bytes)?;
    let (field, rest) = bytes_at(usize::from(len), rest)?;
    let Some(text) = utf8(field) else {
        return Err(ReadError::Fault(Break::BadField(bytes.len())));
    };
    Ok((Text::from_str(alloc, text)?, rest))
}

/// The text of bytes that are UTF-8.
fn utf8(bytes: &[u8]) -> Option<&str>
    ensures test { MatchOption result (is_utf8 bytes.now ≡ false)
        (λ s. (s.now ≡ bytes.now) × (is_utf8 bytes.now ≡ true)) }
    ensures found { IfSome result (λ s. IsUtf8 bytes.now) }
{
    match str::from_utf8(bytes) {
        Ok(text) => Some(text),
        Err(_) => None,
    }
}

#[tactic(auto, unfolding(crate::specs::Value::opaque))]
fn opaque_at(alloc: Global, bytes: &[u8]) -> Result<(Bytes, &[u8]), ReadError>
    ensures read { Gives (λ x. (x.0, x.1.now)) result (opaque.read bytes.now) }
    ensures good { IfOk result (λ x. IsBytes x.0 × (length x.0 ≤ 1024)) }
{
    let (len, rest) = u16_at_most(1024, bytes)?;
    let (field, rest) = bytes_at(usize::from(len), rest)?;
    Ok((copy_of(alloc, field)?, rest))
}

fn copy_of(alloc: Global, bytes: &[u8]) -> Result<Bytes, AllocError>
    ensures same { IfOk result (λ b. b ≡ bytes.now) }
    ensures bytes { IfOk result (λ b. IsBytes b) }
{
    Bytes::from_slice(alloc, bytes)
}
