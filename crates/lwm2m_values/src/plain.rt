ghost use Rattle.std.specs.Prelude.{◌≡◌, ◌≢◌, ℕ, ◌≤◌, List, Err, length, Some, None, IfSome, IfOk, IfErr, IsErr, IsOk};
ghost use Rattle.std.specs.Prelude.{MatchResult, Bool, false, ◌∷◌, ◌++◌};
ghost use Rattle.std.specs.Fmt.{decimal};
ghost use Rattle.std.specs.Str.{IsUtf8};
ghost use Rattle.base64.specs.GeneralPurpose.{encode_of, IsBytes};
ghost use Rattle.base64.specs.Engines.{standard};
ghost use Rattle.lwm2m_values.specs.declared.fault.ValueFault.TheVariants.{BadValue, Memory};
ghost use Rattle.lwm2m_values.specs.declared.kind.ValueKind.TheVariants as kinds;
ghost use Rattle.lwm2m_values.specs.declared.value.Value.{Value};
ghost use Rattle.lwm2m_values.specs.Value.{kind_of, holds_bytes, IsGood, IsText, flag_text, text_of};
ghost use Rattle.lwm2m_values.specs.Reading.{value_of_text};

use crate::fault::ValueFault;
use crate::kind::ValueKind;
use crate::numerals::{pair_of, signed_of};
use crate::text::Text;
use crate::value::Value;
use base64::DecodeAllocError;
use base64::engine::general_purpose::STANDARD;
use itoa::Buffer;
use octets::Bytes;
use std::alloc::{AllocError, Global};

/// The text that bytes are, where they are UTF-8 and at most 255.
pub(crate) fn string_of(alloc: Global, bytes: &[u8]) -> Result<Text, ValueFault>
    ensures found { IfOk result (λ t. (t ≡ bytes.now) × IsUtf8 bytes.now × (length bytes.now ≤ 255)) }
    ensures only { IsUtf8 bytes.now → length bytes.now ≤ 255 → IfErr result (λ f. f ≡ Memory) }
    ensures may_lack_memory { IfErr result (λ f. f ≡ Memory → IsUtf8 bytes.now × (length bytes.now ≤ 255)) }
{
    if bytes.len() > 255 {
        return Err(ValueFault::BadValue);
    }
    let Ok(text) = str::from_utf8(bytes) else {
        return Err(ValueFault::BadValue);
    };
    Ok(Text::from_str(alloc, text)?)
}

/// The flag that is written `0` or `1`.
fn flag_of(text: &[u8]) -> Option<bool>
    ensures found { IfSome result (λ b. text.now ≡ flag_text b) }
    ensures only { (b : Bool) → text.now ≡ flag_text b → result ≡ Some b }
{
    match text {
        b"0" => Some(false),
        b"1" => Some(true),
        _ => None,
    }
}

/// The bytes, at most 1,024, whose base64 the text is.
fn opaque_of(alloc: Global, text: &[u8]) -> Result<Bytes, ValueFault>
    ensures found { IfOk result (λ b. (text.now ≡ encode_of standard b) × IsBytes b × (length b ≤ 1024)) }
    ensures only { (b : List ℕ) → IsBytes b → length b ≤ 1024 → text.now ≡ encode_of standard b
        → MatchResult result (λ x. x ≡ b) (λ f. f ≡ Memory) }
{
    let bytes = match STANDARD.decode(alloc, text) {
        Ok(bytes) => bytes,
        Err(DecodeAllocError::OutOfMemory) => return Err(ValueFault::Memory),
        Err(DecodeAllocError::DecodeError(_)) => return Err(ValueFault::BadValue),
    };
    if bytes.len() > 1024 {
        return Err(ValueFault::BadValue);
    }
    Ok(Bytes::from_vec(bytes))
}

/// The valid value of this kind whose plain text this is, by the kind.
fn good_of(alloc: Global, kind: ValueKind, text: &[u8]) -> Result<Value, ValueFault>
    ensures found { IfOk result (λ v. IsGood v × (kind_of v ≡ kind) × IsText v text.now) }
    ensures only { (v : Value) → IsGood v → kind_of v ≡ kind → IsText v text.now
        → MatchResult result (λ x. x ≡ v) (λ f. f ≡ Memory) }
    ensures refused { IfErr result (λ f.
        f ≢ Memory → (v : Value) → IsGood v → kind_of v ≡ kind → ¬ (IsText v text.now)) }
    ensures fixed { holds_bytes kind ≡ false → IfErr result (λ f. f ≡ BadValue) }
    ensures may_lack_memory { kind ≡ kinds.Text
        → IfErr result (λ f. f ≡ Memory → IsUtf8 text.now × (length text.now ≤ 255)) }
{
    match kind {
        ValueKind::Text => Ok(Value::Text(string_of(alloc, text)?)),
        ValueKind::Whole => signed_of(text)
            .map(Value::Whole)
            .ok_or(ValueFault::BadValue),
        ValueKind::Flag => flag_of(text).map(Value::Flag).ok_or(ValueFault::BadValue),
        ValueKind::Opaque => Ok(Value::Opaque(opaque_of(alloc, text)?)),
        ValueKind::Moment => signed_of(text)
            .map(Value::Moment)
            .ok_or(ValueFault::BadValue),
        ValueKind::Link => match pair_of(text) {
            Some((object, instance)) => Ok(Value::Link(object, instance)),
            None => Err(ValueFault::BadValue),
        },
    }
}

/// The valid value of this kind whose plain text this is, otherwise `BadValue`. The text of an Opaque is padded base64
/// (RFC 4648 section 4); that its alphabet is the standard's is shown by cases.
pub fn read_text(alloc: Global, kind: ValueKind, text: &[u8]) -> Result<Value, ValueFault>
    ensures found { IfOk result (λ v. IsGood v × (kind_of v ≡ kind) × IsText v text.now) }
    // There is no other such value, and if there is one it is read, unless an allocation fails.
    ensures only { (v : Value) → IsGood v → kind_of v ≡ kind → IsText v text.now
        → MatchResult result (λ x. x ≡ v) (λ f. f ≡ Memory) }
    ensures refused { IfErr result (λ f.
        f ≢ Memory → (v : Value) → IsGood v → kind_of v ≡ kind → ¬ (IsText v text.now)) }
    ensures reading { MatchResult result (λ v. value_of_text kind text.now ≡ Some v)
        (λ f. f ≢ Memory → value_of_text kind text.now ≡ None) }
    // Only a Text or an Opaque takes memory, and no Text that is too long or not UTF-8.
    ensures fixed { holds_bytes kind ≡ false → IfErr result (λ f. f ≡ BadValue) }
    ensures bad { kind ≢ kinds.Opaque → value_of_text kind text.now ≡ None → result ≡ Err BadValue }
{
    good_of(alloc, kind, text)
}

/// The padded base64 of bytes. The tables of its alphabet are made in each call, so it stays a call of its own, for
/// which the other kinds do not pay.
#[inline(never)]
fn base64_of(alloc: Global, bytes: &[u8]) -> Result<Bytes, AllocError>
    ensures { IfOk result (λ b. b ≡ encode_of standard bytes.now) }
{
    let text = STANDARD.encode(alloc, bytes)?;
    Ok(Bytes::from_vec(text.into_bytes()))
}

/// Two numbers in decimal with a colon between them. A call of its own, so that the other kinds do not pay for its
/// buffers.
#[inline(never)]
fn link_text(alloc: Global, object: u16, instance: u16) -> Result<Bytes, AllocError>
    ensures { IfOk result (λ b. b ≡ decimal object ++ 58 ∷ decimal instance) }
{
    let text = format!(in alloc; "{object}:{instance}")?;
    Ok(Bytes::from_vec(text.into_bytes()))
}

fn shortest_text(alloc: Global, value: &Value) -> Result<Bytes, AllocError>
    ensures shortest { IfOk result (λ b. b ≡ text_of value.now) }
    ensures short { kind_of value.now ≢ kinds.Opaque → kind_of value.now ≢ kinds.Link
        → length (text_of value.now) ≤ 16 → IsOk result }
{
    match value {
        Value::Text(text) => Bytes::from_slice(alloc, text.as_str().as_bytes()),
        Value::Whole(number) | Value::Moment(number) => {
            Bytes::from_slice(alloc, Buffer::new().format(*number).as_bytes())
        }
        Value::Flag(flag) => Bytes::from_slice(alloc, if *flag { b"1" } else { b"0" }),
        Value::Opaque(bytes) => base64_of(alloc, bytes.as_slice()),
        Value::Link(object, instance) => link_text(alloc, *object, *instance),
    }
}

/// The shortest plain text of a value: no needless sign, no needless zero. Of a valid value it is read again. It takes
/// memory for an Opaque, for a Link, and for a text of more than 16 bytes.
#[tactic(auto, using(crate::proofs::OneText::text_written))]
pub fn write_text(alloc: Global, value: &Value) -> Result<Bytes, AllocError>
    ensures shortest { IfOk result (λ b. b ≡ text_of value.now) }
    ensures read_again { IsGood value.now → IfOk result (λ b. IsText value.now b) }
    ensures short { kind_of value.now ≢ kinds.Opaque → kind_of value.now ≢ kinds.Link
        → length (text_of value.now) ≤ 16 → IsOk result }
{
    shortest_text(alloc, value)
}
