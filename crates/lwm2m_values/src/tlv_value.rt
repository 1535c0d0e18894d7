ghost use Rattle.std.specs.Prelude.{◌≡◌, ◌≢◌, ℕ, ◌≤◌, ◌<◌, List, [], ◌∷◌, ◌++◌, length, Some, None, IfSome, IfOk};
ghost use Rattle.std.specs.Prelude.{IfErr, IsOk, MatchResult, OnErr, Bool, false, true, Err, if◌then◌else◌};
ghost use Rattle.std.specs.Int.{w16, to_be_bytes};
ghost use Rattle.lwm2m_values.specs.declared.fault.ValueFault.TheVariants.{BadValue, Memory};
ghost use Rattle.std.specs.Str.{IsUtf8};
ghost use Rattle.lwm2m_values.specs.declared.kind.ValueKind.TheVariants as kinds;
ghost use Rattle.lwm2m_values.specs.declared.value.Value.{Value};
ghost use Rattle.lwm2m_values.specs.Value.{kind_of, holds_bytes, IsGood, IsBytesOf, bytes_of as shortest_bytes_of};
ghost use Rattle.lwm2m_values.specs.Reading.{value_of_bytes};

use crate::fault::ValueFault;
use crate::integer::{integer_bytes, integer_of};
use crate::kind::ValueKind;
use crate::plain::string_of;
use crate::value::Value;
use octets::Bytes;
use std::alloc::{AllocError, Global};

/// The flag that one byte is.
fn flag_of(bytes: &[u8]) -> Option<bool>
    ensures found { IfSome result (λ b. bytes.now ≡ (if b then 1 else 0) ∷ []) }
    ensures only { (b : Bool) → bytes.now ≡ (if b then 1 else 0) ∷ [] → result ≡ Some b }
{
    match bytes {
        [0] => Some(false),
        [1] => Some(true),
        _ => None,
    }
}

/// The two numbers that four bytes are.
fn halves_of(bytes: &[u8]) -> Option<(u16, u16)>
    ensures found { IfSome result (λ p. bytes.now ≡ to_be_bytes w16 p.0 ++ to_be_bytes w16 p.1) }
    ensures only { (o i : ℕ) → o < 65536 → i < 65536 → bytes.now ≡ to_be_bytes w16 o ++ to_be_bytes w16 i
        → result ≡ Some (o, i) }
{
    match bytes {
        [a, b, c, d] => Some((u16::from_be_bytes([*a, *b]), u16::from_be_bytes([*c, *d]))),
        _ => None,
    }
}

/// The valid value of this kind with these bytes, by the kind.
fn good_of(alloc: Global, kind: ValueKind, bytes: &[u8]) -> Result<Value, ValueFault>
    ensures found { IfOk result (λ v. IsGood v × (kind_of v ≡ kind) × IsBytesOf v bytes.now) }
    ensures only { (v : Value) → IsGood v → kind_of v ≡ kind → IsBytesOf v bytes.now
        → MatchResult result (λ x. x ≡ v) (λ f. f ≡ Memory) }
    ensures refused { IfErr result (λ f. f ≢ Memory → (v : Value) → IsGood v → kind_of v ≡ kind
        → ¬ (IsBytesOf v bytes.now)) }
    ensures fixed { holds_bytes kind ≡ false → IfErr result (λ f. f ≡ BadValue) }
    ensures text { kind ≡ kinds.Text → IfErr result (λ f. f ≡ Memory → IsUtf8 bytes.now × (length bytes.now ≤ 255)) }
    ensures opaque { kind ≡ kinds.Opaque → IfErr result (λ f. f ≡ Memory → length bytes.now ≤ 1024) }
    ensures short { kind ≡ kinds.Opaque → length bytes.now ≤ 16 → IsOk result }
{
    match kind {
        ValueKind::Text => Ok(Value::Text(string_of(alloc, bytes)?)),
        ValueKind::Whole => integer_of(bytes)
            .map(Value::Whole)
            .ok_or(ValueFault::BadValue),
        ValueKind::Flag => flag_of(bytes).map(Value::Flag).ok_or(ValueFault::BadValue),
        ValueKind::Opaque => {
            if bytes.len() > 1024 {
                return Err(ValueFault::BadValue);
            }
            Ok(Value::Opaque(Bytes::from_slice(alloc, bytes)?))
        }
        ValueKind::Moment => integer_of(bytes)
            .map(Value::Moment)
            .ok_or(ValueFault::BadValue),
        ValueKind::Link => match halves_of(bytes) {
            Some((object, instance)) => Ok(Value::Link(object, instance)),
            None => Err(ValueFault::BadValue),
        },
    }
}

/// The valid value of this kind with these bytes, as TLV has them, otherwise `BadValue`.
pub fn value_of(alloc: Global, kind: ValueKind, bytes: &[u8]) -> Result<Value, ValueFault>
    ensures found { IfOk result (λ v. IsGood v × (kind_of v ≡ kind) × IsBytesOf v bytes.now) }
    // There is no other such value, and if there is one it is read, unless an allocation fails.
    ensures only { (v : Value) → IsGood v → kind_of v ≡ kind → IsBytesOf v bytes.now
        → MatchResult result (λ x. x ≡ v) (λ f. f ≡ Memory) }
    ensures refused { IfErr result (λ f. f ≢ Memory → (v : Value) → IsGood v → kind_of v ≡ kind
        → ¬ (IsBytesOf v bytes.now)) }
    ensures reading { MatchResult result (λ v. value_of_bytes kind bytes.now ≡ Some v)
        (λ f. f ≢ Memory → value_of_bytes kind bytes.now ≡ None) }
    // Only a Text, or an Opaque of more than 16 bytes, takes memory, and only bytes that are those of a valid value.
    ensures fixed { holds_bytes kind ≡ false → IfErr result (λ f. f ≡ BadValue) }
    ensures bad { value_of_bytes kind bytes.now ≡ None → result ≡ Err BadValue }
    ensures short { kind ≡ kinds.Opaque → length bytes.now ≤ 16 → IsOk result }
{
    good_of(alloc, kind, bytes)
}

fn shortest_bytes(alloc: Global, value: &Value) -> Result<Bytes, AllocError>
    ensures shortest { IfOk result (λ b. b ≡ shortest_bytes_of value.now) }
    ensures may_lack_memory { OnErr result (holds_bytes (kind_of value.now) ≡ true) }
    ensures long { OnErr result (16 < length (shortest_bytes_of value.now)) }
{
    match value {
        Value::Text(text) => Bytes::from_slice(alloc, text.as_str().as_bytes()),
        Value::Whole(number) | Value::Moment(number) => integer_bytes(alloc, *number),
        Value::Flag(flag) => Bytes::from_slice(alloc, &[u8::from(*flag)]),
        Value::Opaque(bytes) => Bytes::from_slice(alloc, bytes.as_slice()),
        Value::Link(object, instance) => {
            let [a, b] = object.to_be_bytes();
            let [c, d] = instance.to_be_bytes();
            Bytes::from_slice(alloc, &[a, b, c, d])
        }
    }
}

/// The shortest bytes of a value, as TLV has them. Of a valid value they are read again. They take memory for a Text or
/// an Opaque of more than 16 bytes.
#[tactic(auto, using(crate::proofs::OneBytes::bytes_written))]
pub fn bytes_of(alloc: Global, value: &Value) -> Result<Bytes, AllocError>
    ensures shortest { IfOk result (λ b. b ≡ shortest_bytes_of value.now) }
    ensures read_again { IsGood value.now → IfOk result (λ b. IsBytesOf value.now b) }
    ensures may_lack_memory { OnErr result (holds_bytes (kind_of value.now) ≡ true) }
    ensures long { OnErr result (16 < length (shortest_bytes_of value.now)) }
{
    shortest_bytes(alloc, value)
}
