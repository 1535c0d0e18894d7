ghost use Rattle.std.specs.Prelude.{◌≡◌, ◌≤◌, ◌↔◌, ℕ, List, length, true, IfOk, IsOk, IsTrue, OnErr};
ghost use Rattle.lwm2m_values.specs.Value.{has_good_length, holds_bytes, kind_of, IsGood};

use crate::kind::ValueKind;
use crate::text::Text;
use octets::Bytes;
use std::alloc::AllocError;

/// A value of a resource or of a resource instance, by its kind.
#[derive(Clone, Drop, PartialEq)]
pub enum Value {
    /// UTF-8 text.
    Text(Text),
    /// An Integer.
    Whole(i64),
    /// A Boolean.
    Flag(bool),
    /// Bytes.
    Opaque(Bytes),
    /// Seconds since 1970-01-01 UTC.
    Moment(i64),
    /// An object's number, then an instance's.
    Link(u16, u16),
}

impl Value {
    /// The kind of the value.
    pub fn kind(&self) -> ValueKind
        ensures { result ≡ kind_of self.now }
    {
        match self {
            Value::Text(_) => ValueKind::Text,
            Value::Whole(_) => ValueKind::Whole,
            Value::Flag(_) => ValueKind::Flag,
            Value::Opaque(_) => ValueKind::Opaque,
            Value::Moment(_) => ValueKind::Moment,
            Value::Link(_, _) => ValueKind::Link,
        }
    }

    /// Whether the value is within the length of its kind: 255 bytes for a Text, 1,024 for an Opaque.
    pub fn is_good(&self) -> bool
        ensures good { IsTrue result ↔ IsGood self.now }
        ensures length { result ≡ has_good_length self.now }
    {
        match self {
            Value::Text(text) => text.as_str().len() <= 255,
            Value::Opaque(bytes) => {
                let bytes = bytes.as_slice();
                bytes.len() <= 1024
            }
            Value::Whole(number) | Value::Moment(number) => {
                // For the proof alone: what the code reads is known to be in its type's range.
                let _known = *number;
                true
            }
            Value::Flag(_) => true,
            Value::Link(object, instance) => {
                let (_object, _instance) = (*object, *instance);
                true
            }
        }
    }

    /// A copy, which equals its source. It takes memory for a Text, and for an Opaque of more than 16 bytes.
    pub fn copy(&self) -> Result<Value, AllocError>
        ensures copy { IfOk result (λ v. v ≡ self.now) }
        ensures may_lack_memory { OnErr result (holds_bytes (kind_of self.now) ≡ true) }
        ensures short { (bytes : List ℕ) → self.now ≡ Value.Opaque bytes → length bytes ≤ 16 → IsOk result }
    {
        match self {
            Value::Text(text) => Ok(Value::Text(text.clone()?)),
            Value::Whole(number) => Ok(Value::Whole(*number)),
            Value::Flag(flag) => Ok(Value::Flag(*flag)),
            Value::Opaque(bytes) => Ok(Value::Opaque(bytes.clone()?)),
            Value::Moment(number) => Ok(Value::Moment(*number)),
            Value::Link(object, instance) => Ok(Value::Link(*object, *instance)),
        }
    }
}
