ghost use Rattle.std.specs.Prelude.{◌≡◌, ◌≤◌, ◌<◌, ◌++◌, length, List, ℕ, IfSome, IfNone, ◌/◌, ◌%◌, ◌==◌};
ghost use Rattle.std.specs.Prelude.{if◌then◌else◌};
ghost use Rattle.std.specs.Int.Digits.{number_from_digits};
ghost use Rattle.lwm2m_values.specs.declared.level.RecordType.{RecordType};
ghost use Rattle.lwm2m_values.specs.Tlv.{IsHead, IsCut};
ghost use Rattle.lwm2m_values.specs.TlvPlace.{header_size};

use crate::level::{RecordType, type_of};

/// A record at the front of bytes: its type, its identifier, its content, and the bytes after it.
#[derive(Drop)]
pub(crate) struct Record<'a> {
    pub(crate) kind: RecordType,
    pub(crate) id: u16,
    pub(crate) content: &'a [u8],
    pub(crate) rest: &'a [u8],
}

/// The number that at most three bytes write, the highest first.
fn unsigned_of(bytes: &[u8]) -> u32
    requires { length bytes.now ≤ 3 }
    ensures value { result ≡ number_from_digits 256 bytes.now }
    ensures short { length bytes.now ≤ 2 → result < 65536 }
{
    match bytes {
        [] => 0,
        [a] => u32::from(*a),
        [a, b] => u32::from(*a) * 256 + u32::from(*b),
        [a, b, c] => (u32::from(*a) * 256 + u32::from(*b)) * 256 + u32::from(*c),
        _ => unreachable!(),
    }
}

/// The length of a content, by the first byte and the length field.
fn size_of(first: u8, field: &[u8]) -> u32
    requires { length field.now ≡ first / 8 % 4 }
    ensures { result ≡ (if first / 8 % 4 == 0 then first % 8 else number_from_digits 256 field.now) }
{
    if field.is_empty() {
        u32::from(first % 8)
    } else {
        unsigned_of(field)
    }
}

/// The head at the front of bytes: all of a record but its content.
#[derive(Drop)]
pub(crate) struct Head<'a> {
    kind: RecordType,
    id: u16,
    pub(crate) size: u32,
    pub(crate) rest: &'a [u8],
}

pub(crate) fn head_at(bytes: &[u8]) -> Option<Head<'_>>
    ensures found { IfSome result (λ h. (head : List ℕ) × IsHead head h.kind h.id h.size
        × (bytes.now ≡ head ++ h.rest.now)) }
    ensures cut { IfNone result ((head rest : List ℕ) (kind : RecordType) (id size : ℕ) → IsHead head kind id size
        → bytes.now ≡ head ++ rest → ⊥) }
    ensures short { IfNone result (length bytes.now < header_size bytes.now) }
{
    let (first, rest) = bytes.split_first()?;
    let (id, rest) = rest.split_at_checked(usize::from(1 + first / 32 % 2))?;
    let (size, rest) = rest.split_at_checked(usize::from(first / 8 % 4))?;
    Some(Head {
        kind: type_of(*first),
        id: unsigned_of(id) as u16,
        size: size_of(*first, size),
        rest,
    })
}

/// The record that the bytes begin with.
pub(crate) fn record_at(bytes: &[u8]) -> Option<Record<'_>>
    ensures found { IfSome result (λ r. (head : List ℕ) × IsHead head r.kind r.id (length r.content.now)
        × (bytes.now ≡ head ++ (r.content.now ++ r.rest.now))) }
    ensures cut { IfNone result (IsCut bytes.now) }
{
    let head = head_at(bytes)?;
    let (content, rest) = head.rest.split_at_checked(head.size as usize)?;
    Some(Record {
        kind: head.kind,
        id: head.id,
        content,
        rest,
    })
}
