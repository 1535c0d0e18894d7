ghost use Rattle.std.specs.Prelude.{◌≡◌, ◌≤◌, ◌<◌, ◌+◌, ℕ, length, Some, None, IfSome, IfNone};
ghost use Rattle.std.specs.Option.{is_some, is_none};
ghost use Rattle.lwm2m_values.specs.declared.level.Around.{Around};
ghost use Rattle.lwm2m_values.specs.declared.level.Around.TheVariants.{Top};
ghost use Rattle.lwm2m_values.specs.declared.place.TlvPlace.{TlvPlace};
ghost use Rattle.lwm2m_values.specs.Tree.{Trees};
ghost use Rattle.lwm2m_values.specs.Tlv.{IsNodes, IsTlv, HasFault, IsCut, level_within};
ghost use Rattle.lwm2m_values.specs.TlvPlace.{header_size, IsLack, HasFaultAt, tlv_fault};
ghost use Rattle.lwm2m_values.specs.Reading.{nodes_of_bytes};

use crate::level::{Around, RecordType, may_stand};
use crate::record::{Head, head_at, record_at};

/// What the record at fault lacks. What is there of it counts to the end of what contains the record.
#[derive(Clone, Copy)]
pub enum TlvLack {
    /// Bytes of its header.
    Head {
        /// How many bytes the header takes, by its first byte.
        needed: usize,
        /// How many of them are there.
        left: usize,
    },
    /// Bytes of its content.
    Content {
        /// The length of the content in bytes, as the length field says.
        length: usize,
        /// How many of them are there.
        left: usize,
    },
    /// Permission to stand there.
    Nesting {
        /// Its type.
        kind: RecordType,
        /// What is around it.
        around: Around,
    },
}

/// Where bytes stop being TLV.
#[derive(Clone, Copy)]
pub struct TlvPlace {
    /// The place of the first byte of the record at fault, counted from 0.
    pub at: usize,
    /// What that record lacks.
    pub lack: TlvLack,
}

/// How many bytes the header at the front takes, by its first byte.
fn header_size(bytes: &[u8]) -> usize
    ensures { result ≡ header_size bytes.now }
{
    match bytes {
        [] => 1,
        [first, ..] => usize::from(2 + first / 32 % 2 + first / 8 % 4),
    }
}

/// What the record at the front lacks, which is cut.
fn lack_of(bytes: &[u8]) -> TlvLack
    requires { IsCut bytes.now }
    ensures { IsLack bytes.now result }
{
    match head_at(bytes) {
        Some(Head { size, rest, .. }) => TlvLack::Content {
            length: size as usize,
            left: rest.len(),
        },
        None => TlvLack::Head {
            needed: header_size(bytes),
            left: bytes.len(),
        },
    }
}

/// The first fault in bytes at this level, which end at the place `end`.
// As in `read_tlv`, no record is allowed below the third level: no input can exhaust the stack.
#[cycle(placing)]
fn place_among(level: Around, end: usize, bytes: &[u8]) -> Option<TlvPlace>
    requires { length bytes.now ≤ end }
    ensures none { IfNone result ((nodes : Trees) × IsNodes nodes level bytes.now) }
    ensures place { IfSome result (λ p. (start : ℕ) → end ≡ start + length bytes.now
        → HasFaultAt level start bytes.now p) }
{
    let mut rest = bytes;
    while !rest.is_empty() {
        let at = end - rest.len();
        let Some(record) = record_at(rest) else {
            return Some(TlvPlace {
                at,
                lack: lack_of(rest),
            });
        };
        if !may_stand(level, record.kind) {
            return Some(TlvPlace {
                at,
                lack: TlvLack::Nesting {
                    kind: record.kind,
                    around: level,
                },
            });
        }
        if let Some(place) = place_inside(record.kind, end - record.rest.len(), record.content) {
            return Some(place);
        }
        rest = record.rest;
    }
    None
}

/// The first fault in the content of a record of this type, which ends at the place `end`.
#[cycle(placing)]
fn place_inside(kind: RecordType, end: usize, content: &[u8]) -> Option<TlvPlace>
    requires { length content.now ≤ end }
    ensures none { IfNone result ((inner : Around) → level_within kind ≡ Some inner
        → (nodes : Trees) × IsNodes nodes inner content.now) }
    ensures place { IfSome result (λ p. (inner : Around) × (level_within kind ≡ Some inner)
        × ((start : ℕ) → end ≡ start + length content.now → HasFaultAt inner start content.now p)) }
{
    match kind {
        RecordType::Instance => place_among(Around::InInstance, end, content),
        RecordType::Multi => place_among(Around::InMulti, end, content),
        RecordType::Part | RecordType::Single => None,
    }
}

/// Where bytes stop being TLV (OMA LwM2M 1.1 Core, TLV): at the first record at fault from the left, the one for which
/// `read_tlv` refuses them. `None` where they are TLV.
pub fn tlv_place(bytes: &[u8]) -> Option<TlvPlace>
    ensures none { IfNone result ((nodes : Trees) × IsTlv nodes bytes.now) }
    ensures only { (nodes : Trees) → IsTlv nodes bytes.now → result ≡ None }
    ensures place { IfSome result (λ p. HasFaultAt Top 0 bytes.now p) }
    // There is no other place.
    ensures unique { (p : TlvPlace) → HasFaultAt Top 0 bytes.now p → result ≡ Some p }
    ensures fault { IfSome result (λ p. HasFault Top bytes.now (tlv_fault p.lack)) }
    ensures reading { is_some result ≡ is_none (nodes_of_bytes bytes.now) }
{
    place_among(Around::Top, bytes.len(), bytes)
}
