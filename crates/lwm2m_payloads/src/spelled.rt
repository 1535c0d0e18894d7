ghost use Rattle.std.specs.Prelude.{◌≡◌, IfOk, option_map};
ghost use Rattle.lwm2m_values.specs.Reading.{value_of_text, value_of_bytes, nodes_of_bytes};
ghost use Rattle.lwm2m_values.specs.Tree.{trees_of};

use lwm2m_values::{Node, TlvFault, Value, ValueFault, ValueKind, read_text, read_tlv, value_of};
use std::alloc::{AllocError, Global};

/// The value of this kind that a plain text spells.
pub(crate) fn value_in_text(
    alloc: Global,
    kind: ValueKind,
    text: &[u8],
) -> Result<Option<Value>, AllocError>
    ensures { IfOk result (λ v. v ≡ value_of_text kind text.now) }
{
    match read_text(alloc, kind, text) {
        Ok(value) => Ok(Some(value)),
        Err(ValueFault::BadValue) => Ok(None),
        Err(ValueFault::Memory) => Err(AllocError),
    }
}

/// The value of this kind with these bytes.
pub(crate) fn value_in_bytes(
    alloc: Global,
    kind: ValueKind,
    bytes: &[u8],
) -> Result<Option<Value>, AllocError>
    ensures { IfOk result (λ v. v ≡ value_of_bytes kind bytes.now) }
{
    match value_of(alloc, kind, bytes) {
        Ok(value) => Ok(Some(value)),
        Err(ValueFault::BadValue) => Ok(None),
        Err(ValueFault::Memory) => Err(AllocError),
    }
}

/// The records that a payload is.
pub(crate) fn records_in(alloc: Global, payload: &[u8]) -> Result<Option<Vec<Node>>, AllocError>
    ensures { IfOk result (λ o. option_map (λ v. trees_of v.items) o ≡ nodes_of_bytes payload.now) }
{
    match read_tlv(alloc, payload) {
        Ok(nodes) => Ok(Some(nodes)),
        Err(TlvFault::Cut) => Ok(None),
        Err(TlvFault::Nesting) => Ok(None),
        Err(TlvFault::Memory) => Err(AllocError),
    }
}
