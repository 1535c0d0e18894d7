ghost use Rattle.std.specs.Prelude.{◌≡◌, IfOk};
ghost use Rattle.lwm2m_values.specs.declared.level.Around.TheVariants.{Top};
ghost use Rattle.lwm2m_values.specs.Tree.{trees_of, single, part};
ghost use Rattle.lwm2m_values.specs.Value.{text_of, bytes_of};
ghost use Rattle.lwm2m_values.specs.Tlv.{AreNested, shortest_tlv};
ghost use Rattle.lwm2m_payloads.specs.declared.format.Format.TheVariants.{Tlv};
ghost use Rattle.lwm2m_payloads.specs.Nodes.{shown_in, nodes_of, object_nodes, value_payload, within_limit};

use crate::format::Format;
use crate::records::{instance_records, records_at};
use instance_store::Store;
use lwm2m_values::{
    Node, Value, bytes_of, part_node, single_node, tlv_fits, write_text, write_tlv,
};
use object_defs::{Path, ResourceDef};
use octets::Bytes;
use std::alloc::{AllocError, Global};

/// The greatest payload, in bytes (this profile).
const LARGEST_PAYLOAD: usize = 1024;

/// The payload, where it has 1,024 bytes at most.
fn limited(payload: Bytes) -> Option<Bytes>
    ensures { result ≡ within_limit payload }
{
    if payload.len() > LARGEST_PAYLOAD {
        None
    } else {
        Some(payload)
    }
}

/// The shortest TLV of records, where it has 1,024 bytes at most.
fn tlv_of(alloc: Global, nodes: &[Node]) -> Result<Option<Bytes>, AllocError>
    requires { AreNested Top (trees_of nodes.now) }
    ensures { IfOk result (λ b. b ≡ within_limit (shortest_tlv (trees_of nodes.now))) }
{
    if !tlv_fits(nodes) {
        return Ok(None);
    }
    Ok(limited(write_tlv(alloc, nodes)?))
}

/// The plain text of a value, where it has 1,024 bytes at most.
fn limited_text(alloc: Global, value: &Value) -> Result<Option<Bytes>, AllocError>
    ensures { IfOk result (λ b. b ≡ within_limit (text_of value.now)) }
{
    Ok(limited(write_text(alloc, value)?))
}

/// The bytes of a value, where they are 1,024 at most.
#[inline(never)]
fn limited_bytes(alloc: Global, value: &Value) -> Result<Option<Bytes>, AllocError>
    ensures { IfOk result (λ b. b ≡ within_limit (bytes_of value.now)) }
{
    Ok(limited(bytes_of(alloc, value)?))
}

/// The TLV of a single resource's value, where it has 1,024 bytes at most.
#[inline(never)]
fn single_tlv(alloc: Global, resource: u16, value: &Value) -> Result<Option<Bytes>, AllocError>
    ensures { IfOk result (λ b. b ≡ within_limit (value_payload Tlv (single resource) value.now)) }
{
    let node = single_node(resource, bytes_of(alloc, value)?);
    tlv_of(alloc, &[node])
}

/// The TLV of a part's value, where it has 1,024 bytes at most.
#[inline(never)]
fn part_tlv(alloc: Global, number: u16, value: &Value) -> Result<Option<Bytes>, AllocError>
    ensures { IfOk result (λ b. b ≡ within_limit (value_payload Tlv (part number) value.now)) }
{
    let node = part_node(number, bytes_of(alloc, value)?);
    tlv_of(alloc, &[node])
}

/// The payload that shows a single resource's value in a format; none where it has more than 1,024 bytes (this
/// profile).
#[inline]
pub fn write_single(
    alloc: Global,
    format: Format,
    resource: u16,
    value: &Value,
) -> Result<Option<Bytes>, AllocError>
    ensures { IfOk result (λ b. b ≡ within_limit (value_payload format (single resource) value.now)) }
{
    match format {
        Format::PlainText => limited_text(alloc, value),
        Format::OctetStream => limited_bytes(alloc, value),
        Format::Tlv => single_tlv(alloc, resource, value),
    }
}

/// The payload that shows a part's value in a format; none where it has more than 1,024 bytes (this profile).
#[inline]
pub fn write_part(
    alloc: Global,
    format: Format,
    number: u16,
    value: &Value,
) -> Result<Option<Bytes>, AllocError>
    ensures { IfOk result (λ b. b ≡ within_limit (value_payload format (part number) value.now)) }
{
    match format {
        Format::PlainText => limited_text(alloc, value),
        Format::OctetStream => limited_bytes(alloc, value),
        Format::Tlv => part_tlv(alloc, number, value),
    }
}

/// The TLV that shows what is at or below an instance or a multiple resource: the values of readable resources by
/// number, the parts of one in a Multiple Resource. None where it has more than 1,024 bytes (this profile); by the code
/// records are made only until that is certain: each takes two bytes at the least, and those of its value, which are
/// counted before they are copied.
pub fn values_tlv(
    alloc: Global,
    store: &Store,
    resources: &[ResourceDef],
    place: Path,
) -> Result<Option<Bytes>, AllocError>
    ensures { IfOk result (λ b. b ≡ within_limit (shortest_tlv (nodes_of (shown_in store.now resources.now place)))) }
{
    let mut room = LARGEST_PAYLOAD;
    let Some(nodes) = records_at(alloc, store, resources, place, &mut room)? else {
        return Ok(None);
    };
    tlv_of(alloc, nodes.as_slice())
}

/// The TLV that shows these instances of an object, an Object Instance for each; none where it has more than 1,024
/// bytes (this profile), and by the code records are made only until that is certain.
pub fn object_tlv(
    alloc: Global,
    store: &Store,
    resources: &[ResourceDef],
    object: u16,
    instances: &[u16],
) -> Result<Option<Bytes>, AllocError>
    ensures { IfOk result (λ b. b ≡ within_limit
        (shortest_tlv (object_nodes store.now resources.now object instances.now))) }
{
    let mut room = LARGEST_PAYLOAD;
    let found = instance_records(alloc, store, resources, object, instances, &mut room)?;
    let Some(nodes) = found else {
        return Ok(None);
    };
    tlv_of(alloc, nodes.as_slice())
}
