ghost use Rattle.std.specs.Prelude.{◌≡◌, IfOk};
ghost use Rattle.lwm2m_values.specs.Reading.{value_of_bytes, value_of_text};
ghost use Rattle.lwm2m_values.specs.Tree.{tree_of, trees_of};
ghost use Rattle.lwm2m_payloads.specs.Given.{at_record, lone_part, lone_record, number_in, one_part, part_by, part_given};
ghost use Rattle.lwm2m_payloads.specs.Given.{part_record, resource_given, whole_value};
ghost use Rattle.lwm2m_payloads.specs.Results.{result_map};
ghost use Rattle.lwm2m_payloads.specs.declared.format.Format.TheVariants as Format;
ghost use Rattle.lwm2m_payloads.specs.declared.given.Given.TheVariants.{Single};

use crate::fault::{PayloadFault, RecordFault};
use crate::format::Format;
use crate::given::Given;
use crate::nodes::{count_of, number_in, sole};
use crate::parts::{given_by, one_part, refused};
use crate::spelled::{records_in, value_in_bytes, value_in_text};
use lwm2m_values::{Node, Value, ValueFault, ValueKind, read_text, value_of};
use object_defs::ResourceDef;
use std::alloc::{AllocError, Global};

/// The single value that a plain text spells.
#[inline]
fn single_text(
    alloc: Global,
    kind: ValueKind,
    text: &[u8],
) -> Result<Result<Given, PayloadFault>, AllocError>
    ensures { IfOk result (λ g. g ≡ result_map Single (whole_value kind text.now (value_of_text kind text.now))) }
{
    match read_text(alloc, kind, text) {
        Ok(value) => Ok(Ok(Given::Single(value))),
        Err(ValueFault::BadValue) => {
            let length = text.len();
            Ok(Err(PayloadFault::NotValue { kind, length }))
        }
        Err(ValueFault::Memory) => Err(AllocError),
    }
}

/// The single value with these bytes.
fn single_bytes(
    alloc: Global,
    kind: ValueKind,
    bytes: &[u8],
) -> Result<Result<Given, PayloadFault>, AllocError>
    ensures { IfOk result (λ g. g ≡ result_map Single (whole_value kind bytes.now (value_of_bytes kind bytes.now))) }
{
    match value_of(alloc, kind, bytes) {
        Ok(value) => Ok(Ok(Given::Single(value))),
        Err(ValueFault::BadValue) => {
            let length = bytes.len();
            Ok(Err(PayloadFault::NotValue { kind, length }))
        }
        Err(ValueFault::Memory) => Err(AllocError),
    }
}

/// What a record of the resource's number gives, where it stands alone.
fn lone_record(
    alloc: Global,
    definition: ResourceDef,
    nodes: &[Node],
) -> Result<Result<Given, PayloadFault>, AllocError>
    ensures { IfOk result (λ g. g ≡ lone_record definition (trees_of nodes.now)) }
{
    let Some(node) = sole(nodes) else {
        let count = count_of(nodes);
        return Ok(Err(PayloadFault::Records { count }));
    };
    let number = number_in(node);
    if number != definition.id {
        return Ok(Err(refused(1, number, RecordFault::Number)));
    }
    given_by(alloc, definition, 1, node)
}

/// What records in TLV give to a resource.
fn single_tlv(
    alloc: Global,
    definition: ResourceDef,
    payload: &[u8],
) -> Result<Result<Given, PayloadFault>, AllocError>
    ensures { IfOk result (λ g. g ≡ resource_given definition Format.Tlv payload.now) }
{
    let Some(nodes) = records_in(alloc, payload)? else {
        return Ok(Err(PayloadFault::NotTlv));
    };
    lone_record(alloc, definition, nodes.as_slice())
}

/// What the payload of a Write gives to a resource (OMA LwM2M 1.1 Core, data formats): a valid value of its kind in
/// plain text or application/octet-stream, or in TLV a record of its number, alone. Else why it gives nothing.
pub fn resource_given(
    alloc: Global,
    definition: ResourceDef,
    format: Format,
    payload: &[u8],
) -> Result<Result<Given, PayloadFault>, AllocError>
    ensures { IfOk result (λ g. g ≡ resource_given definition format payload.now) }
{
    match format {
        Format::PlainText => single_text(alloc, definition.kind, payload),
        Format::OctetStream => single_bytes(alloc, definition.kind, payload),
        Format::Tlv => single_tlv(alloc, definition, payload),
    }
}

/// What a record, which stands alone, gives to the part of this number.
fn part_by(
    alloc: Global,
    kind: ValueKind,
    number: u16,
    node: &Node,
) -> Result<Result<Given, RecordFault>, AllocError>
    ensures { IfOk result (λ g. g ≡ part_by kind number (tree_of node.now)) }
{
    match node {
        Node::Part { id, bytes } => {
            if *id != number {
                return Ok(Err(RecordFault::Number));
            }
            let bytes = bytes.as_slice();
            let Some(value) = value_in_bytes(alloc, kind, bytes)? else {
                let length = bytes.len();
                return Ok(Err(RecordFault::Value { kind, length }));
            };
            let given = one_part(alloc, number, value)?;
            Ok(Ok(given))
        }
        Node::Instance { .. } => Ok(Err(RecordFault::Form)),
        Node::Multi { .. } => Ok(Err(RecordFault::Form)),
        Node::Single { .. } => Ok(Err(RecordFault::Form)),
    }
}

/// What a Resource Instance of this number gives, where it stands alone.
fn lone_part(
    alloc: Global,
    kind: ValueKind,
    number: u16,
    nodes: &[Node],
) -> Result<Result<Given, PayloadFault>, AllocError>
    ensures { IfOk result (λ g. g ≡ lone_part kind number (trees_of nodes.now)) }
{
    let Some(node) = sole(nodes) else {
        let count = count_of(nodes);
        return Ok(Err(PayloadFault::Records { count }));
    };
    match part_by(alloc, kind, number, node)? {
        Ok(given) => Ok(Ok(given)),
        Err(fault) => Ok(Err(refused(1, number_in(node), fault))),
    }
}

/// Like `lone_part`, or for a Multiple Resource of the resource's number that holds that part alone.
fn part_record(
    alloc: Global,
    definition: ResourceDef,
    number: u16,
    nodes: &[Node],
) -> Result<Result<Given, PayloadFault>, AllocError>
    ensures { IfOk result (λ g. g ≡ part_record definition number (trees_of nodes.now)) }
{
    let Some(node) = sole(nodes) else {
        return lone_part(alloc, definition.kind, number, nodes);
    };
    match node {
        Node::Multi { id, parts } => {
            if *id != definition.id {
                return Ok(Err(refused(1, *id, RecordFault::Number)));
            }
            lone_part(alloc, definition.kind, number, parts)
        }
        Node::Part { .. } => lone_part(alloc, definition.kind, number, nodes),
        Node::Instance { .. } => lone_part(alloc, definition.kind, number, nodes),
        Node::Single { .. } => lone_part(alloc, definition.kind, number, nodes),
    }
}

/// The part of this number with a value, where the payload spells one.
fn whole_part(
    alloc: Global,
    kind: ValueKind,
    part: u16,
    payload: &[u8],
    value: Option<Value>,
) -> Result<Result<Given, PayloadFault>, AllocError>
    ensures { IfOk result (λ g. g ≡ result_map (one_part part) (whole_value kind payload.now value)) }
{
    match value {
        Some(value) => {
            let given = one_part(alloc, part, value)?;
            Ok(Ok(given))
        }
        None => {
            let length = payload.len();
            Ok(Err(PayloadFault::NotValue { kind, length }))
        }
    }
}

/// What the payload of a Write gives to a part of a multiple resource (OMA LwM2M 1.1 Core, data formats): a valid value
/// of its kind in plain text or application/octet-stream, or in TLV a Resource Instance of the part's number, alone or
/// as the one of a Multiple Resource of the resource's number. Else why it gives nothing.
pub fn part_given(
    alloc: Global,
    definition: ResourceDef,
    part: u16,
    format: Format,
    payload: &[u8],
) -> Result<Result<Given, PayloadFault>, AllocError>
    ensures { IfOk result (λ g. g ≡ part_given definition part format payload.now) }
{
    let kind = definition.kind;
    match format {
        Format::PlainText => {
            let value = value_in_text(alloc, kind, payload)?;
            whole_part(alloc, kind, part, payload, value)
        }
        Format::OctetStream => {
            let value = value_in_bytes(alloc, kind, payload)?;
            whole_part(alloc, kind, part, payload, value)
        }
        Format::Tlv => match records_in(alloc, payload)? {
            None => Ok(Err(PayloadFault::NotTlv)),
            Some(nodes) => part_record(alloc, definition, part, nodes.as_slice()),
        },
    }
}
