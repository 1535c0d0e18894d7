ghost use Rattle.std.specs.Prelude.{◌≡◌, IfOk};
ghost use Rattle.lwm2m_values.specs.Tree.{multi, single, tree_of, trees_of};
ghost use Rattle.lwm2m_payloads.specs.Given.{at_record, given_by, number_in, one_part, part_in, parts_given, some_parts};
ghost use Rattle.lwm2m_payloads.specs.Results.{result_map};
ghost use Rattle.lwm2m_payloads.specs.declared.fault.PayloadFault.TheVariants as faults;
ghost use Rattle.lwm2m_payloads.specs.declared.given.Given.TheVariants as given;

use crate::fault::{PayloadFault, RecordFault};
use crate::given::{Given, Parts};
use crate::nodes::has_number;
use crate::spelled::value_in_bytes;
use lwm2m_values::{Node, Value, ValueFault, ValueKind, value_of};
use object_defs::ResourceDef;
use std::alloc::{AllocError, Global};

/// The number and the value of a part of a Multiple Resource, before the others.
fn part_in(
    alloc: Global,
    kind: ValueKind,
    node: &Node,
    others: &[Node],
) -> Result<Result<(u16, Value), RecordFault>, AllocError>
    ensures { IfOk result (λ e. e ≡ part_in kind (tree_of node.now) (trees_of others.now)) }
{
    match node {
        Node::Part { id, bytes } => {
            let part = *id;
            let bytes = bytes.as_slice();
            let Some(value) = value_in_bytes(alloc, kind, bytes)? else {
                let length = bytes.len();
                return Ok(Err(RecordFault::Part { part, kind, length }));
            };
            if has_number(part, others) {
                return Ok(Err(RecordFault::PartTwice { part }));
            }
            Ok(Ok((part, value)))
        }
        Node::Instance { .. } => Ok(Err(RecordFault::Form)),
        Node::Multi { .. } => Ok(Err(RecordFault::Form)),
        Node::Single { .. } => Ok(Err(RecordFault::Form)),
    }
}

/// The parts that a Multiple Resource gives, each number once.
fn parts_given(
    alloc: Global,
    kind: ValueKind,
    nodes: &[Node],
) -> Result<Result<Parts, RecordFault>, AllocError>
    ensures { IfOk result (λ p. p ≡ parts_given kind (trees_of nodes.now)) }
{
    let mut parts = Parts::new(alloc);
    let mut rest = nodes;
    while let [node, others @ ..] = rest {
        match part_in(alloc, kind, node, others)? {
            Err(fault) => return Ok(Err(fault)),
            Ok(part) => parts.push(part)?,
        }
        rest = others;
    }
    Ok(Ok(parts))
}

/// The parts that a Multiple Resource gives: one at least, where its resource is mandatory.
fn some_parts(
    alloc: Global,
    definition: ResourceDef,
    nodes: &[Node],
) -> Result<Result<Parts, RecordFault>, AllocError>
    ensures { IfOk result (λ p. result_map given.Parts p ≡ some_parts definition (trees_of nodes.now)) }
{
    match nodes {
        [] => {
            if definition.mandatory {
                return Ok(Err(RecordFault::Empty));
            }
            Ok(Ok(Parts::new(alloc)))
        }
        _ => parts_given(alloc, definition.kind, nodes),
    }
}

/// A value for the part of this number.
pub(crate) fn one_part(alloc: Global, number: u16, value: Value) -> Result<Given, AllocError>
    ensures { IfOk result (λ g. g ≡ one_part number value) }
{
    let mut parts = Parts::new(alloc);
    parts.push((number, value))?;
    Ok(Given::Parts(parts))
}

/// A fault of the record of this place and number.
pub(crate) fn refused(place: usize, number: u16, fault: RecordFault) -> PayloadFault
    ensures { result ≡ faults.Record place number fault }
{
    PayloadFault::Record {
        place,
        number,
        fault,
    }
}

/// What the Resource of this place and number gives to the resource of this definition.
fn single_given(
    alloc: Global,
    definition: ResourceDef,
    place: usize,
    number: u16,
    bytes: &[u8],
) -> Result<Result<Given, PayloadFault>, AllocError>
    ensures { IfOk result (λ g. g ≡ at_record place number (given_by definition (single number bytes.now))) }
{
    if definition.multiple {
        return Ok(Err(refused(place, number, RecordFault::Form)));
    }
    let kind = definition.kind;
    match value_of(alloc, kind, bytes) {
        Ok(value) => Ok(Ok(Given::Single(value))),
        Err(ValueFault::BadValue) => {
            let length = bytes.len();
            Ok(Err(refused(place, number, RecordFault::Value { kind, length })))
        }
        Err(ValueFault::Memory) => Err(AllocError),
    }
}

/// What the Multiple Resource of this place and number gives to the resource of this definition.
fn multi_given(
    alloc: Global,
    definition: ResourceDef,
    place: usize,
    number: u16,
    nodes: &[Node],
) -> Result<Result<Given, PayloadFault>, AllocError>
    ensures { IfOk result (λ g. g ≡ at_record place number (given_by definition (multi number (trees_of nodes.now)))) }
{
    if !definition.multiple {
        return Ok(Err(refused(place, number, RecordFault::Form)));
    }
    match some_parts(alloc, definition, nodes)? {
        Ok(parts) => Ok(Ok(Given::Parts(parts))),
        Err(fault) => Ok(Err(refused(place, number, fault))),
    }
}

/// What a record, which has this place, gives to the resource of this definition.
pub(crate) fn given_by(
    alloc: Global,
    definition: ResourceDef,
    place: usize,
    node: &Node,
) -> Result<Result<Given, PayloadFault>, AllocError>
    ensures { IfOk result (λ g. g
        ≡ at_record place (number_in (tree_of node.now)) (given_by definition (tree_of node.now))) }
{
    match node {
        Node::Single { id, bytes } => {
            single_given(alloc, definition, place, *id, bytes.as_slice())
        }
        Node::Multi { id, parts } => multi_given(alloc, definition, place, *id, parts),
        Node::Part { id, .. } => Ok(Err(refused(place, *id, RecordFault::Form))),
        Node::Instance { id, .. } => Ok(Err(refused(place, *id, RecordFault::Form))),
    }
}
