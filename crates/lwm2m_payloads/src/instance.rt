ghost use Rattle.std.specs.Prelude.{true, ◌≡◌, ◌==◌, not, ◌&&◌, find, List, IfOk};
ghost use Rattle.std.specs.List.{list_any};
ghost use Rattle.std.specs.Option.{option_copied};
ghost use Rattle.lwm2m_values.specs.Tree.{tree_of, trees_of};
ghost use Rattle.object_defs.specs.declared.definition.ResourceDef.{ResourceDef};
ghost use Rattle.lwm2m_payloads.specs.Building.{assigned_to};
ghost use Rattle.lwm2m_payloads.specs.Given.{assignments, complete, content_of, creation_given, creation_in};
ghost use Rattle.lwm2m_payloads.specs.Given.{instance_given, is_lacking, may_be_given, record_in};
ghost use Rattle.lwm2m_payloads.specs.Results.{result_and_then, result_map};
ghost use Rattle.lwm2m_payloads.specs.Given.{at_record, given_by, number_in, unless};
ghost use Rattle.lwm2m_payloads.specs.declared.fault.RecordFault.TheVariants as record_fault;
ghost use Rattle.lwm2m_payloads.specs.declared.given.Purpose.TheVariants.{Create};

use crate::definitions::definition_in;
use crate::fault::{PayloadFault, RecordFault};
use crate::given::{Assignment, Assignments, Creation, Given, Purpose};
use crate::nodes::{has_number, number_in, sole};
use crate::parts::{given_by, refused};
use crate::spelled::records_in;
use lwm2m_values::Node;
use object_defs::{Ops, ResourceDef};
use std::alloc::{AllocError, Global};

/// Whether a payload may give something to a resource with these operations.
fn may_be_given(purpose: Purpose, ops: Ops) -> bool
    ensures { result ≡ may_be_given purpose ops }
{
    match purpose {
        Purpose::Write => ops.can_write(),
        Purpose::Create => !ops.can_execute(),
    }
}

/// The fault of a record whose number a later one has: its own, or else that.
fn twice_fault(
    alloc: Global,
    definition: ResourceDef,
    place: usize,
    node: &Node,
) -> Result<Result<Given, PayloadFault>, AllocError>
    ensures { IfOk result (λ g. g ≡ at_record place (number_in (tree_of node.now))
        (unless true record_fault.Twice (given_by definition (tree_of node.now)))) }
{
    match given_by(alloc, definition, place, node)? {
        Err(fault) => Ok(Err(fault)),
        Ok(_) => Ok(Err(refused(place, number_in(node), RecordFault::Twice))),
    }
}

/// What the record of this place, before the others, gives to the resource of its number.
fn record_in(
    alloc: Global,
    purpose: Purpose,
    resources: &[ResourceDef],
    place: usize,
    node: &Node,
    others: &[Node],
) -> Result<Result<Given, PayloadFault>, AllocError>
    ensures { IfOk result (λ g. assigned_to (number_in (tree_of node.now)) g
        ≡ record_in purpose resources.now place (tree_of node.now) (trees_of others.now)) }
{
    let resource = number_in(node);
    let Some(definition) = definition_in(resources, resource) else {
        return Ok(Err(refused(place, resource, RecordFault::Undefined)));
    };
    let ops = definition.ops;
    if !may_be_given(purpose, ops) {
        return Ok(Err(refused(place, resource, RecordFault::Operations { ops })));
    }
    if has_number(resource, others) {
        return twice_fault(alloc, *definition, place, node);
    }
    given_by(alloc, *definition, place, node)
}

/// What the records of an instance give: to defined resources, each once.
fn assignments(
    alloc: Global,
    purpose: Purpose,
    resources: &[ResourceDef],
    nodes: &[Node],
) -> Result<Result<Assignments, PayloadFault>, AllocError>
    ensures { IfOk result (λ g. g ≡ assignments purpose resources.now (trees_of nodes.now)) }
{
    // For the proof alone: a slice whose length is read is known to have fewer than 2^64 items.
    let _known = nodes.len();
    let mut given = Assignments::new(alloc);
    let mut place: usize = 0;
    let mut rest = nodes;
    while let [node, others @ ..] = rest {
        place += 1;
        let resource = number_in(node);
        match record_in(alloc, purpose, resources, place, node, others)? {
            Err(fault) => return Ok(Err(fault)),
            Ok(found) => given.push(Assignment {
                resource,
                given: found,
            })?,
        }
        rest = others;
    }
    Ok(Ok(given))
}

/// What stands in an Object Instance that is alone and of this number; else the records themselves.
fn content_of(instance: u16, nodes: &[Node]) -> Result<&[Node], PayloadFault>
    ensures { result_map (λ s. trees_of s.now) result ≡ content_of instance (trees_of nodes.now) }
{
    let Some(node) = sole(nodes) else {
        return Ok(nodes);
    };
    match node {
        Node::Instance { id, children } => {
            if *id == instance {
                Ok(children.as_slice())
            } else {
                Err(refused(1, *id, RecordFault::Number))
            }
        }
        Node::Multi { .. } => Ok(nodes),
        Node::Part { .. } => Ok(nodes),
        Node::Single { .. } => Ok(nodes),
    }
}

/// What the payload of a Write, in TLV, gives to the resources of an instance (OMA LwM2M 1.1 Core, data formats):
/// records of writable resources, each number once, alone or in the Object Instance of this number. Else why it gives
/// nothing.
pub fn instance_given(
    alloc: Global,
    resources: &[ResourceDef],
    instance: u16,
    payload: &[u8],
) -> Result<Result<Assignments, PayloadFault>, AllocError>
    ensures { IfOk result (λ g. g ≡ instance_given resources.now instance payload.now) }
{
    let Some(nodes) = records_in(alloc, payload)? else {
        return Ok(Err(PayloadFault::NotTlv));
    };
    match content_of(instance, nodes.as_slice()) {
        Err(fault) => Ok(Err(fault)),
        Ok(content) => assignments(alloc, Purpose::Write, resources, content),
    }
}

/// Whether a mandatory resource that can be read is not among the assignments.
fn is_lacking(given: &Assignments, definition: &ResourceDef) -> bool
    ensures { result ≡ is_lacking given.now definition.now }
{
    definition.mandatory && definition.ops.can_read() && !given.has(definition.id)
}

/// The first such resource.
fn first_lacking<'a>(resources: &'a [ResourceDef], given: &Assignments) -> Option<&'a ResourceDef>
    ensures { option_copied result ≡ find (is_lacking given.now) resources.now }
{
    resources
        .iter()
        .find(|definition| is_lacking(given, definition))
}

/// What a Create gives, where each mandatory resource that can be read is given.
fn complete(
    resources: &[ResourceDef],
    number: Option<u16>,
    assigned: Assignments,
) -> Result<Creation, PayloadFault>
    ensures { result ≡ complete resources.now number assigned }
{
    match first_lacking(resources, &assigned) {
        Some(definition) => Err(PayloadFault::Mandatory {
            resource: definition.id,
        }),
        None => Ok(Creation { number, assigned }),
    }
}

/// The number of an Object Instance that stands alone with what stands in it; else the records themselves.
fn numbered(nodes: &[Node]) -> (Option<u16>, &[Node])
    ensures { (resources : List ResourceDef)
        → creation_in resources (trees_of nodes.now)
        ≡ result_and_then (complete resources result.0) (assignments Create resources (trees_of result.1.now)) }
{
    let Some(node) = sole(nodes) else {
        return (None, nodes);
    };
    match node {
        Node::Instance { id, children } => (Some(*id), children.as_slice()),
        Node::Multi { .. } => (None, nodes),
        Node::Part { .. } => (None, nodes),
        Node::Single { .. } => (None, nodes),
    }
}

/// What the payload of a Create, in TLV, gives (OMA LwM2M 1.1 Core, data formats): records of resources that are not
/// executable, each number once, alone or in an Object Instance, which then names the new instance; each mandatory
/// resource that can be read is among them. Else why it gives nothing.
pub fn creation_given(
    alloc: Global,
    resources: &[ResourceDef],
    payload: &[u8],
) -> Result<Result<Creation, PayloadFault>, AllocError>
    ensures { IfOk result (λ c. c ≡ creation_given resources.now payload.now) }
{
    let Some(nodes) = records_in(alloc, payload)? else {
        return Ok(Err(PayloadFault::NotTlv));
    };
    let (number, content) = numbered(nodes.as_slice());
    match assignments(alloc, Purpose::Create, resources, content)? {
        Err(fault) => Ok(Err(fault)),
        Ok(assigned) => Ok(complete(resources, number, assigned)),
    }
}
