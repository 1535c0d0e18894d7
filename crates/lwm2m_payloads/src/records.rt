ghost use Rattle.std.specs.Prelude.{◌≡◌, ℕ, ◌+◌, ◌<◌, ◌==◌, ◌∷◌, ◌++◌, [], IfOk, IfErr, IfNone, IfSome, OnOk, OnErr};
ghost use Rattle.std.specs.Prelude.{MatchBool, MatchOption};
ghost use Rattle.std.specs.List.{filter};
ghost use Rattle.lwm2m_values.specs.Value.{bytes_of};
ghost use Rattle.lwm2m_values.specs.Tree.{Tree, Trees, instance, multi, part, single, more, none, tree_of, trees_of};
ghost use Rattle.instance_store.specs.Listing.{shown_pairs};
ghost use Rattle.lwm2m_payloads.specs.Building.{with_last, part_after, part_behind};
ghost use Rattle.lwm2m_payloads.specs.Least.{least_bytes, least_of, least_of_instance, least_of_instances};
ghost use Rattle.lwm2m_payloads.specs.Nodes.{Pairs, instance_node, is_shown, shown_in, nodes_of, object_nodes};

use crate::definitions::definition_in;
use instance_store::Store;
use lwm2m_values::{Node, Value, bytes_of, instance_node, multi_node, part_node, single_node};
use object_defs::{FullPath, InstancePath, Path, ResourceDef};
use octets::Bytes;
use std::alloc::{AllocError, Global};

/// The parts of a Multiple Resource of this number; another record is returned as it is.
fn into_parts(node: Node, resource: u16) -> Result<Vec<Node>, Node>
    ensures parts { IfOk result (λ parts. tree_of node ≡ multi resource (trees_of parts.items)) }
    ensures other { IfErr result (λ other. tree_of other ≡ tree_of node) }
    ensures apart { OnErr result ((p : Tree)
        → part_after resource p (tree_of node) ≡ more (tree_of node) (more (multi resource (more p none)) none)) }
{
    match node {
        Node::Multi { id, parts } => {
            if id == resource {
                Ok(parts)
            } else {
                Err(multi_node(id, parts))
            }
        }
        Node::Instance { id, children } => Err(instance_node(id, children)),
        Node::Part { id, bytes } => Err(part_node(id, bytes)),
        Node::Single { id, bytes } => Err(single_node(id, bytes)),
    }
}

/// Removes the last record, if it is the Multiple Resource of this number, and returns its parts; otherwise no parts.
fn take_parts(alloc: Global, nodes: &mut Vec<Node>, resource: u16) -> Result<Vec<Node>, AllocError>
    ensures { IfOk result (λ parts. (p : Tree)
        → with_last (trees_of nodes.new.items) (multi resource (with_last (trees_of parts.items) p))
        ≡ part_behind resource p (trees_of nodes.old.items)) }
{
    let Some(last) = nodes.pop() else {
        return Ok(Vec::new(alloc));
    };
    match into_parts(last, resource) {
        Ok(parts) => Ok(parts),
        Err(last) => {
            nodes.push(last)?;
            Ok(Vec::new(alloc))
        }
    }
}

fn push_part(
    alloc: Global,
    nodes: &mut Vec<Node>,
    resource: u16,
    node: Node,
) -> Result<(), AllocError>
    ensures { OnOk result (trees_of nodes.new.items ≡ part_behind resource (tree_of node) (trees_of nodes.old.items)) }
{
    let mut parts = take_parts(alloc, nodes, resource)?;
    parts.push(node)?;
    nodes.push(multi_node(resource, parts))?;
    Ok(())
}

/// Adds a value's record after those of the values before it.
fn push_value(
    alloc: Global,
    nodes: &mut Vec<Node>,
    path: FullPath,
    value: &Value,
) -> Result<(), AllocError>
    ensures { (es : Pairs) → trees_of nodes.old.items ≡ nodes_of es
        → OnOk result (trees_of nodes.new.items ≡ nodes_of (es ++ (path, value.now) ∷ [])) }
{
    let bytes = bytes_of(alloc, value)?;
    match path.part {
        None => {
            nodes.push(single_node(path.resource, bytes))?;
            Ok(())
        }
        Some(part) => push_part(alloc, nodes, path.resource, part_node(part, bytes)),
    }
}

/// Whether a Read shows the value at a full path.
fn is_shown(resources: &[ResourceDef], path: FullPath) -> bool
    ensures { result ≡ is_shown resources.now path }
{
    match definition_in(resources, path.resource) {
        None => false,
        Some(definition) => {
            definition.ops.can_read() && path.part.is_some() == definition.multiple
        }
    }
}

/// How many bytes a value has at the least, known before they are copied: those of a text or of an opaque value, and
/// one of any other.
fn least_bytes(value: &Value) -> usize
    ensures { result ≡ least_bytes value.now }
{
    match value {
        Value::Text(text) => text.as_str().len(),
        Value::Opaque(bytes) => bytes.len(),
        Value::Whole(_) | Value::Flag(_) | Value::Moment(_) | Value::Link(_, _) => 1,
    }
}

/// Takes a record of this many bytes from the room, with the two bytes that stand before them at the least. False where
/// it does not fit.
fn take_room(room: &mut usize, bytes: usize) -> bool
    ensures { MatchBool result (room.new + (2 + bytes) ≡ room.old) (room.old < 2 + bytes) }
{
    if *room < 2 || *room - 2 < bytes {
        return false;
    }
    *room -= 2 + bytes;
    true
}

/// The records of the values that a Read shows. What they take at the least is taken from the room; none where it has
/// less than that, and no record is made past it.
fn records_of(
    alloc: Global,
    resources: &[ResourceDef],
    pairs: &[(FullPath, &Value)],
    room: &mut usize,
) -> Result<Option<Vec<Node>>, AllocError>
    ensures records { IfOk result (λ found. IfSome found (λ v. trees_of v.items
        ≡ nodes_of (filter (λ e. is_shown resources.now e.0) (shown_pairs pairs.now)))) }
    ensures fits { let size = least_of (filter (λ e. is_shown resources.now e.0) (shown_pairs pairs.now)) in
        IfOk result (λ found. MatchOption found (room.old < size) (λ _. room.new + size ≡ room.old)) }
{
    let mut nodes = Vec::new(alloc);
    for (path, value) in pairs {
        if is_shown(resources, *path) {
            if !take_room(room, least_bytes(value)) {
                return Ok(None);
            }
            push_value(alloc, &mut nodes, *path, value)?;
        }
    }
    Ok(Some(nodes))
}

/// The records of the values that a Read shows at or below a path, within the room.
pub(crate) fn records_at(
    alloc: Global,
    store: &Store,
    resources: &[ResourceDef],
    place: Path,
    room: &mut usize,
) -> Result<Option<Vec<Node>>, AllocError>
    ensures records { IfOk result (λ found. IfSome found (λ v. trees_of v.items
        ≡ nodes_of (shown_in store.now resources.now place))) }
    ensures fits { let size = least_of (shown_in store.now resources.now place) in
        IfOk result (λ found. MatchOption found (room.old < size) (λ _. room.new + size ≡ room.old)) }
{
    let pairs = store.values_in(place)?;
    records_of(alloc, resources, pairs.as_slice(), room)
}

/// The record of an instance of an object, within the room.
fn instance_record(
    alloc: Global,
    store: &Store,
    resources: &[ResourceDef],
    place: InstancePath,
    room: &mut usize,
) -> Result<Option<Node>, AllocError>
    ensures records { IfOk result (λ found. IfSome found (λ n. tree_of n
        ≡ instance_node store.now resources.now place.object place.instance)) }
    ensures fits { let size = least_of_instance store.now resources.now place.object place.instance in
        IfOk result (λ found. MatchOption found (room.old < size) (λ _. room.new + size ≡ room.old)) }
{
    if !take_room(room, 0) {
        return Ok(None);
    }
    let path = Path::Instance(place.object, place.instance);
    let Some(children) = records_at(alloc, store, resources, path, room)? else {
        return Ok(None);
    };
    Ok(Some(instance_node(place.instance, children)))
}

/// The records of these instances of an object, within the room.
pub(crate) fn instance_records(
    alloc: Global,
    store: &Store,
    resources: &[ResourceDef],
    object: u16,
    instances: &[u16],
    room: &mut usize,
) -> Result<Option<Vec<Node>>, AllocError>
    ensures records { IfOk result (λ found. IfSome found (λ v. trees_of v.items
        ≡ object_nodes store.now resources.now object instances.now)) }
    ensures fits { IfOk result (λ found. IfNone found
        (room.old < least_of_instances store.now resources.now object instances.now)) }
{
    let mut nodes = Vec::new(alloc);
    for instance in instances {
        let instance = *instance;
        let place = InstancePath { object, instance };
        let Some(node) = instance_record(alloc, store, resources, place, room)? else {
            return Ok(None);
        };
        nodes.push(node)?;
    }
    Ok(Some(nodes))
}
