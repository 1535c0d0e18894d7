ghost use Rattle.std.specs.Prelude.{◌≡◌, ◌+◌, ◌-◌, ◌*◌, ◌^◌, ◌<◌, ◌++◌, ◌↔◌, length, IfOk, OnOk, IsTrue, min, nat_lt};
ghost use Rattle.std.specs.Prelude.{if◌then◌else◌};
ghost use Rattle.lwm2m_values.specs.declared.level.RecordType.TheVariants.{Instance};
ghost use Rattle.lwm2m_values.specs.declared.level.Around.TheVariants.{Top};
ghost use Rattle.lwm2m_values.specs.Tree.{tree_of, trees_of};
ghost use Rattle.lwm2m_values.specs.Tlv.{type_bits, id_field, size_field, shortest_head, shortest_record};
ghost use Rattle.lwm2m_values.specs.Tlv.{shortest_node, shortest_tlv, IsContent, IsNested, AreNested, IsShort};
ghost use Rattle.lwm2m_values.specs.Tlv.{AreShort, IsWritable, IsTlv};

use crate::level::{Around, RecordType, may_stand};
use crate::node::Node;
use octets::Bytes;
use std::alloc::{AllocError, Global};

/// What no content's length reaches: a length field has at most three bytes.
const LIMIT: u64 = 16_777_216;

/// Bits 7 and 6 of a record's first byte.
fn bits_of(kind: RecordType) -> u8
    ensures bits { result ≡ type_bits kind }
    ensures two { result < 4 }
{
    match kind {
        RecordType::Instance => 0,
        RecordType::Part => 1,
        RecordType::Multi => 2,
        RecordType::Single => 3,
    }
}

/// The first byte of the shortest head.
fn first_byte(kind: RecordType, id: u16, size: usize) -> u8
    ensures { result ≡ 64 * type_bits kind + 32 * (length (id_field id) - 1) + 8 * length
        (size_field size) + (if nat_lt size 8 then size else 0) }
{
    let id_bits = if id < 256 { 0 } else { 32 };
    let size_bits = if size < 8 {
        size as u8
    } else if size < 256 {
        8
    } else if size < 65536 {
        16
    } else {
        24
    };
    64 * bits_of(kind) + id_bits + size_bits
}

fn put_id(out: &mut Vec<u8>, id: u16) -> Result<(), AllocError>
    ensures { OnOk result (out.new.items ≡ out.old.items ++ id_field id) }
{
    if id < 256 {
        out.push(id as u8)?;
    } else {
        out.push((id / 256) as u8)?;
        out.push((id % 256) as u8)?;
    }
    Ok(())
}

fn put_size(out: &mut Vec<u8>, size: usize) -> Result<(), AllocError>
    requires { size < 16777216 }
    ensures { OnOk result (out.new.items ≡ out.old.items ++ size_field size) }
{
    if size < 8 {
        return Ok(());
    }
    if size < 256 {
        out.push(size as u8)?;
        return Ok(());
    }
    if size < 65536 {
        out.push((size / 256) as u8)?;
        out.push((size % 256) as u8)?;
        return Ok(());
    }
    out.push((size / 65536) as u8)?;
    out.push((size % 65536 / 256) as u8)?;
    out.push((size % 65536 % 256) as u8)?;
    Ok(())
}

fn put_record(
    out: &mut Vec<u8>,
    kind: RecordType,
    id: u16,
    content: &[u8],
) -> Result<(), AllocError>
    requires { IsContent content.now }
    ensures { OnOk result (out.new.items ≡ out.old.items ++ shortest_record kind id content.now) }
{
    out.push(first_byte(kind, id, content.len()))?;
    put_id(out, id)?;
    put_size(out, content.len())?;
    out.extend_from_slice(content)?;
    Ok(())
}

#[cycle(writing)]
fn put_nodes(alloc: Global, out: &mut Vec<u8>, nodes: &[Node]) -> Result<(), AllocError>
    requires { AreShort (trees_of nodes.now) }
    ensures { OnOk result (out.new.items ≡ out.old.items ++ shortest_tlv (trees_of nodes.now)) }
{
    for node in nodes {
        put_node(alloc, out, node)?;
    }
    Ok(())
}

#[cycle(writing)]
fn put_node(alloc: Global, out: &mut Vec<u8>, node: &Node) -> Result<(), AllocError>
    requires { IsShort (tree_of node.now) }
    ensures { OnOk result (out.new.items ≡ out.old.items ++ shortest_node (tree_of node.now)) }
{
    match node {
        Node::Instance { id, children } => {
            let mut content = Vec::new(alloc);
            put_nodes(alloc, &mut content, children)?;
            put_record(out, RecordType::Instance, *id, content.as_slice())
        }
        Node::Multi { id, parts } => {
            let mut content = Vec::new(alloc);
            put_nodes(alloc, &mut content, parts)?;
            put_record(out, RecordType::Multi, *id, content.as_slice())
        }
        Node::Part { id, bytes } => put_record(out, RecordType::Part, *id, bytes.as_slice()),
        Node::Single { id, bytes } => put_record(out, RecordType::Single, *id, bytes.as_slice()),
    }
}

/// The shortest TLV of nodes. It is read again as the same nodes.
pub fn write_tlv(alloc: Global, nodes: &[Node]) -> Result<Bytes, AllocError>
    requires { IsWritable (trees_of nodes.now) }
    ensures shortest { IfOk result (λ b. b ≡ shortest_tlv (trees_of nodes.now)) }
    ensures read_again { IfOk result (λ b. IsTlv (trees_of nodes.now) b) }
{
    let mut out = Vec::new(alloc);
    put_nodes(alloc, &mut out, nodes)?;
    Ok(Bytes::from_vec(out))
}

/// The length of a record's shortest form, or the greatest `u64`.
fn record_size(id: u16, content: u64) -> u64
    ensures { result ≡ min (length (shortest_head Instance id content) + content) (2 ^ 64 - 1) }
{
    let id_width = if id < 256 { 1 } else { 2 };
    let size_width = if content < 8 {
        0
    } else if content < 256 {
        1
    } else if content < 65536 {
        2
    } else {
        3
    };
    content.saturating_add(1 + id_width + size_width)
}

#[cycle(measuring)]
fn size_of_all(nodes: &[Node]) -> u64
    ensures { result ≡ min (length (shortest_tlv (trees_of nodes.now))) (2 ^ 64 - 1) }
{
    let mut size = 0u64;
    for node in nodes {
        size = size.saturating_add(size_of(node));
    }
    size
}

#[cycle(measuring)]
fn size_of(node: &Node) -> u64
    ensures { result ≡ min (length (shortest_node (tree_of node.now))) (2 ^ 64 - 1) }
{
    match node {
        Node::Instance { id, children } => record_size(*id, size_of_all(children)),
        Node::Multi { id, parts } => record_size(*id, size_of_all(parts)),
        Node::Part { id, bytes } => record_size(*id, bytes.len() as u64),
        Node::Single { id, bytes } => record_size(*id, bytes.len() as u64),
    }
}

#[cycle(fitting)]
fn all_fit(level: Around, nodes: &[Node]) -> bool
    ensures { IsTrue result ↔ (AreNested level (trees_of nodes.now) × AreShort (trees_of nodes.now)) }
{
    for node in nodes {
        if !fits(level, node) {
            return false;
        }
    }
    true
}

// A record that is not allowed where it stands ends the walk: no tree can exhaust the stack.
#[cycle(fitting)]
fn fits(level: Around, node: &Node) -> bool
    ensures { IsTrue result ↔ (IsNested level (tree_of node.now) × IsShort (tree_of node.now)) }
{
    match node {
        Node::Instance { children, .. } => {
            may_stand(level, RecordType::Instance)
                && all_fit(Around::InInstance, children)
                && size_of_all(children) < LIMIT
        }
        Node::Multi { parts, .. } => {
            may_stand(level, RecordType::Multi)
                && all_fit(Around::InMulti, parts)
                && size_of_all(parts) < LIMIT
        }
        Node::Part { bytes, .. } => {
            may_stand(level, RecordType::Part) && (bytes.len() as u64) < LIMIT
        }
        Node::Single { bytes, .. } => {
            may_stand(level, RecordType::Single) && (bytes.len() as u64) < LIMIT
        }
    }
}

/// Whether nodes can be written: nested as the format says, each content below 16,777,216 bytes.
pub fn tlv_fits(nodes: &[Node]) -> bool
    ensures { IsTrue result ↔ IsWritable (trees_of nodes.now) }
{
    all_fit(Around::Top, nodes)
}
