ghost use Rattle.std.specs.Prelude.{◌≡◌, ◌≢◌, List, ℕ, length, Some, None, Err, IfOk, IsOk, IfErr, IsErrAnd};
ghost use Rattle.std.specs.Prelude.{MatchResult};
ghost use Rattle.lwm2m_values.specs.declared.fault.TlvFault.{TlvFault};
ghost use Rattle.lwm2m_values.specs.declared.fault.TlvFault.TheVariants.{Memory};
ghost use Rattle.lwm2m_values.specs.declared.level.Around.{Around};
ghost use Rattle.lwm2m_values.specs.declared.level.Around.TheVariants.{Top};
ghost use Rattle.lwm2m_values.specs.Tree.{Trees, tree_of, trees_of};
ghost use Rattle.lwm2m_values.specs.Tlv.{IsNodes, IsTlv, Holds, HasFault, HasEarlyFault, level_within};
ghost use Rattle.lwm2m_values.specs.Reading.{nodes_of_bytes};

use crate::fault::TlvFault;
use crate::level::{Around, RecordType, may_stand};
use crate::node::{Node, instance_node, multi_node, part_node, single_node};
use crate::record::record_at;
use octets::Bytes;
use std::alloc::Global;

/// The nodes whose records the bytes are, at this level.
// Each call within reads records that hold less, and no record is allowed below the third level: no input can exhaust
// the stack.
#[cycle(reading)]
fn nodes_of(alloc: Global, level: Around, bytes: &[u8]) -> Result<Vec<Node>, TlvFault>
    ensures found { IfOk result (λ v. IsNodes (trees_of v.items) level bytes.now) }
    ensures fault { IfErr result (λ f. f ≢ Memory → HasFault level bytes.now f) }
    ensures early { (f : TlvFault) → HasEarlyFault level bytes.now f → result ≡ Err f }
    ensures none { length bytes.now ≡ 0 → IsOk result }
{
    let mut nodes = Vec::new(alloc);
    let mut rest = bytes;
    while !rest.is_empty() {
        let Some(record) = record_at(rest) else {
            return Err(TlvFault::Cut);
        };
        if !may_stand(level, record.kind) {
            return Err(TlvFault::Nesting);
        }
        let node = node_of(alloc, record.kind, record.id, record.content)?;
        nodes.push(node)?;
        rest = record.rest;
    }
    Ok(nodes)
}

/// The node of a record.
#[cycle(reading)]
fn node_of(alloc: Global, kind: RecordType, id: u16, content: &[u8]) -> Result<Node, TlvFault>
    ensures found { IfOk result (λ n. Holds (tree_of n) kind id content.now) }
    ensures fault { IfErr result (λ f. f ≢ Memory → (inner : Around) × (level_within kind ≡ Some inner)
        × HasFault inner content.now f) }
    ensures early { (inner : Around) (f : TlvFault) → level_within kind ≡ Some inner → HasEarlyFault inner content.now f
        → result ≡ Err f }
{
    match kind {
        RecordType::Instance => {
            let children = nodes_of(alloc, Around::InInstance, content)?;
            Ok(instance_node(id, children))
        }
        RecordType::Multi => {
            let parts = nodes_of(alloc, Around::InMulti, content)?;
            Ok(multi_node(id, parts))
        }
        RecordType::Part => Ok(part_node(id, Bytes::from_slice(alloc, content)?)),
        RecordType::Single => Ok(single_node(id, Bytes::from_slice(alloc, content)?)),
    }
}

/// The nodes whose records the bytes are (OMA LwM2M 1.1 Core, TLV), in any spelling; otherwise `Cut` or `Nesting`, the
/// first from the left. By the code, each byte of a content is looked at once for each level, at most three.
pub fn read_tlv(alloc: Global, bytes: &[u8]) -> Result<Vec<Node>, TlvFault>
    ensures found { IfOk result (λ v. IsTlv (trees_of v.items) bytes.now) }
    // There are no other nodes of these bytes, and if there are some they are read, unless an allocation fails.
    ensures only { (nodes : Trees) → IsTlv nodes bytes.now
        → MatchResult result (λ v. trees_of v.items ≡ nodes) (λ f. f ≡ Memory) }
    ensures fault { IfErr result (λ f. f ≢ Memory → HasFault Top bytes.now f) }
    ensures refused { (f : TlvFault) → HasFault Top bytes.now f → IsErrAnd result (λ g. g ≢ Memory → g ≡ f) }
    ensures reading { MatchResult result (λ v. nodes_of_bytes bytes.now ≡ Some (trees_of v.items))
        (λ f. f ≢ Memory → nodes_of_bytes bytes.now ≡ None) }
    // A fault of the first record is found before memory is taken; an empty payload takes none.
    ensures early { (f : TlvFault) → HasEarlyFault Top bytes.now f → result ≡ Err f }
    ensures none { length bytes.now ≡ 0 → IsOk result }
{
    nodes_of(alloc, Around::Top, bytes)
}
