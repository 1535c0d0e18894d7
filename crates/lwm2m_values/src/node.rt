ghost use Rattle.std.specs.Prelude.{◌≡◌, ℕ};
ghost use Rattle.lwm2m_values.specs.Tree.{instance, multi, part, single, tree_of, trees_of};

use octets::Bytes;

/// A record of TLV with what it holds (OMA LwM2M 1.1 Core, TLV). Contracts see the tree of the identifiers and the
/// bytes: `tree_of` a node, `trees_of` a list of nodes.
#[derive(Drop)]
pub enum Node {
    /// An Object Instance, which holds Multiple Resources and Resources.
    Instance { id: u16, children: Vec<Node> },
    /// A Multiple Resource, which holds Resource Instances.
    Multi { id: u16, parts: Vec<Node> },
    /// A Resource Instance, with its value's bytes.
    Part { id: u16, bytes: Bytes },
    /// A Resource, with its value's bytes.
    Single { id: u16, bytes: Bytes },
}

/// Returns the record of an Object Instance.
pub fn instance_node(id: u16, children: Vec<Node>) -> Node
    ensures { tree_of result ≡ instance id (trees_of children.items) }
{
    Node::Instance { id, children }
}

/// Returns the record of a Multiple Resource.
pub fn multi_node(id: u16, parts: Vec<Node>) -> Node
    ensures { tree_of result ≡ multi id (trees_of parts.items) }
{
    Node::Multi { id, parts }
}

/// Returns the record of a Resource Instance whose value has these bytes.
pub fn part_node(id: u16, bytes: Bytes) -> Node
    ensures { tree_of result ≡ part id bytes }
{
    Node::Part { id, bytes }
}

/// Returns the record of a Resource whose value has these bytes.
pub fn single_node(id: u16, bytes: Bytes) -> Node
    ensures { tree_of result ≡ single id bytes }
{
    Node::Single { id, bytes }
}
