ghost use Rattle.std.specs.Prelude.{◌≡◌, option_map};
ghost use Rattle.lwm2m_values.specs.Tree.{tree_of, trees_of};
ghost use Rattle.lwm2m_payloads.specs.Building.{sole};
ghost use Rattle.lwm2m_payloads.specs.Given.{count_of, has_number, number_in};

use lwm2m_values::Node;

/// The number of a record.
pub(crate) fn number_in(node: &Node) -> u16
    ensures { result ≡ number_in (tree_of node.now) }
{
    match node {
        Node::Instance { id, .. } => *id,
        Node::Multi { id, .. } => *id,
        Node::Part { id, .. } => *id,
        Node::Single { id, .. } => *id,
    }
}

/// Whether a record of this number is among these.
pub(crate) fn has_number(number: u16, nodes: &[Node]) -> bool
    ensures { result ≡ has_number number (trees_of nodes.now) }
{
    for node in nodes {
        if number_in(node) == number {
            return true;
        }
    }
    false
}

/// How many records there are.
pub(crate) fn count_of(nodes: &[Node]) -> usize
    ensures { result ≡ count_of (trees_of nodes.now) }
{
    nodes.len()
}

/// The record that stands alone.
pub(crate) fn sole(nodes: &[Node]) -> Option<&Node>
    ensures { option_map (λ n. tree_of n.now) result ≡ sole (trees_of nodes.now) }
{
    if nodes.len() == 1 {
        Some(&nodes[0])
    } else {
        None
    }
}
