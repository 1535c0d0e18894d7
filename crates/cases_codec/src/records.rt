//! TLV records (OMA LwM2M 1.1 Core).

use crate::forms::{hex, last_bytes, push, put_hex};
use crate::question::Question;
use case_sheet::Sheet;
use lwm2m_values::{Node, TlvFault, read_tlv, tlv_fits, write_tlv};
use octets::Bytes;
use std::alloc::Global;

/// Answers a question of this subject; `false` where the subject is none of this module's.
pub fn answer(subject: &str, question: &mut Question<'_>, out: &mut Sheet) -> bool {
    match subject {
        "tlv" => records(question, out),
        "count-tlv" => count(question, out),
        "write-tlv" => write_records(question, out),
        _ => return false,
    }
    true
}

/// `tlv HEX`: the records that bytes are, or their fault.
fn records(question: &mut Question<'_>, out: &mut Sheet) {
    let bytes = last_bytes(question);
    match read_tlv(out.alloc(), bytes.as_slice()) {
        Ok(nodes) => put_records(out, nodes.as_slice()),
        Err(fault) => put_fault(out, fault),
    }
}

/// `count-tlv HEX`: how many records bytes are, those inside others left out, or their fault.
fn count(question: &mut Question<'_>, out: &mut Sheet) {
    let bytes = last_bytes(question);
    match read_tlv(out.alloc(), bytes.as_slice()) {
        Ok(nodes) => out.put_number(nodes.len() as u64),
        Err(fault) => put_fault(out, fault),
    }
}

fn put_fault(out: &mut Sheet, fault: TlvFault) {
    match fault {
        TlvFault::Cut => out.put("cut"),
        TlvFault::Nesting => out.put("nesting"),
        TlvFault::Memory => out.cut(),
    }
}

/// `write-tlv RECORDS`: the shortest bytes of these records, or `refused` where TLV can't say them.
fn write_records(question: &mut Question<'_>, out: &mut Sheet) {
    let nodes = nodes_of(question);
    if !tlv_fits(nodes.as_slice()) {
        out.put("refused");
        return;
    }
    match write_tlv(out.alloc(), nodes.as_slice()) {
        Ok(bytes) => put_hex(out, bytes.as_slice()),
        Err(_) => out.cut(),
    }
}

/// Adds the words of records, `-` for none.
fn put_records(out: &mut Sheet, nodes: &[Node]) {
    if nodes.is_empty() {
        out.put("-");
    }
    for node in nodes {
        match node {
            Node::Instance { id, children } => {
                put_name(out, "instance", *id);
                out.put(" (");
                put_inner(out, children.as_slice());
                out.put(" )");
            }
            _ => put_inner_record(out, node),
        }
    }
}

/// Adds the records of an Object Instance.
fn put_inner(out: &mut Sheet, nodes: &[Node]) {
    for node in nodes {
        put_inner_record(out, node);
    }
}

fn put_inner_record(out: &mut Sheet, node: &Node) {
    let Node::Multi { id, parts } = node else {
        put_leaf(out, node);
        return;
    };
    put_name(out, "multi", *id);
    out.put(" (");
    for part in parts {
        put_leaf(out, part);
    }
    out.put(" )");
}

/// Adds a record that holds bytes.
fn put_leaf(out: &mut Sheet, node: &Node) {
    let (name, id, bytes) = match node {
        Node::Part { id, bytes } => ("part", *id, bytes),
        Node::Single { id, bytes } => ("single", *id, bytes),
        Node::Instance { .. } | Node::Multi { .. } => {
            out.put(" nested-too-deep");
            return;
        }
    };
    put_name(out, name, id);
    out.put(" ");
    put_hex(out, bytes.as_slice());
}

fn put_name(out: &mut Sheet, name: &str, id: u16) {
    out.next(" ");
    out.put_all(&[name, " "]);
    out.put_number(u64::from(id));
}

/// A record whose closing bracket has not come yet.
#[derive(Drop)]
struct Open {
    is_instance: bool,
    id: u16,
    nodes: Vec<Node>,
}

/// The records that words have given so far.
#[derive(Drop)]
struct Unfinished {
    nodes: Vec<Node>,
    open: Vec<Open>,
}

/// The records of the words `NAME ID HEX` and `NAME ID ( RECORDS )`, `-` for none.
fn nodes_of(question: &mut Question<'_>) -> Vec<Node> {
    let mut records = Unfinished::new(question.alloc());
    if question.rest() != "-" {
        records.read(question);
    }
    records.nodes
}

impl Unfinished {
    fn new(alloc: Global) -> Unfinished {
        Unfinished {
            nodes: Vec::new(alloc),
            open: Vec::new(alloc),
        }
    }

    /// Reads all that is left of a question.
    fn read(&mut self, question: &mut Question<'_>) {
        for _ in 0..question.rest().len() {
            if !question.is_over() {
                self.take(question);
            }
        }
        if self.nodes.is_empty() || !self.open.is_empty() {
            question.refuse("no record, or a bracket is open");
        }
    }

    /// Takes the next record, or a bracket.
    fn take(&mut self, question: &mut Question<'_>) {
        let name = question.word();
        if name == ")" {
            self.close(question);
            return;
        }
        let id = question.half();
        let content = question.word();
        if content == "(" {
            self.begin(question, name, id);
        } else {
            self.put_leaf(question, name, id, content);
        }
    }

    /// Adds a record that holds these bytes.
    fn put_leaf(&mut self, question: &mut Question<'_>, name: &str, id: u16, content: &str) {
        let bytes = Bytes::from_vec(hex(question, content));
        let node = leaf(question, name, id, bytes);
        self.put(question, node);
    }

    /// Begins a record that holds records.
    fn begin(&mut self, question: &mut Question<'_>, name: &str, id: u16) {
        if name != "instance" && name != "multi" {
            question.refuse("this record holds bytes");
        }
        let open = Open {
            is_instance: name == "instance",
            id,
            nodes: Vec::new(question.alloc()),
        };
        push(question, &mut self.open, open);
    }

    /// Ends the record that was begun last.
    fn close(&mut self, question: &mut Question<'_>) {
        match self.open.pop() {
            Some(open) => self.put(question, open.node()),
            None => question.refuse("a bracket too many"),
        }
    }

    /// Adds a record inside what was begun last.
    fn put(&mut self, question: &mut Question<'_>, node: Node) {
        match self.open.last_mut() {
            Some(open) => push(question, &mut open.nodes, node),
            None => push(question, &mut self.nodes, node),
        }
    }
}

impl Open {
    /// The whole record.
    fn node(self) -> Node {
        let Open {
            is_instance,
            id,
            nodes,
        } = self;
        if is_instance {
            Node::Instance {
                id,
                children: nodes,
            }
        } else {
            Node::Multi { id, parts: nodes }
        }
    }
}

/// A record that holds bytes.
fn leaf(question: &mut Question<'_>, name: &str, id: u16, bytes: Bytes) -> Node {
    if name == "part" {
        return Node::Part { id, bytes };
    }
    if name != "single" {
        question.refuse("not a record that holds bytes");
    }
    Node::Single { id, bytes }
}
