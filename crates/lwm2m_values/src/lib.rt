//! Values of LwM2M resources: their kinds, and how they are spelled.
#![tactic(auto)]

mod fault;
mod integer;
mod kind;
mod laws;
mod level;
mod node;
mod numerals;
mod place;
mod plain;
mod record;
mod text;
mod tlv;
mod tlv_value;
mod tlv_writer;
mod value;

pub use fault::{TlvFault, ValueFault};
pub use kind::ValueKind;
pub use laws::{one_text_value, one_tlv, one_value_of_bytes};
pub use level::{Around, RecordType};
pub use node::{Node, instance_node, multi_node, part_node, single_node};
pub use numerals::number_below;
pub use place::{TlvLack, TlvPlace, tlv_place};
pub use plain::{read_text, write_text};
pub use text::Text;
pub use tlv::read_tlv;
pub use tlv_value::{bytes_of, value_of};
pub use tlv_writer::{tlv_fits, write_tlv};
pub use value::Value;
