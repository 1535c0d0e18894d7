//! The payloads of Read, Write and Create (OMA LwM2M 1.1 Core, data formats): which formats a path
//! serves, what a payload gives to resources, and what a Write changes.
#![tactic(auto)]

mod arguments;
mod changes;
mod counts;
mod definitions;
mod fault;
mod format;
mod given;
mod instance;
mod laws;
mod nodes;
mod parts;
mod payloads;
mod records;
mod resource;
mod spelled;

pub use arguments::{are_arguments, argument_fault};
pub use changes::{set_given, write_instance};
pub use counts::{Excess, excess_of, first_excess};
pub use definitions::is_kept;
pub use fault::{PayloadFault, RecordFault};
pub use format::{Format, format_for};
pub use given::{Assignment, Assignments, Creation, Given, Mode, Parts};
pub use instance::{creation_given, instance_given};
pub use laws::{reads, writes};
pub use payloads::{object_tlv, values_tlv, write_part, write_single};
pub use resource::{part_given, resource_given};
