//! What the requests of device management answer and change (OMA LwM2M 1.1 Core and Transport).
#![tactic(auto)]

mod access;
mod answer;
mod client;
mod create;
mod delete;
mod discover;
mod execute;
mod laws;
mod observe;
mod operation;
mod options;
mod plain;
mod read;
mod request;
mod ruling;
mod targets;
mod write;
mod write_attributes;

pub use answer::{Act, Answer, Code};
pub use client::Client;
pub use create::{CreationFault, Newborn, creation_fault, creation_lack};
pub use discover::thousandths_text;
pub use execute::is_executable;
pub use laws::{
    arguments_are_tested, first_line_answers, links_what_exists, only_reads_observe,
    reads_depend_on_their_values, reads_what_was_written, refusals_change_nothing,
    refusals_come_in_order, refusals_have_reasons, requests_are_said, unreadable_is_hidden,
};
pub use observe::Interest;
pub use operation::Operation;
pub use options::{has_known_form, has_unrecognized_critical, observe_of, path_of};
pub use plain::{PlainRead, plain_read};
pub use request::{Request, RequestResult};
pub use ruling::Ruling;
pub use targets::{defined, definition_at, is_fixed, is_readable};
pub use write::{is_writable, mode_at, payload_fault, write_excess};
pub use write_attributes::level_at;
