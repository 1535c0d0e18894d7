//! CoAP datagrams in words, for people who read what devices and servers send.
#![tactic(auto)]

mod names;
mod numbers;
mod options;
mod payload;
mod text;
mod uri;

pub use names::{class_and_detail, format_name};
pub use numbers::put_decimal;
pub use text::{datagram_text, fault_reason, message_text, put_datagram};
