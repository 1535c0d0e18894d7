//! `one`: what the demonstration device outputs for one datagram, and why.
#![tactic(auto)]

mod answers;
mod demo;
mod explained;

pub use answers::{one, one_json, one_why};
pub use demo::{SERVER, answer, reason, template};
