//! `debug`: a conversation with a debugger over a run.
#![tactic(auto)]

mod conversation;
mod debugging;

pub use conversation::converse;
pub use debugging::debug;
