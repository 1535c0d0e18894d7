//! A trace as text, for people: entry by entry the step that was made, the second of its device, what the device
//! output, and what the datagrams say.
#![tactic(auto)]

mod clock;
mod clocks;
mod datagrams;
mod laws;
mod lines;
mod selection;
mod steps;
mod transcript;

pub use clocks::Clocks;
pub use datagrams::{arrival_text, sent_text, statement_text};
pub use laws::{
    all_are_selected, arrivals_have_bytes, parts_join, runs_have_steps, seconds_are_shown,
};
pub use lines::put_outputs;
pub use selection::{Selection, SelectionFault};
pub use transcript::{Transcript, selected_text, trace_text};
