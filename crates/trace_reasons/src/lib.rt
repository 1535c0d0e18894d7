//! A trace as text and as JSON Lines, with the reason why a device handles each datagram that arrives as it does, sends
//! each that it sends by itself, and ends observations.
#![tactic(auto)]

mod entries;
mod laws;
mod lines;
mod objects;
mod selection;

pub use entries::selected_reasons;
pub use laws::reasons_are_added;
pub use lines::reason_lines;
pub use objects::reasoned_lines;
