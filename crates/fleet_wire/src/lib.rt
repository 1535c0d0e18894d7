//! Ports over a wire that loses, doubles, exchanges and delays datagrams, as a plan says: a decorator of ports.
#![tactic(auto)]

mod choice;
mod happened;
mod lane;
mod laws;
mod lossy;
mod note;
mod plan;
mod reading;
mod wire;
mod wired;
mod wiring;

pub use choice::{Choice, Span};
pub use happened::Happened;
pub use laws::{nothing_chosen_passes, streams_differ};
pub use lossy::LossyPorts;
pub use note::Note;
pub use plan::{Direction, Fate, Plan};
pub use reading::ChoiceFault;
pub use wired::WiredPorts;
