//! What goes through the ports of a fleet while it goes on: counted, kept until it is told, and as lines for people or
//! objects in JSON.
#![tactic(auto)]

mod counted;
mod lines;
mod objects;
mod showing;
mod shown;
mod shown_ports;
mod tape;
mod traffic;

pub use counted::{Account, Counted};
pub use lines::{datagram_line, note_line};
pub use objects::{datagram_object, note_object};
pub use shown::Shown;
pub use shown_ports::ShownPorts;
pub use traffic::traffic_text;
