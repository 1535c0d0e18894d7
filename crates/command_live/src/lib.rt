//! `live`: a device on UDP.
#![tactic(auto)]

mod live_device;
mod showing;

pub use live_device::{conclude_session, live, session_line};
pub use showing::{ShownWire, show_arrival, show_sent};
