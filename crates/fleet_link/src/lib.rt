//! All devices of a scenario on ports: each receives what arrives at its own, what it outputs is sent from there, and a
//! clock is their ticks.
#![tactic(auto)]

mod directory;
mod fault;
mod fleet;
mod history;
mod laws;
mod memory;
mod ports;
mod recording;
mod row;
mod saving;
mod seen;
mod sending;
mod serving;
mod slot;
mod tally;
mod udp;

pub use directory::FixedServer;
pub use fault::FleetFault;
pub use fleet::Fleet;
pub use laws::{
    clocks_show_seconds, passes_repeat, played_steps_keep_changes, saved_rows_play_back,
    unchanged_steps_are_live,
};
pub use memory::{ScriptedPorts, Sending};
pub use ports::{Arrival, Ports, PortsFault, Receipt};
pub use recording::Recording;
pub use row::{PlayedRow, RowState, own_steps};
pub use saving::add_row;
pub use slot::{DeviceEnd, Slot};
pub use udp::{BindFault, Counts, UdpPorts};
