//! One emulated device on a wire: it receives what arrives, what it outputs is sent, and a clock is its ticks.
#![tactic(auto)]

mod calls;
mod end;
mod laws;
mod machine_clock;
mod memory;
mod packet;
mod peers;
mod seconds;
mod sending;
mod serving;
mod session;
mod starting;
mod udp;
mod wire;

pub use laws::{sessions_are_rows, steps_are_what_came};
pub use machine_clock::MachineClock;
pub use memory::{Receipt, ScriptedClock, ScriptedWire};
pub use packet::Packet;
pub use seconds::Seconds;
pub use serving::serve;
pub use session::{LiveEnd, LiveSession};
pub use starting::serve_class;
pub use udp::UdpWire;
pub use wire::{Wire, WireFault};
