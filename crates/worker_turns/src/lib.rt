//! A turn of a worker: it claims a device, lets it make steps outside the lock, puts them, and claims again.
#![tactic(auto)]

mod claims;
mod gate;
mod turns;

pub use claims::claim_job;
pub use gate::{Gate, OpenGate};
pub use turns::one_turn;
