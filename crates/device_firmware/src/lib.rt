//! Firmware update: what is taken in which state, and what it changes (OMA LwM2M 1.1 Core, object 5 Firmware Update).
#![tactic(auto)]

mod event;
pub mod laws;
mod state;
mod update;

pub use event::FirmwareEvent;
pub use update::{take, takes};
