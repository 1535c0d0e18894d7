//! `say` and `spell`, for a person beside a server: what a datagram says, and the datagram of a statement.
#![tactic(auto)]

mod acks;
mod arrival;
mod input;
mod laws;
mod log;
mod saying;
mod spelling;

pub use input::say_input;
pub use laws::spelled_is_said;
pub use log::say_all;
pub use saying::say;
pub use spelling::spell;
