//! The beginning and the end of an object instance: Create and Delete on a store (OMA LwM2M 1.1 Core).
#![tactic(auto)]

mod creation;
mod deletion;
pub mod laws;
mod number;
mod room;

pub use creation::create;
pub use deletion::delete;
pub use number::{free_number, number_for};
pub use room::{NoRoom, lack_of_room};
