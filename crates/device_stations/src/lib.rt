//! What is kept of the devices of a run that workers make: where each is, and what its next step asks for.
#![tactic(auto)]

mod station;

pub use station::{Place, Station, any_out, count_ended, first_left, is_ready_at, lowest_ready};
