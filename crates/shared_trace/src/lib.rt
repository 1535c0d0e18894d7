//! A run that many workers make: a trace, which is shared, and the jobs of its workers.
//!
//! A worker claims a device under the trace's lock, lets it make steps outside the lock, and puts them into the trace.
#![tactic(auto)]

mod candidates;
mod claims;
mod job;
mod roster;
mod start;
mod stops;
mod tables;
mod trace;
mod wait_queue;
mod work;

pub use claims::Claim;
pub use job::{AdvanceFault, Job};
pub use trace::Trace;
pub use work::OpenWork;
