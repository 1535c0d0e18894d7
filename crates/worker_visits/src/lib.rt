//! What a worker does with the trace while it has the lock: it puts a job and claims, or stops the trace.
#![tactic(auto)]

mod ends;
mod visits;

pub use ends::LoopEnd;
pub use visits::{Put, PutVisit, Visit, put_and_claim, put_job, stop_trace};
