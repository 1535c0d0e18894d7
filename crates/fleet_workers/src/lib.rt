//! Workers on threads of their own, which make one run of a scenario together.
#![tactic(auto)]

mod crew;
mod fleet;
mod loops;
mod promise;

pub use crew::run_crew;
pub use fleet::{FleetEnd, FleetRun, RunFault, outcome, run_fleet};
pub use loops::worker_loop;
pub use worker_turns::{Gate, OpenGate, claim_job};
pub use worker_visits::{LoopEnd, Put, PutVisit, Visit, put_and_claim, put_job, stop_trace};
