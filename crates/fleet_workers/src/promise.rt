//! What is known of the answer of a worker's thread.

use scenario_image::Scenario;
use shared_trace::Trace;
use std::snapshot::Snapshot;
use std::thread::Promise;
use ticket_lock::{Pass, TicketLock};
use worker_turns::Gate;
use worker_visits::LoopEnd;

/// That the answer is what `worker_loop` says where it is called with these.
#[derive(Drop)]
pub(crate) struct Worked<G: Gate> {
    pub(crate) lock: Snapshot<TicketLock<Trace>>,
    pub(crate) pass: Snapshot<Pass<Trace>>,
    pub(crate) scenario: Snapshot<Scenario>,
    pub(crate) batch: u32,
    pub(crate) gate: Snapshot<G>,
}

impl<G: Gate> Promise<(Pass<Trace>, LoopEnd)> for Worked<G> {
    ghost use Rattle.ticket_lock.specs.Names.{lock_id, pass_view, IsPass};
    ghost use Rattle.fleet_workers.specs.Crew.{HasWorked};

    ghost kept_by = { λ p r. IsPass (lock_id p.lock.value) r.0 × HasWorked (G.came p.gate.value) p.scenario.value
        p.batch (pass_view p.pass.value) (pass_view r.0) r.1 };
}
