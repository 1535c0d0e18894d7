ghost use Rattle.std.specs.Prelude.{◌≡◌, ◌≤◌, ℕ, [], false, List, Some, IsOk};
ghost use Rattle.ticket_lock.specs.Names.{lock_id, pass_view, IsPass};
ghost use Rattle.trace_file.specs.declared.entry.Entry.{Entry};
ghost use Rattle.worker_visits.specs.Blocks.{HasMade, HasPut};
ghost use Rattle.worker_visits.specs.Knowing.{Knows, HasClaimed, Gets, IsVisit};

use crate::claims::claim_job;
use crate::gate::Gate;
use crossbeam_utils::Backoff;
use scenario_image::Scenario;
use shared_trace::{Claim, Job, Trace};
use std::sync::Wait;
use ticket_lock::{Pass, TicketLock};
use worker_visits::{LoopEnd, Visit, put_and_claim, stop_trace};

/// Lets the job's device make steps outside the lock, puts them, and claims.
fn make_steps<R: Wait, G: Gate>(
    rt: &R,
    lock: &TicketLock<Trace>,
    pass: Pass<Trace>,
    scenario: &Scenario,
    batch: u32,
    gate: &G,
    mut job: Job,
) -> Visit
    requires pass { IsPass (lock_id lock.now) pass }
    requires subject { (pass_view pass).subject ≡ Some scenario.now }
    requires batch { 1 ≤ batch }
    requires knows { Knows (pass_view pass) job }
    requires fresh { job.entries ≡ [] }
    requires ready { job.spent ≡ false }
    ensures pass { IsPass (lock_id lock.now) result.pass }
    ensures visit { IsVisit (pass_view pass) (pass_view result.pass) result.next }
    ensures gate { G.came gate.now (pass_view pass).low job.device }
    ensures made { IsOk result.next → (block : List Entry)
        × HasMade (G.came gate.now) scenario.now (pass_view pass).low batch
        (pass_view pass).front block (pass_view result.pass).front }
    ensures blocks { HasPut (G.came gate.now) scenario.now (pass_view pass).low batch
        (pass_view pass).front (pass_view result.pass).front }
{
    gate.pass(pass.number(), job.device());
    match job.advance(&pass, scenario, batch) {
        Ok(()) => {}
        Err(_) => {
            job.abandon();
            let pass = stop_trace(rt, lock, pass);
            return Visit {
                pass,
                next: Err(LoopEnd::Memory),
            };
        }
    }
    // For the proof alone: a job whose entries are read is known to have made a run.
    let _known = job.entries();
    put_and_claim(rt, lock, pass, job)
}

/// Does what the claim says: makes the steps of the device that it got, and claims anew, or ends.
pub fn one_turn<R: Wait, G: Gate>(
    rt: &R,
    lock: &TicketLock<Trace>,
    pass: Pass<Trace>,
    scenario: &Scenario,
    batch: u32,
    gate: &G,
    backoff: &Backoff,
    claim: Claim,
) -> Visit
    requires pass { IsPass (lock_id lock.now) pass }
    requires subject { (pass_view pass).subject ≡ Some scenario.now }
    requires batch { 1 ≤ batch }
    requires claimed { HasClaimed (pass_view pass) claim }
    ensures pass { IsPass (lock_id lock.now) result.pass }
    ensures visit { IsVisit (pass_view pass) (pass_view result.pass) result.next }
    ensures blocks { HasPut (G.came gate.now) scenario.now (pass_view pass).low batch
        (pass_view pass).front (pass_view result.pass).front }
    ensures gate { (d : ℕ) → Gets claim d → G.came gate.now (pass_view pass).low d }
{
    match claim {
        Claim::Got(job) => {
            backoff.reset();
            make_steps(rt, lock, pass, scenario, batch, gate, job)
        }
        Claim::Busy => {
            backoff.snooze();
            claim_job(rt, lock, pass)
        }
        Claim::Done => Visit {
            pass,
            next: Err(LoopEnd::Done),
        },
        Claim::Stalled => Visit {
            pass,
            next: Err(LoopEnd::Stalled),
        },
        Claim::Stopped => Visit {
            pass,
            next: Err(LoopEnd::Stopped),
        },
    }
}
