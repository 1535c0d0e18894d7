//! The loop of a worker.

ghost use Rattle.std.specs.Prelude.{◌≡◌, ◌≢◌, ◌≤◌, ◌⊎◌, ℕ, Some};
ghost use Rattle.ticket_lock.specs.Names.{lock_id, pass_view, IsPass};
ghost use Rattle.worker_visits.specs.Blocks.{HasPut};
ghost use Rattle.worker_visits.specs.Knowing.{Follows, EndsAs, has_stopped, IsOut};

use crossbeam_utils::Backoff;
use scenario_image::Scenario;
use shared_trace::{Claim, Trace};
use std::sync::Wait;
use ticket_lock::{Pass, TicketLock};
use worker_turns::{Gate, one_turn};
use worker_visits::{LoopEnd, Visit};

/// Claims devices under the lowest number of the pass, lets each make at most `batch` steps outside the lock, and puts
/// them into the trace, until there is nothing left to do. The pass comes back, and has seen more of the run; nothing
/// was added under its numbers but under the lowest (`follows`). Under that it has the own entries that it had, and
/// then its blocks (`blocks`).
///
/// At `Done` and `Stalled` the run is complete; at `Memory` the trace is stopped under the lowest number, unless no
/// ticket was left for it (`end`); otherwise it has not stopped it (`going`). The gate is called for each device that
/// was claimed: for those that were put, and for one that was given up, which stays out (`gate`).
pub fn worker_loop<R: Wait, G: Gate>(
    rt: &R,
    lock: &TicketLock<Trace>,
    pass: Pass<Trace>,
    scenario: &Scenario,
    batch: u32,
    gate: &G,
) -> (Pass<Trace>, LoopEnd)
    requires pass { IsPass (lock_id lock.now) pass }
    requires subject { (pass_view pass).subject ≡ Some scenario.now }
    requires batch { 1 ≤ batch }
    ensures pass { IsPass (lock_id lock.now) result.0 }
    ensures follows { Follows (pass_view pass) (pass_view result.0) }
    ensures blocks { HasPut (G.came gate.now) scenario.now (pass_view pass).low batch
        (pass_view pass).front (pass_view result.0).front }
    ensures end { EndsAs (pass_view result.0) result.1 }
    ensures going { result.1 ≢ LoopEnd.Memory
        → has_stopped (pass_view result.0) ≡ has_stopped (pass_view pass) }
    ensures gate { (d : ℕ) → IsOut (pass_view result.0) d
        → IsOut (pass_view pass) d ⊎ G.came gate.now (pass_view pass).low d }
{
    let backoff = Backoff::new();
    // (it begins as a worker that had nothing to claim)
    let (mut pass, mut claim) = (pass, Claim::Busy);
    for _ in rt.forever() {
        let Visit { pass: back, next } = one_turn(
            rt, lock, pass, scenario, batch, gate, &backoff, claim,
        );
        pass = back;
        match next {
            Ok(next) => claim = next,
            Err(end) => return (pass, end),
        }
    }
    unreachable!()
}
