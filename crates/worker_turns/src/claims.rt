ghost use Rattle.std.specs.Prelude.{◌≡◌, ℕ, IfErr};
ghost use Rattle.ticket_lock.specs.Lock.{HasNumber};
ghost use Rattle.ticket_lock.specs.Names.{lock_id, pass_view, IsPass};
ghost use Rattle.worker_visits.specs.Blocks.{own_entries};
ghost use Rattle.worker_visits.specs.Knowing.{has_stopped, IsVisit};

use shared_trace::Trace;
use std::sync::Wait;
use ticket_lock::{Pass, TicketLock};
use worker_visits::{LoopEnd, Visit};

/// Claims under the lowest number of the pass, which then knows the job that it got (`visit`: `claimed`). If no ticket
/// is left, the worker ends by `Spent` (`spent`). It adds nothing (`own`), and stops nothing (`going`).
pub fn claim_job<R: Wait>(rt: &R, lock: &TicketLock<Trace>, pass: Pass<Trace>) -> Visit
    requires { IsPass (lock_id lock.now) pass }
    ensures pass { IsPass (lock_id lock.now) result.pass }
    ensures visit { IsVisit (pass_view pass) (pass_view result.pass) result.next }
    ensures own { (n : ℕ) → HasNumber (pass_view pass) n
        → own_entries n (pass_view result.pass).front ≡ own_entries n (pass_view pass).front }
    ensures spent { IfErr result.next (λ e. e ≡ LoopEnd.Spent) }
    ensures going { has_stopped (pass_view result.pass) ≡ has_stopped (pass_view pass) }
{
    let worker = pass.number();
    match lock.take(rt, pass) {
        Ok(mut held) => {
            let claim = held.value_mut().claim(worker);
            let pass = held.give();
            Visit {
                pass,
                next: Ok(claim),
            }
        }
        Err((pass, _)) => Visit {
            pass,
            next: Err(LoopEnd::Spent),
        },
    }
}
