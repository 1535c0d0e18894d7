ghost use Rattle.std.specs.Prelude.{◌≡◌, ◌≢◌, ◌⊎◌, ℕ, ◌++◌, true, false, Err, IfSome, IfNone, IfErr, IsOk, IsErr};
ghost use Rattle.ticket_lock.specs.Log.{Adds};
ghost use Rattle.ticket_lock.specs.Lock.{HasNumber};
ghost use Rattle.ticket_lock.specs.Names.{lock_id, pass_view, IsPass};
ghost use Rattle.shared_trace.specs.Trace.{IsShared, with_block, stopped_under, trace_log};
ghost use Rattle.shared_trace.specs.Job.{MayPut};
ghost use Rattle.shared_trace.specs.Claims.{Claims, ClaimStands};
ghost use Rattle.worker_visits.specs.Blocks.{own_entries, IsPut};
ghost use Rattle.worker_visits.specs.Knowing.{Follows, Knows, has_stopped, IsOut, IsVisit};

use crate::ends::LoopEnd;
use shared_trace::{Claim, Job, Trace};
use std::sync::Wait;
use ticket_lock::{Pass, TicketLock};

/// What came of a worker's visit to the trace.
pub struct Visit {
    /// The worker's pass, which has left the lock.
    pub pass: Pass<Trace>,
    /// What the worker claimed, or why it ends.
    pub next: Result<Claim, LoopEnd>,
}

/// Puts the job, or stops the trace if memory runs out. The answer says whether it was put.
fn put_or_stop(trace: &mut Trace, worker: u16, job: Job) -> bool
    requires { MayPut trace.old worker job }
    ensures put { result ≡ true → trace.new ≡ with_block trace.old job.device job.held job.entries }
    ensures stopped { result ≡ false → trace.new ≡ stopped_under trace.old worker }
    ensures adds { Adds trace_log worker trace.old trace.new }
    ensures shared { IsShared trace.new }
{
    match trace.put(worker, job) {
        Ok(()) => true,
        Err((job, _)) => {
            trace.stop(worker);
            job.abandon();
            false
        }
    }
}

/// What became of a job that was to be put.
#[derive(Clone, Copy)]
pub enum Put {
    /// Its entries stand in the trace.
    Made,
    /// Memory ran out. The trace was stopped.
    Memory,
    /// No ticket was left, so the trace is as it was.
    Spent,
}

/// What came of a visit that was to put a job.
#[derive(Drop)]
pub struct PutVisit {
    /// The worker's pass, which has left the lock.
    pub pass: Pass<Trace>,
    /// What became of the job.
    pub put: Put,
}

/// Puts the job under the lowest number of the pass: the own entries are those from before, followed by exactly the
/// job's (`own`). A put that says `Memory` has stopped the trace (`memory`); without a ticket the pass has seen that
/// none is left (`spent`). Where it is not put, nothing was added (`kept`).
pub fn put_job<R: Wait>(rt: &R, lock: &TicketLock<Trace>, pass: Pass<Trace>, job: Job) -> PutVisit
    requires pass { IsPass (lock_id lock.now) pass }
    requires knows { Knows (pass_view pass) job }
    requires ready { job.spent ≡ false }
    ensures pass { IsPass (lock_id lock.now) result.pass }
    ensures follows { Follows (pass_view pass) (pass_view result.pass) }
    ensures put { result.put ≡ Put.Made
        → IsPut (pass_view pass).low (pass_view pass).front job.entries (pass_view result.pass).front }
    ensures own { result.put ≡ Put.Made → own_entries (pass_view pass).low (pass_view result.pass).front
        ≡ own_entries (pass_view pass).low (pass_view pass).front ++ job.entries }
    ensures kept { result.put ≢ Put.Made → own_entries (pass_view pass).low (pass_view result.pass).front
        ≡ own_entries (pass_view pass).low (pass_view pass).front }
    ensures spent { result.put ≡ Put.Spent → (pass_view result.pass).end ≡ true }
    ensures memory { result.put ≡ Put.Memory → has_stopped (pass_view result.pass) ≡ true }
    ensures going { result.put ≢ Put.Memory → has_stopped (pass_view result.pass) ≡ has_stopped (pass_view pass) }
{
    let worker = pass.number();
    match lock.take(rt, pass) {
        Ok(mut held) => {
            let is_put = put_or_stop(held.value_mut(), worker, job);
            let pass = held.give();
            let put = if is_put { Put::Made } else { Put::Memory };
            PutVisit { pass, put }
        }
        Err((pass, _)) => {
            job.abandon();
            PutVisit {
                pass,
                put: Put::Spent,
            }
        }
    }
}

/// Puts the job and claims, or stops the trace if memory runs out. There is an answer if the job was put.
fn put_then_claim(trace: &mut Trace, worker: u16, job: Job) -> Option<Claim>
    requires { MayPut trace.old worker job }
    ensures claims { IfSome result (λ claim.
        Claims (with_block trace.old job.device job.held job.entries) trace.new worker claim) }
    ensures stands { IfSome result (λ claim. ClaimStands trace.new worker claim) }
    ensures stopped { IfNone result (trace.new ≡ stopped_under trace.old worker) }
    ensures adds { Adds trace_log worker trace.old trace.new }
    ensures shared { IsShared trace.new }
{
    if put_or_stop(trace, worker, job) {
        Some(trace.claim(worker))
    } else {
        None
    }
}

/// Puts the job under the lowest number of the pass, as `put_job` does, and claims in the same visit: a worker whose
/// device can go on has it again, unless a lower one can step. A put that fails says `Memory` or `Spent`
/// (`memory_or_spent`). No device is out afterwards that was not before, but the one that the claim got (`visit`:
/// `out`).
pub fn put_and_claim<R: Wait>(
    rt: &R,
    lock: &TicketLock<Trace>,
    pass: Pass<Trace>,
    job: Job,
) -> Visit
    requires pass { IsPass (lock_id lock.now) pass }
    requires knows { Knows (pass_view pass) job }
    requires ready { job.spent ≡ false }
    ensures pass { IsPass (lock_id lock.now) result.pass }
    ensures visit { IsVisit (pass_view pass) (pass_view result.pass) result.next }
    ensures put { IsOk result.next
        → IsPut (pass_view pass).low (pass_view pass).front job.entries (pass_view result.pass).front }
    ensures own { IsOk result.next → own_entries (pass_view pass).low (pass_view result.pass).front
        ≡ own_entries (pass_view pass).low (pass_view pass).front ++ job.entries }
    ensures kept { IsErr result.next → own_entries (pass_view pass).low (pass_view result.pass).front
        ≡ own_entries (pass_view pass).low (pass_view pass).front }
    ensures memory_or_spent { IfErr result.next (λ e. (e ≡ LoopEnd.Memory) ⊎ (e ≡ LoopEnd.Spent)) }
    ensures memory { result.next ≡ Err LoopEnd.Memory → has_stopped (pass_view result.pass) ≡ true }
{
    let worker = pass.number();
    match lock.take(rt, pass) {
        Ok(mut held) => {
            let claim = put_then_claim(held.value_mut(), worker, job);
            let pass = held.give();
            match claim {
                Some(claim) => Visit {
                    pass,
                    next: Ok(claim),
                },
                None => Visit {
                    pass,
                    next: Err(LoopEnd::Memory),
                },
            }
        }
        Err((pass, _)) => {
            job.abandon();
            Visit {
                pass,
                next: Err(LoopEnd::Spent),
            }
        }
    }
}

/// Stops the trace under the lowest number of the pass, if a ticket is left for it.
pub fn stop_trace<R: Wait>(rt: &R, lock: &TicketLock<Trace>, pass: Pass<Trace>) -> Pass<Trace>
    requires { IsPass (lock_id lock.now) pass }
    ensures pass { IsPass (lock_id lock.now) result }
    ensures follows { Follows (pass_view pass) (pass_view result) }
    ensures stopped { (pass_view result).end ≡ false → has_stopped (pass_view result) ≡ true }
    ensures out { (d : ℕ) → IsOut (pass_view result) d → IsOut (pass_view pass) d }
    ensures own { (n : ℕ) → HasNumber (pass_view pass) n
        → own_entries n (pass_view result).front ≡ own_entries n (pass_view pass).front }
{
    let worker = pass.number();
    match lock.take(rt, pass) {
        Ok(mut held) => {
            held.value_mut().stop(worker);
            held.give()
        }
        Err((pass, _)) => pass,
    }
}
