//! Workers under the lowest numbers of a pass, each on a thread of its own.

ghost use Rattle.std.specs.Prelude.{◌≡◌, ◌≤◌, Some, IfSome};
ghost use Rattle.std.specs.Thread.{IsSync};
ghost use Rattle.ticket_lock.specs.Names.{lock_id, pass_view, IsPass};
ghost use Rattle.fleet_workers.specs.Crew.{has_run_out, was_stopped, is_spent, joint_end, HasWorked, HaveWorked};

use crate::loops::worker_loop;
use crate::promise::Worked;
use scenario_image::Scenario;
use shared_trace::Trace;
use std::snapshot::Snapshot;
use std::sync::Wait;
use std::thread::{Scope, Threads, scope, scope_env};
use ticket_lock::{Pass, TicketLock};
use worker_turns::Gate;
use worker_visits::{LoopEnd, stop_trace};

fn has_run_out(end: LoopEnd) -> bool
    ensures { result ≡ has_run_out end }
{
    matches!(end, LoopEnd::Memory)
}

fn was_stopped(end: LoopEnd) -> bool
    ensures { result ≡ was_stopped end }
{
    matches!(end, LoopEnd::Stopped)
}

fn is_spent(end: LoopEnd) -> bool
    ensures { result ≡ is_spent end }
{
    matches!(end, LoopEnd::Spent)
}

/// Combines the first worker's end with that of the rest.
fn joint_end(first: LoopEnd, others: LoopEnd) -> LoopEnd
    ensures { result ≡ joint_end first others }
{
    if has_run_out(first) || has_run_out(others) {
        LoopEnd::Memory
    } else if was_stopped(first) || was_stopped(others) {
        LoopEnd::Stopped
    } else if is_spent(first) || is_spent(others) {
        LoopEnd::Spent
    } else {
        first
    }
}

/// One worker, as a crew of one.
fn run_alone<R: Wait, G: Gate>(
    rt: &R,
    lock: &TicketLock<Trace>,
    pass: Pass<Trace>,
    scenario: &Scenario,
    batch: u32,
    gate: &G,
) -> (Pass<Trace>, LoopEnd)
    requires pass { IsPass (lock_id lock.now) pass }
    requires subject { (pass_view pass).subject ≡ Some scenario.now }
    requires batch { 1 ≤ batch }
    ensures pass { IsPass (lock_id lock.now) result.0 }
    ensures worked { HaveWorked (G.came gate.now) scenario.now batch 1 (pass_view pass) (pass_view result.0) result.1 }
{
    worker_loop(rt, lock, pass, scenario, batch, gate)
}

/// A crew whose workers are threads of this scope, but for the last one. Where a thread can't be started, the trace is
/// stopped, so that the workers that are there end, and there is no pass that could be given back.
fn run_in_scope<'s, E, R: Threads + Wait + Sync, G: Gate + Sync>(
    rt: &'s R,
    scope: &Scope<'s, E>,
    lock: &'s TicketLock<Trace>,
    pass: Pass<Trace>,
    scenario: &'s Scenario,
    batch: u32,
    gate: &'s G,
    workers: u16,
) -> Option<(Pass<Trace>, LoopEnd)>
    requires pass { IsPass (lock_id lock.now) pass }
    requires subject { (pass_view pass).subject ≡ Some scenario.now }
    requires batch { 1 ≤ batch }
    requires some { 1 ≤ workers }
    requires numbers { workers ≤ (pass_view pass).count }
    ensures pass { IfSome result (λ r. IsPass (lock_id lock.now) r.0) }
    ensures worked { IfSome result (λ r. HaveWorked (G.came gate.now) scenario.now batch workers
        (pass_view pass) (pass_view r.0) r.1) }
{
    if workers == 1 {
        return Some(run_alone(rt, lock, pass, scenario, batch, gate));
    }
    let Ok((one, rest)) = pass.split(lock) else {
        unreachable!()
    };
    let promise = Worked {
        lock: Snapshot::of(lock),
        pass: Snapshot::of(&one),
        scenario: Snapshot::of(scenario),
        batch,
        gate: Snapshot::of(gate),
    };
    let started = scope.spawn_with(
        promise,
        move || -> (Pass<Trace>, LoopEnd)
            requires { IsSync R.row × IsSync G.row × IsPass (lock_id lock.now) one
                × ((pass_view one).subject ≡ Some scenario.now) × (1 ≤ batch) }
            ensures { IsPass (lock_id lock.entry.now) result.0 × HasWorked (G.came gate.entry.now)
                scenario.entry.now batch (pass_view one) (pass_view result.0) result.1 }
        { worker_loop(rt, lock, one, scenario, batch, gate) },
    );
    let Ok(worker) = started else {
        stop_trace(rt, lock, rest);
        return None;
    };
    let others = run_in_scope(rt, scope, lock, rest, scenario, batch, gate, workers - 1);
    let (one, first) = worker.join(rt);
    let (rest, last) = others?;
    Some((one.join(lock, rest), joint_end(first, last)))
}

/// Lets workers claim and make steps until there is nothing left to do, each on a thread of its own and under one of
/// the lowest numbers of the pass: what `worker_loop` says of one worker holds of each. The pass comes back, with how
/// they ended together. Where a thread can't be started there is none: the workers that were started have ended too
/// then.
pub fn run_crew<R: Threads + Wait + Sync, G: Gate + Sync>(
    rt: &R,
    lock: &TicketLock<Trace>,
    pass: Pass<Trace>,
    scenario: &Scenario,
    batch: u32,
    gate: &G,
    workers: u16,
) -> Option<(Pass<Trace>, LoopEnd)>
    requires pass { IsPass (lock_id lock.now) pass }
    requires subject { (pass_view pass).subject ≡ Some scenario.now }
    requires batch { 1 ≤ batch }
    requires some { 1 ≤ workers }
    requires numbers { workers ≤ (pass_view pass).count }
    ensures pass { IfSome result (λ r. IsPass (lock_id lock.now) r.0) }
    ensures worked { IfSome result (λ r. HaveWorked (G.came gate.now) scenario.now batch workers
        (pass_view pass) (pass_view r.0) r.1) }
{
    scope(
        scope_env(),
        rt,
        move |scope| -> Option<(Pass<Trace>, LoopEnd)>
            requires { IsSync R.row × IsSync G.row × IsPass (lock_id lock.now) pass
                × ((pass_view pass).subject ≡ Some scenario.now) × (1 ≤ batch) × (1 ≤ workers)
                × (workers ≤ (pass_view pass).count) }
            ensures { IfSome result (λ r. IsPass (lock_id lock.entry.now) r.0 × HaveWorked (G.came gate.entry.now)
                scenario.entry.now batch workers (pass_view pass) (pass_view r.0) r.1) }
        { run_in_scope(rt, scope, lock, pass, scenario, batch, gate, workers) },
    )
}
