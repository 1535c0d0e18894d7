//! Workers that add to a list under a lock.
ghost use Rattle.std.specs.Prelude.{◌≡◌, ◌≢◌, ℕ, ◌+◌, true, false, [], ◌∷◌, ◌++◌, take, IfOk};
ghost use Rattle.std.specs.Thread.{IsSync};
ghost use Rattle.ticket_lock.specs.Log.{entries_of_worker};
ghost use Rattle.ticket_lock.specs.Lock.{HasNumber};
ghost use Rattle.ticket_lock.specs.Names.{lock_id, pass_view, IsPass};
ghost use Rattle.ticket_lock_uses.specs.Items.{items_log, by_worker};

use crate::items::Items;
use std::alloc::{AllocError, Global};
use std::sync::Wait;
use std::thread::{Threads, join};
use ticket_lock::{Pass, TicketLock};

/// Adds a number under the lowest number of the pass. The answer says whether it was added: it was not if memory or the
/// tickets ran out.
pub fn add<R: Wait>(
    rt: &R,
    lock: &TicketLock<Items>,
    pass: Pass<Items>,
    number: u64,
) -> (Pass<Items>, bool)
    requires { IsPass (lock_id lock.now) pass }
    ensures pass { IsPass (lock_id lock.now) result.0 × ((pass_view result.0).low ≡ (pass_view pass).low)
        × ((pass_view result.0).count ≡ (pass_view pass).count) }
    ensures added { result.1 ≡ true
        → entries_of_worker items_log (pass_view pass).low (pass_view result.0).front
        ≡ entries_of_worker items_log (pass_view pass).low (pass_view pass).front
        ++ ((pass_view pass).low, number) ∷ [] }
    ensures not { result.1 ≡ false
        → entries_of_worker items_log (pass_view pass).low (pass_view result.0).front
        ≡ entries_of_worker items_log (pass_view pass).low (pass_view pass).front }
    ensures others { (w : ℕ) → HasNumber (pass_view pass) w → w ≢ (pass_view pass).low
        → entries_of_worker items_log w (pass_view result.0).front
        ≡ entries_of_worker items_log w (pass_view pass).front }
{
    let worker = pass.number();
    match lock.take(rt, pass) {
        Ok(mut held) => match held.value_mut().push(worker, number) {
            Ok(()) => (held.give(), true),
            Err(_) => (held.give(), false),
        },
        Err((pass, _)) => (pass, false),
    }
}

/// Adds the numbers in turn, and stops at one that is not added. The answer says how many were.
pub fn add_all<R: Wait>(
    rt: &R,
    lock: &TicketLock<Items>,
    mut pass: Pass<Items>,
    numbers: &[u64],
) -> (Pass<Items>, usize)
    requires { IsPass (lock_id lock.now) pass }
    ensures pass { IsPass (lock_id lock.now) result.0 × ((pass_view result.0).low ≡ (pass_view pass).low)
        × ((pass_view result.0).count ≡ (pass_view pass).count) }
    ensures added { entries_of_worker items_log (pass_view pass).low (pass_view result.0).front
        ≡ entries_of_worker items_log (pass_view pass).low (pass_view pass).front
        ++ by_worker (pass_view pass).low (take result.1 numbers.now) }
    ensures others { (w : ℕ) → HasNumber (pass_view pass) w → w ≢ (pass_view pass).low
        → entries_of_worker items_log w (pass_view result.0).front
        ≡ entries_of_worker items_log w (pass_view pass).front }
{
    for (count, number) in numbers.iter().enumerate() {
        let (back, added) = add(rt, lock, pass, *number);
        pass = back;
        if !added {
            return (pass, count);
        }
    }
    (pass, numbers.len())
}

/// Two threads add to one list, under the numbers 1 and 2. The answer has the list, and how many each added.
pub fn two<R: Threads + Wait + Sync>(
    rt: &R,
    alloc: Global,
    first: &[u64],
    second: &[u64],
) -> Result<(Items, usize, usize), AllocError>
    requires { IsSync R.row }
    ensures first { IfOk result (λ r. entries_of_worker items_log 1 r.0 ≡ by_worker 1 (take r.1 first.now)) }
    ensures second { IfOk result (λ r. entries_of_worker items_log 2 r.0 ≡ by_worker 2 (take r.2 second.now)) }
{
    let (lock, pass) = TicketLock::new(Items::new(alloc), alloc)?;
    let Ok((one, two)) = pass.split(&lock) else {
        unreachable!()
    };
    let shared = &lock;
    let ((one, a), (two, b)) = join(
        rt,
        move || -> (Pass<Items>, usize)
            requires { IsSync R.row × IsPass (lock_id shared.now) one × ((pass_view one).low ≡ 1)
                × ((pass_view one).count ≡ 1) × ((pass_view one).front ≡ []) }
            ensures { IsPass (lock_id shared.entry.now) result.0 × ((pass_view result.0).low ≡ 1)
                × ((pass_view result.0).count ≡ 1)
                × (entries_of_worker items_log 1 (pass_view result.0).front
                ≡ by_worker 1 (take result.1 first.entry.now)) }
        { add_all(rt, shared, one, first) },
        move || -> (Pass<Items>, usize)
            requires { IsSync R.row × IsPass (lock_id shared.now) two × ((pass_view two).low ≡ 2)
                × ((pass_view two).count ≡ 63) × ((pass_view two).front ≡ []) }
            ensures { IsPass (lock_id shared.entry.now) result.0 × ((pass_view result.0).low ≡ 2)
                × ((pass_view result.0).count ≡ 63)
                × (entries_of_worker items_log 2 (pass_view result.0).front
                ≡ by_worker 2 (take result.1 second.entry.now)) }
        { add_all(rt, shared, two, second) },
    );
    let pass = one.join(&lock, two);
    let Ok(items) = lock.close(pass) else {
        unreachable!()
    };
    Ok((items, a, b))
}
