//! The end of a lock's tickets. That a take waits for nobody where none is left is in no clause: here one comes back
//! while its own thread holds the value.
ghost use Rattle.std.specs.Prelude.{◌≡◌, IfOk};
ghost use Rattle.ticket_lock.specs.Names.{lock_id, IsPass};

use crate::items::Items;
use std::alloc::{AllocError, Global};
use std::sync::Wait;
use ticket_lock::{Pass, Spent, TicketLock};

/// The last ticket, 2^63 - 2.
const LAST_TICKET: u64 = 9223372036854775806;

/// Takes the list under the last ticket and gives it back; then no ticket is left, and the lock is closed. The list
/// comes back as it was.
pub fn taken_once<R: Wait>(rt: &R, alloc: Global, items: Items) -> Result<Items, AllocError>
    ensures { IfOk result (λ left. left ≡ items) }
{
    let (lock, pass) = TicketLock::with_first(items, alloc, LAST_TICKET)?;
    let Ok(held) = lock.take(rt, pass) else {
        unreachable!()
    };
    let pass = match lock.take(rt, held.give()) {
        Ok(held) => {
            drop(held.give());
            unreachable!()
        }
        Err((pass, Spent)) => pass,
    };
    let Ok(items) = lock.close(pass) else {
        unreachable!()
    };
    Ok(items)
}

/// Whether the pass finds no ticket left. Where it finds one, it gives the list back as it is.
fn is_spent<R: Wait>(rt: &R, lock: &TicketLock<Items>, pass: Pass<Items>) -> bool
    requires { IsPass (lock_id lock.now) pass }
{
    match lock.take(rt, pass) {
        Ok(held) => {
            drop(held.give());
            false
        }
        Err((pass, Spent)) => {
            drop(pass);
            true
        }
    }
}

/// Takes the list under the last ticket with the lowest number alone, and, while that holds it, with the other numbers:
/// whether these find no ticket left.
pub fn is_spent_while_held<R: Wait>(rt: &R, alloc: Global) -> Result<bool, AllocError> {
    let (lock, pass) = TicketLock::with_first(Items::new(alloc), alloc, LAST_TICKET)?;
    let Ok((one, others)) = pass.split(&lock) else {
        unreachable!()
    };
    match lock.take(rt, one) {
        Ok(held) => {
            let is_so = is_spent(rt, &lock, others);
            drop(held.give());
            Ok(is_so)
        }
        Err((one, Spent)) => {
            drop(one);
            Ok(false)
        }
    }
}
