//! Workers that claim places of a board under a lock.
ghost use Rattle.std.specs.Prelude.{◌≡◌, [], not, ◌==◌, filter, IfSome, IfNone, Contains};
ghost use Rattle.ticket_lock.specs.Names.{lock_id, pass_view, IsPass, lowest_work};

use crate::board::Board;
use std::sync::Wait;
use ticket_lock::{Pass, TicketLock};

/// Claims a place under the lowest number of the pass. It then stands in that number's open work, as the pass knows it.
/// Nothing else is claimed.
pub fn claim<R: Wait>(
    rt: &R,
    lock: &TicketLock<Board>,
    pass: Pass<Board>,
) -> (Pass<Board>, Option<usize>)
    requires { IsPass (lock_id lock.now) pass }
    ensures pass { IsPass (lock_id lock.now) result.0 × ((pass_view result.0).low ≡ (pass_view pass).low)
        × ((pass_view result.0).count ≡ (pass_view pass).count) }
    ensures claimed { IfSome result.1 (λ i. Contains (lowest_work (pass_view result.0) []) i) }
    ensures others { IfSome result.1 (λ i. filter (λ j. not (j == i)) (lowest_work (pass_view result.0) [])
        ≡ lowest_work (pass_view pass) []) }
    ensures none { IfNone result.1 (lowest_work (pass_view result.0) [] ≡ lowest_work (pass_view pass) []) }
{
    let worker = pass.number();
    match lock.take(rt, pass) {
        Ok(mut held) => {
            let place = held.value_mut().claim(worker);
            (held.give(), place)
        }
        Err((pass, _)) => (pass, None),
    }
}
