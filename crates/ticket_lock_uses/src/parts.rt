//! The parts of a pass.
ghost use Rattle.std.specs.Prelude.{◌≡◌};
ghost use Rattle.ticket_lock.specs.Names.{lock_id, pass_view, IsPass};

use crate::items::Items;
use ticket_lock::{OneLeft, Pass, TicketLock};

/// Splits the pass until each part has one number, and joins the parts again. The answer says how many there were.
pub fn parted(lock: &TicketLock<Items>, pass: Pass<Items>) -> (Pass<Items>, u16)
    requires { IsPass (lock_id lock.now) pass }
    ensures pass { IsPass (lock_id lock.now) result.0 × ((pass_view result.0).low ≡ (pass_view pass).low)
        × ((pass_view result.0).count ≡ (pass_view pass).count) }
    ensures parts { result.1 ≡ (pass_view pass).count }
{
    match pass.split(lock) {
        Err((pass, OneLeft)) => (pass, 1),
        Ok((one, others)) => {
            let (others, count) = parted(lock, others);
            (one.join(lock, others), count + 1)
        }
    }
}
