//! A pass: some worker numbers, and the right to take the lock under the lowest of them.
ghost use Rattle.std.specs.Prelude.{◌≡◌, ◌+◌, ◌<◌, ◌≤◌, true, length};
ghost use Rattle.ticket_lock.specs.declared.rule.TheConstants.{NUMBERS};
ghost use Rattle.ticket_lock.specs.Lock.{is_resting};

use crate::lock::TicketLock;
use crate::logged::Logged;
use crate::rule::{Cut, Glue, Look, NEXT, SeatOf};

/// Some neighbouring worker numbers of one lock, and what they have seen of its value. It acts under the lowest.
/// One that is dropped takes its numbers with it, and the lock can then not be closed.
#[derive(Drop)]
pub struct Pass<T: Logged> {
    pub(crate) low: u16,
    pub(crate) count: u16,
    pub(crate) seat: SeatOf<T>,
    ghost numbers: { (seat.me.0.low ≡ low) × (seat.me.0.count ≡ count) },
    ghost within: { (0 < count) × (1 ≤ low) × (low + count ≤ NUMBERS + 1) },
    ghost at_rest: { is_resting seat.me.0.stage ≡ true },
    ghost bare: { length seat.me.1 ≡ 0 },
}

/// The pass has one number alone, and can't be split.
#[derive(Clone, Copy, PartialEq, Eq)]
pub struct OneLeft;

impl<T: Logged + Drop> Pass<T> {
    ghost use Rattle.std.specs.Prelude.{◌≡◌, ℕ, ◌+◌, ◌<◌, true, IfOk, IfErr};
    ghost use Rattle.ticket_lock.specs.Log.{Begins, entries_of_worker};
    ghost use Rattle.ticket_lock.specs.Lock.{HasNumber, AreNeighbours};
    ghost use Rattle.ticket_lock.specs.Changes.{lower_part, upper_part, joined_view};
    ghost use Rattle.ticket_lock.specs.Names.{lock_id, pass_view, IsPass};

    /// The lowest of its numbers, under which it acts.
    pub fn number(&self) -> u16
        ensures { result ≡ (pass_view self.now).low }
    {
        self.low
    }

    /// The lowest number alone, and the others; both have seen the same. `OneLeft`, with the pass unchanged, exactly if
    /// there is one number.
    pub fn split(self, lock: &TicketLock<T>) -> Result<(Pass<T>, Pass<T>), (Pass<T>, OneLeft)>
        requires { IsPass (lock_id lock.now) self }
        ensures lower { IfOk result (λ r. IsPass (lock_id lock.now) r.0
            × (pass_view r.0 ≡ lower_part (pass_view self))) }
        ensures upper { IfOk result (λ r. IsPass (lock_id lock.now) r.1
            × (pass_view r.1 ≡ upper_part (pass_view self))) }
        ensures more { IfOk result (λ _. 1 < (pass_view self).count) }
        ensures one { IfErr result (λ e. (e.0 ≡ self) × ((pass_view self).count ≡ 1)) }
    {
        if self.count == 1 {
            return Err((self, OneLeft));
        }
        let Pass {
            low,
            count,
            mut seat,
        } = self;
        let above = lock.table.shared.split_seat::<Cut>(&mut seat);
        let first = Pass {
            low,
            count: 1,
            seat,
        };
        let others = Pass {
            low: low + 1,
            count: count - 1,
            seat: above,
        };
        Ok((first, others))
    }

    /// The numbers of both, which are neighbours in either order, with the longer front, of which both fronts are
    /// prefixes; under each number it has the entries of the front that it came with. Then it looks whether a ticket is
    /// left.
    pub fn join(self, lock: &TicketLock<T>, other: Pass<T>) -> Pass<T>
        requires this { IsPass (lock_id lock.now) self }
        requires other { IsPass (lock_id lock.now) other }
        requires neighbours { AreNeighbours (pass_view self) (pass_view other) }
        ensures own { IsPass (lock_id lock.now) result }
        ensures joined { pass_view result
            ≡ record (joined_view (pass_view self) (pass_view other)) { end = (pass_view result).end } }
        ensures end { (joined_view (pass_view self) (pass_view other)).end ≡ true → (pass_view result).end ≡ true }
        ensures fronts { Begins (pass_view self).front (pass_view result).front
            × Begins (pass_view other).front (pass_view result).front }
        ensures lower { (w : ℕ) → HasNumber (pass_view self) w
            → entries_of_worker T.log w (pass_view result).front ≡ entries_of_worker T.log w (pass_view self).front }
        ensures upper { (w : ℕ) → HasNumber (pass_view other) w
            → entries_of_worker T.log w (pass_view result).front ≡ entries_of_worker T.log w (pass_view other).front }
    {
        let Pass {
            low,
            count,
            mut seat,
        } = self;
        let Pass {
            low: others_low,
            count: more,
            seat: spent,
        } = other;
        let shared = &lock.table.shared;
        shared.join_seat::<Glue>(&mut seat, spent);
        shared.load::<Look>(&mut seat, NEXT);
        Pass {
            low: low.min(others_low),
            count: count + more,
            seat,
        }
    }
}
