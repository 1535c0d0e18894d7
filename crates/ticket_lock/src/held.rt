//! The value while a pass is inside.
ghost use Rattle.std.specs.Prelude.{◌≡◌, ◌+◌, ◌<◌, ◌≤◌, true};
ghost use Rattle.ticket_lock.specs.declared.rule.TheConstants.{NUMBERS, LAST};
ghost use Rattle.ticket_lock.specs.Lock.{is_inside, ticket_of, holds_slot};

use crate::lock::TicketLock;
use crate::logged::Logged;
use crate::pass::Pass;
use crate::rule::{Leave, SERVING, SeatOf};

/// The value, which no other pass reaches until it is given back. It has to be given back: it can't be dropped.
pub struct Held<'a, T: Logged> {
    pub(crate) lock: &'a TicketLock<T>,
    pub(crate) low: u16,
    pub(crate) count: u16,
    pub(crate) ticket: u64,
    pub(crate) seat: SeatOf<T>,
    pub(crate) value: T,
    ghost here: { seat.table_id ≡ lock.now.table.shared.table_id },
    ghost numbers: { (seat.me.0.low ≡ low) × (seat.me.0.count ≡ count) },
    ghost within: { (0 < count) × (1 ≤ low) × (low + count ≤ NUMBERS + 1) },
    ghost inside: { (is_inside seat.me.0.stage ≡ true) × (ticket_of seat.me.0.stage ≡ ticket) },
    ghost early: { ticket < LAST },
    ghost holds: { holds_slot seat.me.1 ≡ true },
}

impl<T: Logged + Drop> Held<'_, T> {
    ghost use Rattle.std.specs.Prelude.{◌≡◌, ℕ};
    ghost use types.Logic.{sem};
    ghost use Rattle.ticket_lock.specs.Log.{entries_of_worker, Adds};
    ghost use Rattle.ticket_lock.specs.Changes.{view_after_give};
    ghost use Rattle.ticket_lock.specs.Names.{held_id, held_view, held_value, held_as_found, pass_view, IsPass};
    ghost use Rattle.ticket_lock.specs.Names.{lowest_work};
    ghost use Rattle.ticket_lock.specs.Lending.{LendsValue};

    /// The value as it is: as found, or as written since.
    pub fn value(&self) -> &T
        ensures { result.now ≡ held_value self.now }
    {
        &self.value
    }

    /// What is written through it has to meet the condition of `give` in the end.
    pub fn value_mut(&mut self) -> &mut T
        ensures* writes_back { sem 𝓛
            (LendsValue T.row T.Entry.row T.Subject.row T.Work.row T.Logged self.entry result) }
        ensures value { result.now ≡ held_value self.old }
    {
        &mut self.value
    }

    /// Gives the value back, with more entries of the pass's lowest number and that number's open work changed, and
    /// nothing else. The pass comes back with the same numbers, and the value's log as its front.
    pub fn give(self) -> Pass<T>
        requires { Adds T.log (held_view self).low (held_as_found self) (held_value self) }
        ensures own { IsPass (held_id self.entry) result }
        ensures given { pass_view result ≡ view_after_give T.log (held_view self.entry) (held_value self.entry) }
        ensures others { (w : ℕ) → (w ≡ (held_view self.entry).low → ⊥)
            → entries_of_worker T.log w (pass_view result).front
            ≡ entries_of_worker T.log w (T.log.entries (held_as_found self.entry)) }
        ensures work { (d : T.Work)
            → lowest_work (pass_view result) d ≡ T.log.work (held_value self.entry) (held_view self.entry).low }
    {
        let Held {
            lock,
            low,
            count,
            ticket,
            mut seat,
            value,
        } = self;
        let None = lock.exchange(&mut seat, Some(value)) else {
            unreachable!()
        };
        lock.table
            .shared
            .store::<Leave>(&mut seat, SERVING, 2 * ticket + 2);
        Pass { low, count, seat }
    }
}
