//! The lock.
ghost use Rattle.std.specs.Prelude.{◌≡◌};

use crate::held::Held;
use crate::logged::Logged;
use crate::pass::Pass;
use crate::rule::{Draw, Enter, LAST, Look, NEXT, NUMBERS, SERVING, SeatOf, TableOf};
use atomic_table::Table;
use crossbeam_utils::Backoff;
use std::alloc::{AllocError, Global};
use std::hint;
use std::snapshot::Snapshot;
use std::sync::Wait;
use std::sync::atomic::AtomicU64;
use std::time::Duration;

/// How often a pass that waits outside looks at the words before it sleeps.
const LOOKS: u32 = 2000;

/// For how many microseconds it then sleeps before it looks again.
const NAP: u64 = 50;

/// A value, and the order in which passes take it.
#[derive(Drop)]
pub struct TicketLock<T: Logged> {
    pub(crate) table: TableOf<T>,
    ghost sized: { (table.shared.table_id.words ≡ 2) × (table.shared.table_id.slots ≡ 1) },
}

/// No ticket is left: those up to 2^63 - 2 are drawn.
#[derive(Clone, Copy, PartialEq, Eq)]
pub struct Spent;

/// The pass lacks a number of the lock.
#[derive(Clone, Copy, PartialEq, Eq)]
pub struct PassesOut;

impl<T: Logged + Drop> TicketLock<T> {
    ghost use Rattle.std.specs.Prelude.{◌≡◌, ◌≢◌, ℕ, ◌+◌, ◌*◌, ◌<◌, ◌≤◌, true, [], ◌∷◌, IfOk, IfErr, IsOk, IsErr};
    ghost use Rattle.std.specs.Prelude.{IfSome, IfNone, IsSome, IsNone, Some, None};
    ghost use Rattle.atomic_table.specs.Table.{rest};
    ghost use Rattle.ticket_lock.specs.declared.rule.TheConstants.{NUMBERS, LAST};
    ghost use Rattle.ticket_lock.specs.declared.rule.Stage.TheVariants.{Waiting};
    ghost use Rattle.ticket_lock.specs.Log.{entries_of_worker, shares};
    ghost use Rattle.ticket_lock.specs.Lock.{IsAware, HasNumber, is_resting};
    ghost use Rattle.ticket_lock.specs.Changes.{opening_view, with_end_seen, with_stage, view_inside};
    ghost use Rattle.ticket_lock.specs.Names.{lock_id, opening_value, opening_ticket, pass_view, IsPass, held_id};
    ghost use Rattle.ticket_lock.specs.Names.{held_view, held_value, lowest_work};

    /// A lock on the value, and the first pass, which holds the worker numbers from 1 to `NUMBERS`. The first ticket is
    /// 0. Of all calls `new` and `with_first` alone take memory.
    pub fn new(value: T, alloc: Global) -> Result<(TicketLock<T>, Pass<T>), AllocError>
        ensures pass { IfOk result (λ r. IsPass (lock_id r.0) r.1 × (pass_view r.1 ≡ opening_view T.log value 0)) }
        ensures lock { IfOk result (λ r. (opening_value r.0 ≡ value) × (opening_ticket r.0 ≡ 0)) }
    {
        TicketLock::with_first(value, alloc, 0)
    }

    /// The same, and the first ticket is `ticket`, at most 2^63 - 1. If it is 2^63 - 1, no ticket is left from the
    /// start.
    pub fn with_first(
        value: T,
        alloc: Global,
        ticket: u64,
    ) -> Result<(TicketLock<T>, Pass<T>), AllocError>
        requires { ticket ≤ LAST }
        ensures pass { IfOk result (λ r. IsPass (lock_id r.0) r.1 × (pass_view r.1 ≡ opening_view T.log value ticket)) }
        ensures lock { IfOk result (λ r. (opening_value r.0 ≡ value) × (opening_ticket r.0 ≡ ticket)) }
    {
        let about = (Snapshot::of(&value), ticket);
        let mut slots = Vec::new(alloc);
        slots.push(Some(value))?;
        let Ok((table, seat)) = Table::new(alloc, &[ticket, 2 * ticket], slots, &about) else {
            return Err(AllocError);
        };
        let pass = Pass {
            low: 1,
            count: NUMBERS,
            seat,
        };
        Ok((TicketLock { table }, pass))
    }

    // Waits while a ticket is out and another is left. Whoever has a ticket keeps all later ones waiting, even while
    // its thread has no processor; whoever has none keeps nobody waiting. Nothing is known of what it sees.
    fn stay_outside<R: Wait>(&self, rt: &R) {
        let shared = &self.table.shared;
        let asleep = AtomicU64::new(0);
        let mut looks = 0;
        for _ in rt.forever() {
            let served = shared.peek(SERVING);
            let next = shared.peek(NEXT);
            if next == LAST || served == next.saturating_mul(2) {
                return;
            }
            if looks < LOOKS {
                looks += 1;
                hint::spin_loop();
            } else {
                asleep.park_timeout(rt, 0, Duration::from_micros(NAP));
            }
        }
        unreachable!()
    }

    // Draws a ticket, or finds that none is left, for which it does not wait. It draws one that is due, but no clause
    // promises that it is due when this returns.
    fn draw<R: Wait>(&self, rt: &R, seat: &mut SeatOf<T>) -> Option<u64>
        requires { (seat.old.table_id ≡ lock_id self.now) × (is_resting seat.old.me.0.stage ≡ true) }
        ensures seat { (seat.new.table_id ≡ seat.old.table_id) × (seat.new.id ≡ seat.old.id) }
        ensures drawn { IfSome result (λ t. (t < LAST)
            × (seat.new.me ≡ (with_stage seat.old.me.0 (Waiting t), seat.old.me.1))) }
        ensures spent { IfNone result (seat.new.me ≡ (with_end_seen seat.old.me.0, seat.old.me.1)) }
        ensures end { seat.old.me.0.end ≡ true → IsNone result }
        ensures some { (t : ℕ) → seat.old.me.0.turn ≡ Some t → t < LAST → IsSome result }
        ensures none { seat.old.me.0.turn ≡ Some LAST → IsNone result }
    {
        let shared = &self.table.shared;
        for _ in rt.forever() {
            let ticket = shared.load::<Look>(seat, NEXT);
            if ticket == LAST {
                return None;
            }
            if shared.peek(SERVING) / 2 == ticket
                && shared.compare_exchange::<Draw>(seat, NEXT, ticket, ticket + 1) == ticket
            {
                return Some(ticket);
            }
            self.stay_outside(rt);
        }
        unreachable!()
    }

    // Waits until the ticket is due, and then takes the slot.
    fn enter<R: Wait>(&self, rt: &R, seat: &mut SeatOf<T>, ticket: u64)
        requires { (seat.old.table_id ≡ lock_id self.now) × (seat.old.me.0.stage ≡ Waiting ticket) × (ticket < LAST) }
        ensures seat { (seat.new.table_id ≡ seat.old.table_id) × (seat.new.id ≡ seat.old.id) }
        ensures inside { (value : T) × IsAware T.log value seat.old.me.0
            × (seat.new.me ≡ (view_inside T.log seat.old.me.0 ticket value, (0, Some value) ∷ seat.old.me.1)) }
    {
        let shared = &self.table.shared;
        let due = 2 * ticket;
        let backoff = Backoff::new();
        for _ in rt.forever() {
            if shared.peek(SERVING) == due
                && shared.compare_exchange::<Enter>(seat, SERVING, due, due + 1) == due
            {
                return;
            }
            backoff.snooze();
        }
        unreachable!()
    }

    // Reads and writes the slot that the seat holds. Nothing else does.
    pub(crate) fn exchange(&self, seat: &mut SeatOf<T>, new: Option<T>) -> Option<T>
        requires { (seat.old.table_id ≡ lock_id self.now)
            × ((old : _) × (seat.old.me.1 ≡ (0, old) ∷ rest seat.old.me.1)) }
        ensures seat { (seat.new.table_id ≡ seat.old.table_id) × (seat.new.id ≡ seat.old.id) }
        ensures found { seat.old.me.1 ≡ (0, result) ∷ rest seat.old.me.1 }
        ensures left { seat.new.me ≡ (seat.old.me.0, (0, new) ∷ rest seat.old.me.1) }
    {
        self.table.shared.exchange(seat, 0, new)
    }

    /// Draws a ticket, waits until it is due, and takes the value: one that begins with the pass's front, has its
    /// subject, and under each of its numbers its own entries and open work and no others. The pass comes back with
    /// `Spent` only if it has seen that no ticket is left. A pass that has all numbers from the make on knows the next
    /// ticket: it gets the value if that is below the end (`left`), and `Spent` if it is the end (`none_left`).
    pub fn take<R: Wait>(&self, rt: &R, pass: Pass<T>) -> Result<Held<'_, T>, (Pass<T>, Spent)>
        requires { IsPass (lock_id self.now) pass }
        ensures lock { IfOk result (λ h. held_id h ≡ lock_id self.now) }
        ensures value { IfOk result (λ h. IsAware T.log (held_value h) (pass_view pass)) }
        ensures view { IfOk result (λ h. (t : ℕ)
            × (held_view h ≡ view_inside T.log (pass_view pass) t (held_value h))) }
        ensures own { IfOk result (λ h. (w : ℕ) → HasNumber (pass_view pass) w
            → entries_of_worker T.log w (T.log.entries (held_value h))
            ≡ entries_of_worker T.log w (pass_view pass).front) }
        ensures work { IfOk result (λ h. (d : T.Work)
            → lowest_work (pass_view pass) d ≡ T.log.work (held_value h) (pass_view pass).low) }
        ensures spent { IfErr result (λ e. IsPass (lock_id self.now) e.0
            × (pass_view e.0 ≡ with_end_seen (pass_view pass))) }
        ensures end { (pass_view pass).end ≡ true → IsErr result }
        ensures left { (t : ℕ) → (pass_view pass).turn ≡ Some t → t < LAST → IsOk result }
        ensures none_left { (pass_view pass).turn ≡ Some LAST → IsErr result }
    {
        let Pass {
            low,
            count,
            mut seat,
        } = pass;
        let Some(ticket) = self.draw(rt, &mut seat) else {
            return Err((Pass { low, count, seat }, Spent));
        };
        self.enter(rt, &mut seat, ticket);
        let Some(value) = self.exchange(&mut seat, None) else {
            unreachable!()
        };
        Ok(Held {
            lock: self,
            low,
            count,
            ticket,
            seat,
            value,
        })
    }

    /// The value, exactly if the pass has all numbers: its log is the pass's front, its subject the opening value's.
    /// Otherwise both come back unchanged.
    pub fn close(self, pass: Pass<T>) -> Result<T, (TicketLock<T>, Pass<T>, PassesOut)>
        requires { IsPass (lock_id self) pass }
        ensures entries { IfOk result (λ x. T.log.entries x ≡ (pass_view pass).front) }
        ensures subject { IfOk result (λ x. T.log.subject x ≡ T.log.subject (opening_value self)) }
        ensures work { IfOk result (λ x. (pass_view pass).shares ≡ shares T.log x 1 NUMBERS) }
        ensures all { IfOk result (λ _. (pass_view pass).count ≡ NUMBERS) }
        ensures out { IfErr result (λ e. (e.0 ≡ self) × (e.1 ≡ pass) × ((pass_view pass).count < NUMBERS)) }
    {
        if pass.count < NUMBERS {
            return Err((self, pass, PassesOut));
        }
        let TicketLock { table } = self;
        let Pass {
            low: _,
            count: _,
            seat,
        } = pass;
        let mut closed = table.close_with(seat);
        let Some(value) = closed.take(0) else {
            unreachable!()
        };
        closed.free();
        Ok(value)
    }
}
