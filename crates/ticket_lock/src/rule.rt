//! The table of a ticket lock: its words, its slot, what a seat knows, and what each step tells.
//! Word 0 is `next`, the next ticket to be drawn. Word 1 is `serving`: twice the number of tickets that are served, and
//! one more while the value is out. The slot holds the value.
use crate::logged::{Logged, Share};
use atomic_table::{Join, Play, Seat, Split, Table, TableRule};
use std::alloc::Global;
use std::collections::LinkedList;
use std::snapshot::Snapshot;

/// How many worker numbers a lock has. The first pass holds the numbers from 1 up to it. `laws::limits` says it.
pub const NUMBERS: u16 = 64;

/// The end of the tickets, 2^63 - 1: the last one that is drawn is one less. `laws::limits` says it.
pub const LAST: u64 = 9223372036854775807;

pub const NEXT: usize = 0;

pub const SERVING: usize = 1;

/// Where a seat stands. A spent seat is not a pass any more. One that is inside keeps its ticket and the value as
/// found.
pub enum Stage<T> {
    Spent,
    Resting,
    Waiting(u64),
    Inside(u64, T),
}

/// What a seat knows. No value of it is made.
pub struct View<T, E, S, O> {
    /// The lowest of its worker numbers.
    pub low: u64,
    /// How many it has.
    pub count: u64,
    /// Whether it has seen the end of the tickets.
    pub end: bool,
    /// The ticket whose turn it is. A pass knows it while it has all numbers from the make on.
    pub turn: Option<u64>,
    pub stage: Stage<T>,
    /// The log as far as it has seen it.
    pub front: LinkedList<E>,
    /// The shorter of the two fronts at its last join. It is a prefix of the front.
    pub earlier: LinkedList<E>,
    pub subject: Option<S>,
    /// A share for each of its numbers, from the lowest on.
    pub shares: LinkedList<Share<E, O>>,
}

pub type ViewOf<T> = View<T, <T as Logged>::Entry, <T as Logged>::Subject, <T as Logged>::Work>;

/// What the table is told when it is made: the opening value, and the first ticket.
pub type Opening<T> = (Snapshot<T>, u64);

pub struct Order;

impl<T: Logged> TableRule<Option<T>, ViewOf<T>, Opening<T>> for Order {
    ghost use Rattle.ticket_lock.specs.Lock.{Fits};
    ghost use Rattle.ticket_lock.specs.Changes.{opening_view};

    ghost holds = { λ key. Fits T.log (key.0.value, key.1) };

    ghost first = { λ key. opening_view T.log key.0.value key.1 };
}

/// A load, which sees whether the tickets are at their end.
pub struct Look;

impl<T: Logged> Play<Option<T>, ViewOf<T>> for Look {
    ghost use Rattle.ticket_lock.specs.Changes.{Looked};

    ghost then = { Looked T.log };
}

/// A ticket is drawn.
pub struct Draw;

impl<T: Logged> Play<Option<T>, ViewOf<T>> for Draw {
    ghost use Rattle.ticket_lock.specs.Changes.{Drew};

    ghost then = { Drew };
}

/// The holder of the ticket that is due takes the value.
pub struct Enter;

impl<T: Logged> Play<Option<T>, ViewOf<T>> for Enter {
    ghost use Rattle.ticket_lock.specs.Changes.{Entered};

    ghost then = { Entered T.log };
}

/// The value is given back.
pub struct Leave;

impl<T: Logged> Play<Option<T>, ViewOf<T>> for Leave {
    ghost use Rattle.ticket_lock.specs.Changes.{Left};

    ghost then = { Left T.log };
}

/// The lowest number stays, and a new pass has the others.
pub struct Cut;

impl<T: Logged> Split<ViewOf<T>> for Cut {
    ghost use Rattle.ticket_lock.specs.Changes.{lower_part, upper_part};

    ghost left = { lower_part };

    ghost right = { upper_part };
}

/// Two neighbours become one pass.
pub struct Glue;

impl<T: Logged> Join<ViewOf<T>> for Glue {
    ghost use Rattle.ticket_lock.specs.Changes.{joined_view, empty_view};

    ghost both = { joined_view };

    ghost spent = { empty_view };
}

pub type SeatOf<T> = Seat<Option<T>, ViewOf<T>>;

pub type TableOf<T> = Table<Option<T>, ViewOf<T>, Opening<T>, Order, Global>;
