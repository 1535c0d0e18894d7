//! What the lock's rule reads of the value that the lock keeps.
ghost use Rattle.ticket_lock.specs.Log.{Reading};

use std::collections::LinkedList;

/// A value with a log: entries, each of one worker. It has a subject, and open work of each worker.
pub trait Logged {
    type Entry;

    type Subject;

    type Work;

    // How the value is read: its entries, the worker of each, its subject, and the open work of each worker.
    ghost log: { Reading Self Self.Entry Self.Subject Self.Work };
}

/// One worker's part of a value: its own entries, and its open work. No value of it is made.
pub struct Share<E, O> {
    pub own: LinkedList<E>,
    pub work: O,
}
