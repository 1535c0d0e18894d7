//! What happened to a datagram, for a person who asks.

use crate::plan::{Direction, Fate};
use std::snapshot::Snapshot;

/// What happened to a datagram that did not just go on.
#[derive(Clone, Copy)]
pub struct Note {
    /// The place of the device in its fleet.
    pub device: usize,
    pub direction: Direction,
    /// Its number among those of its device that go this way, the first being 1; 0 where the wire does not know the
    /// device.
    pub number: u64,
    /// The second at which it came.
    pub second: u64,
    pub fate: Fate,
}

/// The notes that were taken, one time after another. It takes no memory: contracts alone see it.
#[derive(Drop)]
pub(crate) enum Taken {
    Nothing,
    /// After these, these were.
    Then(Snapshot<Taken>, Snapshot<Vec<Note>>),
}
