//! A datagram that went through the port of a device, for a person who watches.

use fleet_wire::Direction;
use live_link::Packet;
use std::snapshot::Snapshot;

/// A datagram that a device received, or one that it sent.
#[derive(Drop)]
pub struct Shown {
    /// The second at which it was received. For one that was sent: the last one at which the ports were asked.
    pub second: u64,
    /// The place of the device in its fleet.
    pub device: usize,
    pub direction: Direction,
    pub packet: Packet,
}

/// What was taken, one time after another. It takes no memory: contracts alone see it.
#[derive(Drop)]
pub(crate) enum TakenShown {
    Nothing,
    /// After these, these were.
    Then(Snapshot<TakenShown>, Snapshot<Vec<Shown>>),
}
