//! What was asked of a wire or a clock in memory, one call after another. It takes no memory, so that no count comes to
//! an end: contracts alone see the calls before.
use crate::packet::Packet;
use crate::wire::WireFault;
use std::snapshot::Snapshot;

/// The calls of a wire, but for those of `send` that took a datagram in.
#[derive(Drop)]
pub(crate) enum Calls {
    Begun,
    /// After these calls `receive` gave this.
    Received(Snapshot<Calls>, Snapshot<Result<Option<Packet>, WireFault>>),
    /// After these calls `send` failed so.
    Unsent(Snapshot<Calls>, Snapshot<WireFault>),
}

/// The readings of a clock.
#[derive(Drop)]
pub(crate) enum Readings {
    Unread,
    /// After these readings this one was made.
    Read(Snapshot<Readings>, Snapshot<u64>),
}
