//! Which workers have stopped a trace.

use std::snapshot::Snapshot;

/// Which workers have stopped a trace. Contracts see the number of each; when the program runs there is the last one's.
#[derive(Drop)]
pub(crate) enum Stops {
    /// None has.
    Never,
    /// The worker of this number, after these.
    By(Snapshot<Stops>, u16),
}
