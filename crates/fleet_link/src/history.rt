//! The calls of ports, one after another. They take no memory: contracts alone see them.
ghost use Rattle.std.specs.Prelude.{◌≡◌, ◌∷◌, ◌++◌, [], ℕ};
ghost use Rattle.fleet_link.specs.Traffic.{at_port, sent_all, traffic_and, traffic_of_receipt};
ghost use Rattle.fleet_link.specs.Counting.{bytes_seen, counts_after, counts_by, counts_sent, seconds_by, traffic_by};

use crate::ports::{PortsFault, Receipt};
use std::snapshot::Snapshot;

/// Bytes, one after another.
#[derive(Drop)]
pub(crate) enum SeenBytes {
    Empty,
    /// These bytes, and then this one.
    Longer(Snapshot<SeenBytes>, Snapshot<u8>),
}

/// The calls of ports.
#[derive(Drop)]
pub(crate) enum History {
    Begun,
    /// After these calls `receive` was asked at this second, and gave this.
    Received(Snapshot<History>, Snapshot<u64>, Snapshot<Result<Receipt, PortsFault>>),
    /// After these calls `send` was given these bytes of a device for a server, and the system took them, or did not.
    Sent(Snapshot<History>, Snapshot<usize>, Snapshot<u16>, Snapshot<SeenBytes>, Snapshot<bool>),
}

/// Bytes, as contracts see them.
fn seen_bytes(bytes: &[u8]) -> SeenBytes
    ensures { bytes_seen result ≡ bytes.now }
{
    let mut seen = SeenBytes::Empty;
    for byte in bytes {
        seen = SeenBytes::Longer(Snapshot::of(&seen), Snapshot::of(byte));
    }
    seen
}

impl History {
    /// With a call of `receive` more.
    pub(crate) fn with_receipt(&self, second: u64, given: &Result<Receipt, PortsFault>) -> History
        ensures told { (e : ℕ) → traffic_by result e
            ≡ traffic_and (traffic_by self.now e) (traffic_of_receipt second given.now e) }
        ensures asked { seconds_by result ≡ seconds_by self.now ++ second ∷ [] }
        ensures counted { counts_by result ≡ counts_after (counts_by self.now) given.now }
    {
        History::Received(
            Snapshot::of(self),
            Snapshot::of(&second),
            Snapshot::of(given),
        )
    }

    /// With a call of `send` more.
    pub(crate) fn with_sending(
        &self,
        device: usize,
        server: u16,
        bytes: &[u8],
        taken: bool,
    ) -> History
        ensures told { (e : ℕ) → traffic_by result e ≡ traffic_and (traffic_by self.now e)
            (at_port device e (sent_all (record { server = server; bytes = bytes.now } ∷ []))) }
        ensures asked { seconds_by result ≡ seconds_by self.now }
        ensures counted { counts_by result ≡ counts_sent (counts_by self.now) taken }
    {
        let bytes = seen_bytes(bytes);
        History::Sent(
            Snapshot::of(self),
            Snapshot::of(&device),
            Snapshot::of(&server),
            Snapshot::of(&bytes),
            Snapshot::of(&taken),
        )
    }
}
