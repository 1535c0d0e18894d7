//! What ports count of their calls.
ghost use Rattle.std.specs.Prelude.{◌≡◌, ◌∷◌, ◌++◌, [], ℕ, Some};
ghost use Rattle.fleet_link.specs.Traffic.{at_port, no_traffic, sent_all, traffic_and, traffic_of_receipt};
ghost use Rattle.fleet_link.specs.Counting.{counts_after, counts_by, counts_sent, none_counted, seconds_by, traffic_by};
ghost use Rattle.fleet_link.specs.Counting.{AreCountsOf, IsSentOrLost};

use crate::history::History;
use crate::ports::{PortsFault, Receipt};
use crate::udp::Counts;

/// The calls of ports, and what is counted of them.
#[derive(Drop)]
pub(crate) struct Tally {
    calls: History,
    counts: Counts,
    ghost counted: { counts ≡ counts_by calls },
}

impl Tally {
    /// Before the first call.
    pub(crate) fn new() -> Tally
        ensures told { (e : ℕ) → traffic_by result.calls e ≡ no_traffic }
        ensures asked { seconds_by result.calls ≡ [] }
        ensures counts { result.counts ≡ none_counted }
    {
        Tally {
            calls: History::Begun,
            counts: Counts {
                received: 0,
                sent: 0,
                dropped: 0,
                lost: 0,
            },
        }
    }

    /// The counts.
    pub(crate) fn counts(&self) -> Counts
        ensures same { result ≡ self.now.counts }
        ensures counted { AreCountsOf (λ e. Some (traffic_by self.now.calls e)) result }
    {
        self.counts
    }

    /// Counts what came of asking the ports at this second.
    pub(crate) fn note_receipt(&mut self, second: u64, given: &Result<Receipt, PortsFault>)
        ensures told { (e : ℕ) → traffic_by self.new.calls e
            ≡ traffic_and (traffic_by self.old.calls e) (traffic_of_receipt second given.now e) }
        ensures asked { seconds_by self.new.calls ≡ seconds_by self.old.calls ++ second ∷ [] }
        ensures counts { self.new.counts ≡ counts_after self.old.counts given.now }
    {
        self.calls = self.calls.with_receipt(second, given);
        match given {
            Ok(Receipt::Arrived(_)) => {
                self.counts.received = self.counts.received.saturating_add(1);
            }
            Ok(Receipt::Dropped) => {
                self.counts.dropped = self.counts.dropped.saturating_add(1);
            }
            Ok(Receipt::Nothing | Receipt::Failed(_)) | Err(_) => {}
        }
    }

    /// Counts a datagram of a device for a server, which the system took, or did not.
    pub(crate) fn note_sending(&mut self, device: usize, server: u16, bytes: &[u8], taken: bool)
        ensures told { (e : ℕ) → traffic_by self.new.calls e ≡ traffic_and (traffic_by self.old.calls e)
            (at_port device e (sent_all (record { server = server; bytes = bytes.now } ∷ []))) }
        ensures asked { seconds_by self.new.calls ≡ seconds_by self.old.calls }
        ensures counts { self.new.counts ≡ counts_sent self.old.counts taken }
        ensures one { IsSentOrLost self.old.counts self.new.counts }
    {
        self.calls = self.calls.with_sending(device, server, bytes, taken);
        if taken {
            self.counts.sent = self.counts.sent.saturating_add(1);
        } else {
            self.counts.lost = self.counts.lost.saturating_add(1);
        }
    }
}
