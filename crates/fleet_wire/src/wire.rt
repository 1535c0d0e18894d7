//! A wire between the devices of a fleet and their ports.
ghost use Rattle.std.specs.Prelude.{◌≡◌, ◌++◌, ◌∷◌, [], ℕ, Option, OnOk, IfErr, IfNone, false};
ghost use Rattle.fleet_link.specs.Traffic.{Carries, Traffic, at_port, handed_at, sent_all, traffic_of_receipt};
ghost use Rattle.fleet_wire.specs.Lane.{came_by, went_by, IsIdle};
ghost use Rattle.fleet_wire.specs.Noting.{noted_with};
ghost use Rattle.fleet_wire.specs.Wire.{told_by, IsWhole, IsWired, hands, IsQuietUnless};

use crate::lane::{Drawn, Lane};
use crate::note::{Note, Taken};
use crate::plan::{Direction, Fate, Plan};
use fleet_link::{Arrival, PortsFault, Receipt};
use live_link::Packet;
use octets::Bytes;
use std::alloc::{AllocError, Global};
use std::snapshot::Snapshot;

/// The calls of `receive`, one after another. It takes no memory: contracts alone see it.
#[derive(Drop)]
pub(crate) enum Calls {
    Begun,
    /// After this the wire was asked at this second.
    Asked(Snapshot<Calls>, Snapshot<u64>),
    /// After this the port of this device failed.
    Failed(Snapshot<Calls>, Snapshot<usize>),
}

/// A wire, without the ports that it is put on.
#[derive(Drop)]
pub(crate) struct Wire {
    pub(crate) alloc: Global,
    pub(crate) plan: Plan,
    /// The last second at which it was asked.
    pub(crate) second: u64,
    /// What goes to devices.
    pub(crate) incoming: Lane,
    /// What goes from devices.
    pub(crate) outgoing: Lane,
    /// Whether there was memory for each datagram. A wire that lacked it tells no more.
    pub(crate) whole: bool,
    pub(crate) calls: Calls,
    /// What happened to datagrams since that was asked last.
    pub(crate) notes: Vec<Note>,
    pub(crate) taken: Taken,
}

impl Wire {
    /// Notes what became of a datagram, unless it just goes on.
    fn note(&mut self, direction: Direction, device: usize, drawn: Drawn) -> Result<(), AllocError>
        ensures noted { OnOk result (self.new.notes.items ≡ self.old.notes.items ++ noted_with (record {
          device = device;
          direction = direction;
          number = drawn.number;
          second = self.old.second;
          fate = drawn.fate;
        })) }
        ensures taken { self.new.taken ≡ self.old.taken }
        ensures plan { self.new.plan ≡ self.old.plan }
        ensures second { self.new.second ≡ self.old.second }
        ensures incoming { self.new.incoming ≡ self.old.incoming }
        ensures outgoing { self.new.outgoing ≡ self.old.outgoing }
        ensures whole { self.new.whole ≡ self.old.whole }
        ensures calls { self.new.calls ≡ self.old.calls }
    {
        match drawn.fate {
            Fate::Passes => {}
            Fate::Lost | Fate::Twice | Fate::Swapped | Fate::Late => self.notes.push(Note {
                device,
                direction,
                number: drawn.number,
                second: self.second,
                fate: drawn.fate,
            })?,
        }
        Ok(())
    }

    /// What goes on to a device next, at the second of the wire.
    pub(crate) fn hand_out(&mut self) -> Option<Arrival>
        ensures wired { (plan : Plan) (devices : ℕ) (before after : ℕ → Option Traffic)
            → IsWired plan devices before after self.old → IsWired plan devices before after self.new }
        ensures told { (e : ℕ) → Carries (told_by self.old e) (told_by self.new e)
            (traffic_of_receipt self.old.second (hands result) e) }
        ensures idle { IfNone result (IsIdle self.old.plan.late_by self.old.second self.new.incoming) }
        ensures plan { self.new.plan ≡ self.old.plan }
        ensures second { self.new.second ≡ self.old.second }
        ensures outgoing { self.new.outgoing ≡ self.old.outgoing }
        ensures whole { self.new.whole ≡ self.old.whole }
        ensures calls { self.new.calls ≡ self.old.calls }
        ensures taken { self.new.taken ≡ self.old.taken }
    {
        match self.incoming.go(self.plan.late_by, self.second) {
            None => None,
            Some(held) => Some(Arrival {
                device: held.device,
                packet: held.packet,
            }),
        }
    }

    /// Takes in a datagram that has arrived, and gives what goes on to a device now.
    pub(crate) fn take_in(&mut self, arrival: Arrival) -> Result<Receipt, PortsFault>
        ensures wired { (plan : Plan) (devices : ℕ) (before between after : ℕ → Option Traffic)
            → IsWhole plan devices before between self.old
            → IsIdle self.old.plan.late_by self.old.second self.old.incoming
            → ((e : ℕ) → Carries (between e) (after e)
            (at_port arrival.device e (handed_at self.old.second arrival.packet)))
            → OnOk result (IsWhole plan devices before after self.new) }
        ensures told { (e : ℕ) → Carries (told_by self.old e) (told_by self.new e)
            (traffic_of_receipt self.old.second result e) }
        ensures idle { IsQuietUnless result (IsIdle self.old.plan.late_by self.old.second self.new.incoming) }
        ensures broken { IfErr result (λ _. self.new.whole ≡ false) }
        ensures whole { OnOk result (self.new.whole ≡ self.old.whole) }
        ensures calls { self.new.calls ≡ self.old.calls }
        ensures plan { self.new.plan ≡ self.old.plan }
        ensures taken { self.new.taken ≡ self.old.taken }
    {
        let device = arrival.device;
        match self
            .incoming
            .come(&self.plan, device, arrival.packet, self.second)
        {
            Err(_) => {
                self.whole = false;
                Err(PortsFault::Memory)
            }
            Ok(drawn) => match self.note(Direction::In, device, drawn) {
                Err(_) => {
                    self.whole = false;
                    Err(PortsFault::Memory)
                }
                Ok(()) => match self.hand_out() {
                    None => Ok(Receipt::Dropped),
                    Some(arrival) => Ok(Receipt::Arrived(arrival)),
                },
            },
        }
    }

    /// Takes in a datagram that a device sends.
    pub(crate) fn take_out(
        &mut self,
        device: usize,
        server: u16,
        bytes: &[u8],
    ) -> Result<(), AllocError>
        ensures wired { (plan : Plan) (devices : ℕ) (before after : ℕ → Option Traffic)
            → IsWhole plan devices before after self.old → OnOk result (IsWired plan devices before after self.new) }
        ensures told { OnOk result ((e : ℕ) → Carries (told_by self.old e) (told_by self.new e)
            (at_port device e (sent_all (record { server = server; bytes = bytes.now } ∷ [])))) }
        ensures second { self.new.second ≡ self.old.second }
        ensures whole { self.new.whole ≡ self.old.whole }
        ensures calls { self.new.calls ≡ self.old.calls }
        ensures incoming { self.new.incoming ≡ self.old.incoming }
        ensures plan { self.new.plan ≡ self.old.plan }
        ensures taken { self.new.taken ≡ self.old.taken }
    {
        let bytes = Bytes::from_slice(self.alloc, bytes)?;
        let drawn = self
            .outgoing
            .come(&self.plan, device, Packet { server, bytes }, self.second)?;
        self.note(Direction::Out, device, drawn)
    }
}
