//! Where datagrams are kept until they are shown.
ghost use Rattle.std.specs.Prelude.{◌≡◌, ◌++◌, ◌∷◌, [], IfErr, IfOk, OnErr, OnOk, false, true};
ghost use Rattle.fleet_lines.specs.Shown.{shown_with, taken_shown};

use crate::shown::{Shown, TakenShown};
use fleet_link::{Arrival, PortsFault, Receipt};
use fleet_wire::Direction;
use live_link::Packet;
use octets::Bytes;
use std::alloc::{AllocError, Global};
use std::snapshot::Snapshot;

/// What has gone through ports.
#[derive(Drop)]
pub(crate) struct Tape {
    pub(crate) alloc: Global,
    /// The last second at which the ports were asked.
    pub(crate) second: u64,
    /// What has gone through since that was taken last.
    pub(crate) shown: Vec<Shown>,
    pub(crate) taken: TakenShown,
    /// Whether there was memory for each datagram.
    pub(crate) whole: bool,
}

impl Tape {
    /// Nothing has gone through yet.
    pub(crate) fn new(alloc: Global) -> Tape
        ensures second { result.second ≡ 0 }
        ensures shown { result.shown.items ≡ [] }
        ensures taken { taken_shown result.taken ≡ [] }
        ensures whole { result.whole ≡ true }
    {
        Tape {
            alloc,
            second: 0,
            shown: Vec::new(alloc),
            taken: TakenShown::Nothing,
            whole: true,
        }
    }

    /// Keeps a datagram, at the last second.
    fn add(
        &mut self,
        direction: Direction,
        device: usize,
        server: u16,
        bytes: &[u8],
    ) -> Result<(), AllocError>
        ensures shown { OnOk result (self.new.shown.items ≡ self.old.shown.items ++ (record {
          second = self.old.second;
          device = device;
          direction = direction;
          packet = record { server = server; bytes = bytes.now };
        }) ∷ []) }
        ensures left { OnErr result (self.new.shown.items ≡ self.old.shown.items) }
        ensures second { self.new.second ≡ self.old.second }
        ensures taken { self.new.taken ≡ self.old.taken }
        ensures whole { self.new.whole ≡ self.old.whole }
    {
        let bytes = Bytes::from_slice(self.alloc, bytes)?;
        self.shown.push(Shown {
            second: self.second,
            device,
            direction,
            packet: Packet { server, bytes },
        })?;
        Ok(())
    }

    /// Keeps a datagram that a device sends, if there is memory for it.
    pub(crate) fn send(&mut self, device: usize, server: u16, bytes: &[u8])
        ensures shown { self.new.whole ≡ true → self.new.shown.items ≡ self.old.shown.items ++ (record {
          second = self.old.second;
          device = device;
          direction = Direction.Out;
          packet = record { server = server; bytes = bytes.now };
        }) ∷ [] }
        ensures whole { self.new.whole ≡ true → self.old.whole ≡ true }
        ensures second { self.new.second ≡ self.old.second }
        ensures taken { self.new.taken ≡ self.old.taken }
    {
        match self.add(Direction::Out, device, server, bytes) {
            Ok(()) => {}
            Err(_) => self.whole = false,
        }
    }

    /// Keeps a datagram that has arrived.
    fn hear_arrival(&mut self, arrival: Arrival) -> Result<Receipt, PortsFault>
        ensures given { IfOk result (λ r. r ≡ Receipt.Arrived arrival) }
        ensures shown { OnOk result (self.new.shown.items
            ≡ self.old.shown.items ++ shown_with self.old.second (Receipt.Arrived arrival)) }
        ensures left { OnErr result (self.new.shown.items ≡ self.old.shown.items) }
        ensures whole { OnOk result (self.new.whole ≡ self.old.whole) }
        ensures broken { IfErr result (λ _. self.new.whole ≡ false) }
        ensures second { self.new.second ≡ self.old.second }
        ensures taken { self.new.taken ≡ self.old.taken }
    {
        match self.add(
            Direction::In,
            arrival.device,
            arrival.packet.server,
            arrival.packet.bytes.as_slice(),
        ) {
            Ok(()) => Ok(Receipt::Arrived(arrival)),
            Err(_) => {
                self.whole = false;
                Err(PortsFault::Memory)
            }
        }
    }

    /// Keeps what has come of asking the ports at this second.
    pub(crate) fn hear(&mut self, second: u64, receipt: Receipt) -> Result<Receipt, PortsFault>
        ensures given { IfOk result (λ r. r ≡ receipt) }
        ensures shown { OnOk result (self.new.shown.items
            ≡ self.old.shown.items ++ shown_with second receipt) }
        ensures left { OnErr result (self.new.shown.items ≡ self.old.shown.items) }
        ensures whole { OnOk result (self.new.whole ≡ self.old.whole) }
        ensures broken { IfErr result (λ _. self.new.whole ≡ false) }
        ensures second { self.new.second ≡ second }
        ensures taken { self.new.taken ≡ self.old.taken }
    {
        self.second = second;
        match receipt {
            Receipt::Nothing => Ok(Receipt::Nothing),
            Receipt::Arrived(arrival) => self.hear_arrival(arrival),
            Receipt::Dropped => Ok(Receipt::Dropped),
            Receipt::Failed(device) => Ok(Receipt::Failed(device)),
        }
    }

    /// What has gone through since this was asked last.
    pub(crate) fn take(&mut self) -> Vec<Shown>
        ensures shown { result.items ≡ self.old.shown.items }
        ensures left { self.new.shown.items ≡ [] }
        ensures taken { taken_shown self.new.taken ≡ taken_shown self.old.taken ++ result.items }
        ensures second { self.new.second ≡ self.old.second }
        ensures whole { self.new.whole ≡ self.old.whole }
    {
        let shown = std::mem::replace(&mut self.shown, Vec::new(self.alloc));
        self.taken = TakenShown::Then(Snapshot::of(&self.taken), Snapshot::of(&shown));
        shown
    }
}
