//! The ports of a fleet: each device has one of its own.
ghost use Rattle.std.specs.Prelude.{◌≡◌, ◌∷◌, [], ℕ, List, Option};
ghost use Rattle.live_link.specs.declared.packet.Packet.{Packet};
ghost use Rattle.live_link.specs.Wire.{AreRead};
ghost use Rattle.fleet_link.specs.declared.directory.FixedServer.{FixedServer};
ghost use Rattle.fleet_link.specs.Traffic.{Traffic, Carries, at_port, no_traffic, sent_all, traffic_of_receipt};

use live_link::Packet;

/// A datagram that has arrived at the port of a device.
#[derive(Drop)]
pub struct Arrival {
    /// The place of the device in its fleet.
    pub device: usize,
    pub packet: Packet,
}

/// What comes of asking the ports once.
#[derive(Drop)]
pub enum Receipt {
    /// Nothing has arrived at any port.
    Nothing,
    /// A datagram has arrived.
    Arrived(Arrival),
    /// A datagram was dropped: it came from no account, or was too long.
    Dropped,
    /// The port of this device failed. Nothing more is sent from it.
    Failed(usize),
}

impl Receipt {
    /// Whether something has come, so that there may be more.
    pub(crate) fn has_come(&self) -> bool {
        match self {
            Receipt::Nothing => false,
            Receipt::Arrived(_) | Receipt::Dropped | Receipt::Failed(_) => true,
        }
    }
}

/// Why ports can serve no device any more.
#[derive(Clone, Copy)]
pub enum PortsFault {
    /// The system failed.
    Failed,
    /// No memory was left.
    Memory,
}

/// What the devices of a fleet are put on: sockets, or what is in memory.
pub trait Ports {
    /// What went through the port of a device since the ports were made, where they tell.
    ghost told: { Self → ℕ → Option Traffic };
    /// The seconds at which they were asked, in order, where they tell.
    ghost asked: { Self → Option (List ℕ) };
    /// What kind of thing is fixed of them: the servers, for all devices, where nothing else is said.
    ghost Fixed: { Type 0 } = { List FixedServer };

    /// What is fixed of them. No call changes it.
    ghost fixed: { Self → Self.Fixed };

    /// What has arrived next, at whichever port; it is asked for at this second of the session. It does not wait.
    fn receive(&mut self, second: u64) -> Result<Receipt, PortsFault>
        ensures told { (e : ℕ) → Carries (told self.old e) (told self.new e) (traffic_of_receipt second result e) }
        ensures fixed { fixed self.new ≡ fixed self.old }
        ensures asked { AreRead (asked self.old) (asked self.new) (second ∷ []) };

    /// Sends a datagram of a device to a server. On its way it may be lost.
    fn send(&mut self, device: usize, server: u16, bytes: &[u8])
        ensures told { (e : ℕ) → Carries (told self.old e) (told self.new e)
            (at_port device e (sent_all (record { server = server; bytes = bytes.now } ∷ []))) }
        ensures fixed { fixed self.new ≡ fixed self.old }
        ensures asked { AreRead (asked self.old) (asked self.new) [] };

    /// Waits until something may have arrived, at most so many milliseconds.
    fn wait(&mut self, millis: u32) -> Result<(), PortsFault>
        ensures told { (e : ℕ) → Carries (told self.old e) (told self.new e) no_traffic }
        ensures fixed { fixed self.new ≡ fixed self.old }
        ensures asked { AreRead (asked self.old) (asked self.new) [] };
}
