ghost use Rattle.std.specs.Prelude.{Option};
ghost use Rattle.live_link.specs.Wire.{Traffic, Carries, traffic_of_receive, traffic_of_send};

use crate::packet::Packet;

/// Why a wire neither receives nor sends.
#[derive(Clone, Copy)]
pub enum WireFault {
    /// The wire failed.
    Failed,
    /// No memory was left.
    Memory,
}

/// What a device is put on: a socket, or what is in memory.
pub trait Wire {
    /// What went over it since it was made, where it tells.
    ghost told: { Self → Option Traffic };

    /// The next datagram that has arrived, and the server that sent it; none where nothing has arrived.
    fn receive(&mut self) -> Result<Option<Packet>, WireFault>
        ensures { Carries (told self.old) (told self.new) (traffic_of_receive result) };

    /// Sends a datagram to a server.
    fn send(&mut self, server: u16, bytes: &[u8]) -> Result<(), WireFault>
        ensures { Carries (told self.old) (told self.new)
            (traffic_of_send (record { server = server; bytes = bytes.now }) result) };
}
