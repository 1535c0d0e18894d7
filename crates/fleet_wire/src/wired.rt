//! Ports over UDP, with a wire on them: what is so of both holds after each call.
ghost use Rattle.fleet_link.specs.Udp.{told_over_udp};
ghost use Rattle.std.specs.Prelude.{◌≡◌};
ghost use Rattle.fleet_wire.specs.Happened.{happened_in};
ghost use Rattle.fleet_wire.specs.Noting.{taken_in};
ghost use Rattle.fleet_wire.specs.Over.{new_ports};
ghost use Rattle.fleet_wire.specs.Wire.{IsWire};

use crate::happened::Happened;
use crate::lossy::LossyPorts;
use fleet_link::UdpPorts;

/// Ports over UDP, on which a wire was put when they were new.
#[derive(Drop)]
pub struct WiredPorts {
    pub(crate) lossy: LossyPorts<UdpPorts>,
    pub(crate) devices: usize,
    /// Of the notes that were taken.
    pub(crate) happened: Happened,
    ghost over: { ∥ IsWire lossy.wire.plan devices new_ports (told_over_udp lossy.ports) lossy.wire ∥₁ },
    ghost counted: { happened ≡ happened_in (taken_in lossy.wire.taken) },
}
