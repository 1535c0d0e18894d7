use crate::ports::PortsFault;
use std::alloc::AllocError;

/// Why the session of a fleet was broken off, for all of its devices.
#[derive(Clone, Copy)]
pub enum FleetFault {
    /// The system failed at all ports.
    Ports,
    /// No memory was left.
    Memory,
}

impl From<AllocError> for FleetFault {
    ghost use Rattle.std.specs.Prelude.{◌≡◌};
    ghost use Rattle.fleet_link.specs.declared.fault.FleetFault.TheVariants.{Memory};

    ghost from_gives = { λ _ e. e ≡ Memory };

    fn from(_e: AllocError) -> FleetFault {
        FleetFault::Memory
    }
}

impl From<PortsFault> for FleetFault {
    fn from(fault: PortsFault) -> FleetFault {
        match fault {
            PortsFault::Failed => FleetFault::Ports,
            PortsFault::Memory => FleetFault::Memory,
        }
    }
}
