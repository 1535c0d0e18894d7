use std::alloc::AllocError;
use thiserror::Error;

/// Why a trace has no capture file.
#[derive(Clone, Copy, Debug, Error)]
pub enum PcapFault {
    /// A datagram has more than 65,507 bytes, the most that UDP over IPv4 carries.
    #[error("datagram too long")]
    TooLong,
    /// No memory was left.
    #[error("out of memory")]
    Memory,
}

impl From<AllocError> for PcapFault {
    ghost use Rattle.std.specs.Prelude.{◌≡◌};
    ghost use Rattle.trace_pcap.specs.declared.fault.PcapFault.TheVariants.{Memory};

    ghost from_gives = { λ _ e. e ≡ Memory };

    fn from(_e: AllocError) -> PcapFault {
        PcapFault::Memory
    }
}
