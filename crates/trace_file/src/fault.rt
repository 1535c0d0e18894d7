use std::alloc::AllocError;
use thiserror::Error;

/// Why a trace file was not written.
#[derive(Clone, Copy, Debug, Error)]
pub enum WriteFault {
    /// The count of the entries or of an entry's outputs, or the length of a datagram, is past its field: the entries
    /// have no trace file.
    #[error("too large for a trace file")]
    TooLarge,
    /// No memory was left.
    #[error("out of memory")]
    Memory,
}

impl From<AllocError> for WriteFault {
    ghost use Rattle.std.specs.Prelude.{◌≡◌};
    ghost use Rattle.trace_file.specs.declared.fault.WriteFault.TheVariants.{Memory};

    ghost from_gives = { λ _ e. e ≡ Memory };

    fn from(_e: AllocError) -> WriteFault {
        WriteFault::Memory
    }
}
