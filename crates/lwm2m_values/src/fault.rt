use std::alloc::{AllocError, AllocFailed};
use thiserror::Error;

/// Why bytes or a text are not a value.
#[derive(Clone, Copy, Debug, Error)]
pub enum ValueFault {
    /// No valid value of the kind is spelled so.
    #[error("not a value of its kind")]
    BadValue,
    /// An allocation failed.
    #[error("out of memory")]
    Memory,
}

impl From<AllocError> for ValueFault {
    ghost use Rattle.std.specs.Prelude.{◌≡◌};
    ghost use Rattle.lwm2m_values.specs.declared.fault.ValueFault.TheVariants.{Memory};

    ghost from_gives = { λ _ e. e ≡ Memory };

    fn from(_e: AllocError) -> ValueFault {
        ValueFault::Memory
    }
}

impl<T: Drop> From<AllocFailed<T>> for ValueFault {
    ghost use Rattle.std.specs.Prelude.{◌≡◌};
    ghost use Rattle.lwm2m_values.specs.declared.fault.ValueFault.TheVariants.{Memory};

    ghost from_gives = { λ _ e. e ≡ Memory };

    fn from(_e: AllocFailed<T>) -> ValueFault {
        ValueFault::Memory
    }
}

/// Why bytes are not TLV.
#[derive(Clone, Copy, Debug, Error)]
pub enum TlvFault {
    /// A record extends past the end of what contains it.
    #[error("a record is cut")]
    Cut,
    /// A record of this type is not allowed there.
    #[error("a record may not stand there")]
    Nesting,
    /// An allocation failed.
    #[error("out of memory")]
    Memory,
}

impl From<AllocError> for TlvFault {
    ghost use Rattle.std.specs.Prelude.{◌≡◌};
    ghost use Rattle.lwm2m_values.specs.declared.fault.TlvFault.TheVariants.{Memory};

    ghost from_gives = { λ _ e. e ≡ Memory };

    fn from(_e: AllocError) -> TlvFault {
        TlvFault::Memory
    }
}

impl<T: Drop> From<AllocFailed<T>> for TlvFault {
    ghost use Rattle.std.specs.Prelude.{◌≡◌};
    ghost use Rattle.lwm2m_values.specs.declared.fault.TlvFault.TheVariants.{Memory};

    ghost from_gives = { λ _ e. e ≡ Memory };

    fn from(_e: AllocFailed<T>) -> TlvFault {
        TlvFault::Memory
    }
}
