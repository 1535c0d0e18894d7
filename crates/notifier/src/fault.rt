ghost use Rattle.std.specs.Prelude.{◌≡◌};

use std::alloc::{AllocError, AllocFailed};
use thiserror::Error;

/// Why an observation was not registered. A refused call changes nothing.
#[derive(Clone, Copy, Debug, Error)]
pub enum ObserveFault {
    /// There are 32 observations, and none of this server under this token.
    #[error("full")]
    Full,
    /// Memory ran out.
    #[error("out of memory")]
    Memory,
}

impl From<AllocError> for ObserveFault {
    ghost use Rattle.std.specs.Prelude.{◌≡◌};
    ghost use Rattle.notifier.specs.declared.fault.ObserveFault.TheVariants.{Memory};

    ghost from_gives = { λ _ e. e ≡ Memory };

    fn from(_refused: AllocError) -> ObserveFault {
        ObserveFault::Memory
    }
}

impl<T: Drop> From<AllocFailed<T>> for ObserveFault {
    ghost use Rattle.std.specs.Prelude.{◌≡◌};
    ghost use Rattle.notifier.specs.declared.fault.ObserveFault.TheVariants.{Memory};

    ghost from_gives = { λ _ e. e ≡ Memory };

    fn from(_refused: AllocFailed<T>) -> ObserveFault {
        ObserveFault::Memory
    }
}

/// Why changes of attributes were not written. A refused call changes nothing.
#[derive(Clone, Copy, Debug, Error)]
pub enum WriteFault {
    /// The numbers would not agree: lt below gt, and lt + 2 st below gt.
    #[error("inconsistent")]
    Inconsistent,
    /// Memory ran out.
    #[error("out of memory")]
    Memory,
}

impl From<AllocError> for WriteFault {
    ghost use Rattle.std.specs.Prelude.{◌≡◌};
    ghost use Rattle.notifier.specs.declared.fault.WriteFault.TheVariants.{Memory};

    ghost from_gives = { λ _ e. e ≡ Memory };

    fn from(_refused: AllocError) -> WriteFault {
        WriteFault::Memory
    }
}

/// Why queries are no changes of attributes: in each query from the left, the first of these.
#[derive(Clone, Copy, Debug, Error)]
pub enum QueryFault {
    /// The name is none of the five.
    #[error("unknown name")]
    UnknownName,
    /// An earlier query has this name.
    #[error("repeated")]
    Repeated,
    /// The number is not spelled as its name wants it, or out of its range.
    #[error("bad number")]
    BadNumber,
    /// The attribute does not stand at this level.
    #[error("level")]
    Level,
    /// Memory ran out.
    #[error("out of memory")]
    Memory,
}

impl From<AllocError> for QueryFault {
    ghost use Rattle.std.specs.Prelude.{◌≡◌};
    ghost use Rattle.notifier.specs.declared.fault.QueryFault.TheVariants.{Memory};

    ghost from_gives = { λ _ e. e ≡ Memory };

    fn from(_refused: AllocError) -> QueryFault {
        QueryFault::Memory
    }
}

impl<T: Drop> From<AllocFailed<T>> for QueryFault {
    ghost use Rattle.std.specs.Prelude.{◌≡◌};
    ghost use Rattle.notifier.specs.declared.fault.QueryFault.TheVariants.{Memory};

    ghost from_gives = { λ _ e. e ≡ Memory };

    fn from(_refused: AllocFailed<T>) -> QueryFault {
        QueryFault::Memory
    }
}
