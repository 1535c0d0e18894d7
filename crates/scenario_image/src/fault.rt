use std::alloc::{AllocError, AllocFailed};
use thiserror::Error;

/// Why a scenario refuses a class, a row or a step, in the order in which they are found. A refused call changes
/// nothing.
#[derive(Clone, Copy, Debug, Error)]
pub enum ScenarioFault {
    /// A number of the step that is out of its range, or a path of one or two numbers.
    #[error("range")]
    Range,
    /// There is no such class, no row, or no such account of the row's class.
    #[error("missing")]
    Missing,
    /// There are as many as there may be, or a datagram, a text or bytes are too long.
    #[error("limit")]
    Limit,
    /// No memory was left.
    #[error("out of memory")]
    Memory,
}

impl From<AllocError> for ScenarioFault {
    ghost use Rattle.std.specs.Prelude.{◌≡◌};
    ghost use Rattle.scenario_image.specs.declared.fault.ScenarioFault.TheVariants.{Memory};

    ghost from_gives = { λ _ e. e ≡ Memory };

    fn from(_e: AllocError) -> ScenarioFault {
        ScenarioFault::Memory
    }
}

impl<T: Drop> From<AllocFailed<T>> for ScenarioFault {
    ghost use Rattle.std.specs.Prelude.{◌≡◌};
    ghost use Rattle.scenario_image.specs.declared.fault.ScenarioFault.TheVariants.{Memory};

    ghost from_gives = { λ _ e. e ≡ Memory };

    fn from(_e: AllocFailed<T>) -> ScenarioFault {
        ScenarioFault::Memory
    }
}
