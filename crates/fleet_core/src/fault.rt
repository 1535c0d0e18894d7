use std::alloc::AllocError;
use thiserror::Error;

/// Why a fleet commits no step.
#[derive(Clone, Copy, Debug, Error)]
pub enum CommitFault {
    /// No entry of the device can be added; nothing changed.
    #[error("not enabled")]
    NotEnabled,
    /// No memory was left; the fleet is spent.
    #[error("out of memory")]
    Memory,
    /// The fleet is spent; nothing changed.
    #[error("spent")]
    Spent,
}

impl From<AllocError> for CommitFault {
    ghost use Rattle.std.specs.Prelude.{◌≡◌};
    ghost use Rattle.fleet_core.specs.declared.fault.CommitFault.TheVariants.{Memory};

    ghost from_gives = { λ _ e. e ≡ Memory };

    fn from(_e: AllocError) -> CommitFault {
        CommitFault::Memory
    }
}
