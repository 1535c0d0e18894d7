use std::alloc::AllocError;
use thiserror::Error;

/// Why a device refuses an event.
#[derive(Clone, Copy, Debug, Error)]
pub enum StepFault {
    /// No memory was left; the device is spent.
    #[error("out of memory")]
    Memory,
    /// The device is spent, or the tick would take its clock past 2^63 - 1; nothing changed.
    #[error("spent")]
    Spent,
}

impl From<AllocError> for StepFault {
    ghost use Rattle.std.specs.Prelude.{◌≡◌};
    ghost use Rattle.device_machine.specs.declared.fault.StepFault.TheVariants.{Memory};

    ghost from_gives = { λ _ e. e ≡ Memory };

    fn from(_e: AllocError) -> StepFault {
        StepFault::Memory
    }
}
