use crate::session::LiveEnd;
use device_machine::StepFault;
use std::alloc::{AllocError, AllocFailed};

impl From<AllocError> for LiveEnd {
    ghost use Rattle.std.specs.Prelude.{◌≡◌};
    ghost use Rattle.live_link.specs.declared.session.LiveEnd.TheVariants.{Memory};

    ghost from_gives = { λ _ e. e ≡ Memory };

    fn from(_e: AllocError) -> LiveEnd {
        LiveEnd::Memory
    }
}

impl<T: Drop> From<AllocFailed<T>> for LiveEnd {
    ghost use Rattle.std.specs.Prelude.{◌≡◌};
    ghost use Rattle.live_link.specs.declared.session.LiveEnd.TheVariants.{Memory};

    ghost from_gives = { λ _ e. e ≡ Memory };

    fn from(_refused: AllocFailed<T>) -> LiveEnd {
        LiveEnd::Memory
    }
}

impl From<StepFault> for LiveEnd {
    ghost use Rattle.std.specs.Prelude.{◌≡◌};
    ghost use Rattle.live_link.specs.Live.{end_at};

    ghost from_gives = { λ fault e. e ≡ end_at fault };

    fn from(fault: StepFault) -> LiveEnd {
        match fault {
            StepFault::Memory => LiveEnd::Memory,
            StepFault::Spent => LiveEnd::Spent,
        }
    }
}
