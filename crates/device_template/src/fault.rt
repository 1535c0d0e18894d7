use object_defs::CatalogFault;
use std::alloc::{AllocError, AllocFailed};
use thiserror::Error;

/// Why a template refuses an account, an object, a resource, an instance, a value or a way to notify, in the order in
/// which they are found.
#[derive(Clone, Copy, Debug, PartialEq, Eq, Error)]
pub enum TemplateFault {
    /// A number, a kind, a length or a path that does not fit.
    #[error("range")]
    Range,
    /// The object or the instance is not there.
    #[error("missing")]
    Missing,
    /// It already exists.
    #[error("duplicate")]
    Duplicate,
    /// There are as many as there may be.
    #[error("full")]
    Full,
    /// No memory was left.
    #[error("out of memory")]
    Memory,
}

impl From<AllocError> for TemplateFault {
    ghost use Rattle.std.specs.Prelude.{◌≡◌};
    ghost use Rattle.device_template.specs.declared.fault.TemplateFault.TheVariants.{Memory};

    ghost from_gives = { λ _ e. e ≡ Memory };

    fn from(_e: AllocError) -> TemplateFault {
        TemplateFault::Memory
    }
}

impl<T: Drop> From<AllocFailed<T>> for TemplateFault {
    ghost use Rattle.std.specs.Prelude.{◌≡◌};
    ghost use Rattle.device_template.specs.declared.fault.TemplateFault.TheVariants.{Memory};

    ghost from_gives = { λ _ e. e ≡ Memory };

    fn from(_e: AllocFailed<T>) -> TemplateFault {
        TemplateFault::Memory
    }
}

impl From<CatalogFault> for TemplateFault {
    ghost use Rattle.std.specs.Prelude.{◌≡◌};
    ghost use Rattle.device_template.specs.Template.{fault_of};

    ghost from_gives = { λ f e. e ≡ fault_of f };

    fn from(fault: CatalogFault) -> TemplateFault {
        match fault {
            CatalogFault::IdRange => TemplateFault::Range,
            CatalogFault::Duplicate => TemplateFault::Duplicate,
            CatalogFault::TooMany => TemplateFault::Full,
            CatalogFault::Memory => TemplateFault::Memory,
        }
    }
}
