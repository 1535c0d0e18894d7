use std::alloc::{AllocError, AllocFailed};
use thiserror::Error;

/// Why a catalog refuses an object or a resource, in the order in which they are found. A refused call changes
/// nothing.
#[derive(Clone, Copy, Debug, Error)]
pub enum CatalogFault {
    /// The number is not a vendor object's, or there is no such vendor object, or an executable resource is multiple or
    /// of another kind than Text.
    #[error("id range")]
    IdRange,
    /// It is there already.
    #[error("duplicate")]
    Duplicate,
    /// The catalog has 16 objects, or the object 64 resources.
    #[error("too many")]
    TooMany,
    /// No memory was left.
    #[error("out of memory")]
    Memory,
}

impl From<AllocError> for CatalogFault {
    ghost use Rattle.std.specs.Prelude.{◌≡◌};
    ghost use Rattle.object_defs.specs.declared.fault.CatalogFault.TheVariants.{Memory};

    ghost from_gives = { λ _ e. e ≡ Memory };

    fn from(_refused: AllocError) -> CatalogFault {
        CatalogFault::Memory
    }
}

impl<T: Drop> From<AllocFailed<T>> for CatalogFault {
    ghost use Rattle.std.specs.Prelude.{◌≡◌};
    ghost use Rattle.object_defs.specs.declared.fault.CatalogFault.TheVariants.{Memory};

    ghost from_gives = { λ _ e. e ≡ Memory };

    fn from(_refused: AllocFailed<T>) -> CatalogFault {
        CatalogFault::Memory
    }
}
