use std::alloc::{AllocError, AllocFailed};
use thiserror::Error;

/// Why bytes are not a message (RFC 7252 section 3), by number; `Memory`: an allocation failed.
#[derive(Clone, Copy, Debug, Error)]
pub enum CoapFault {
    /// Fewer than four bytes.
    #[error("fewer than four bytes")]
    Short = 1,
    /// A version other than 1.
    #[error("a version other than 1")]
    Version = 2,
    /// A token length above 8.
    #[error("a token length above 8")]
    TokenLength = 3,
    /// Code 0.00 with a token length or with bytes after the header.
    #[error("an empty message with bytes behind its header")]
    EmptyWithData = 4,
    /// The bytes end within a token, an extension or a value.
    #[error("the bytes end within a token or an option")]
    OptionCut = 5,
    /// A nibble of 15 in an option.
    #[error("a reserved nibble")]
    OptionReserved = 6,
    /// An option number above 65,535.
    #[error("an option number above 65535")]
    OptionNumber = 7,
    /// A payload marker with no payload.
    #[error("a payload marker with no payload")]
    PayloadEmpty = 8,
    /// An allocation failed.
    #[error("out of memory")]
    Memory = 9,
}

impl From<AllocError> for CoapFault {
    ghost use Rattle.std.specs.Prelude.{◌≡◌};
    ghost use Rattle.coap_codec.specs.declared.fault.CoapFault.TheVariants.{Memory};

    ghost from_gives = { λ _ e. e ≡ Memory };

    fn from(_e: AllocError) -> CoapFault {
        CoapFault::Memory
    }
}

impl<T: Drop> From<AllocFailed<T>> for CoapFault {
    ghost use Rattle.std.specs.Prelude.{◌≡◌};
    ghost use Rattle.coap_codec.specs.declared.fault.CoapFault.TheVariants.{Memory};

    ghost from_gives = { λ _ e. e ≡ Memory };

    fn from(_e: AllocFailed<T>) -> CoapFault {
        CoapFault::Memory
    }
}
