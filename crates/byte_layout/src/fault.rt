ghost use Rattle.std.specs.Prelude.{◌≡◌};
ghost use Rattle.byte_layout.specs.Whole.{fault_of_break, fault_of};

use std::alloc::{AllocError, AllocFailed};
use thiserror::Error;

/// How bytes break off where a field should stand, or after the last one.
///
/// A number is how many bytes are left from the field's first byte on, so that a field's break is the same whatever
/// stands before it.
#[derive(Clone, Copy, PartialEq, Eq)]
pub enum Break {
    /// The number that marks the format is another.
    Magic,
    /// The format's version is one that is not read.
    Version,
    /// The bytes of a field are not all there.
    Cut,
    /// Bytes stand after the last field.
    Trailing,
    /// A field's value does not fit; with the bytes left from its first on.
    BadField(usize),
    /// A count or a length is above its limit; with the bytes left from its first on.
    Limit(usize),
}

/// Why a field was not read.
#[derive(Drop)]
pub enum ReadError {
    /// No memory was left.
    Memory,
    /// The bytes break off.
    Fault(Break),
}

/// Why bytes are not those of a value: their first fault from the left, with its place where it has one; `Memory` says
/// that no memory was left.
///
/// A place counts bytes from 0 and is the first byte of the field.
#[derive(Clone, Copy, Debug, PartialEq, Eq, Error)]
pub enum LayoutFault {
    /// The number that marks the format is another.
    #[error("magic")]
    Magic,
    /// The format's version is one that is not read.
    #[error("version")]
    Version,
    /// The bytes of a field are not all there.
    #[error("cut")]
    Cut,
    /// Bytes stand after the last field.
    #[error("trailing")]
    Trailing,
    /// A field's value does not fit.
    #[error("bad field at {0}")]
    BadField(usize),
    /// A count or a length is above its limit.
    #[error("limit at {0}")]
    Limit(usize),
    /// No memory was left.
    #[error("out of memory")]
    Memory,
}

impl From<AllocError> for ReadError {
    ghost use Rattle.std.specs.Prelude.{◌≡◌};
    ghost use Rattle.byte_layout.specs.declared.fault.ReadError.TheVariants.{Memory};

    ghost from_gives = { λ _ e. e ≡ Memory };

    fn from(_e: AllocError) -> ReadError {
        ReadError::Memory
    }
}

impl<T: Drop> From<AllocFailed<T>> for ReadError {
    ghost use Rattle.std.specs.Prelude.{◌≡◌};
    ghost use Rattle.byte_layout.specs.declared.fault.ReadError.TheVariants.{Memory};

    ghost from_gives = { λ _ e. e ≡ Memory };

    fn from(_e: AllocFailed<T>) -> ReadError {
        ReadError::Memory
    }
}

/// The fault of n bytes whose reading ended with this error.
pub fn fault_at(total: usize, error: ReadError) -> LayoutFault
    ensures { result ≡ fault_of total error }
{
    match error {
        ReadError::Memory => LayoutFault::Memory,
        ReadError::Fault(broken) => place(total, broken),
    }
}

/// The fault of n bytes that break off so.
fn place(total: usize, broken: Break) -> LayoutFault
    ensures { result ≡ fault_of_break total broken }
{
    match broken {
        Break::Magic => LayoutFault::Magic,
        Break::Version => LayoutFault::Version,
        Break::Cut => LayoutFault::Cut,
        Break::Trailing => LayoutFault::Trailing,
        Break::BadField(left) => LayoutFault::BadField(total.saturating_sub(left)),
        Break::Limit(left) => LayoutFault::Limit(total.saturating_sub(left)),
    }
}
