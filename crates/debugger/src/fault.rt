//! Why a call of the debugger fails.

use std::alloc::AllocError;
use std::error::Error;
use std::fmt;

/// Why a debugger is not opened.
#[derive(Clone, Copy, Debug)]
pub enum OpenFault {
    /// The entries are not a run of the scenario from this one on, counted from 0.
    NotRun(usize),
    /// No memory was left.
    Memory,
}

impl fmt::Display for OpenFault {
    ghost use Rattle.std.specs.Prelude.{Some};
    ghost use Rattle.debugger.specs.Faults.{open_words};

    ghost output = { λ fault. Some (open_words fault) };

    fn fmt<W: fmt::Write>(&self, f: &mut fmt::Formatter<W>) -> fmt::Result {
        match self {
            OpenFault::NotRun(at) => write!(f, "not a run from entry {at} on"),
            OpenFault::Memory => write!(f, "out of memory"),
        }
    }
}

impl Error for OpenFault {}

impl From<AllocError> for OpenFault {
    ghost use Rattle.std.specs.Prelude.{◌≡◌};
    ghost use Rattle.debugger.specs.declared.fault.OpenFault.TheVariants.{Memory};

    ghost from_gives = { λ _ e. e ≡ Memory };

    fn from(_e: AllocError) -> OpenFault {
        OpenFault::Memory
    }
}

/// Why a debugger does not move forward.
#[derive(Clone, Copy, Debug)]
pub enum ForwardFault {
    /// The run has no such place.
    PastEnd,
    /// No memory was left.
    Memory,
}

impl fmt::Display for ForwardFault {
    ghost use Rattle.std.specs.Prelude.{Some};
    ghost use Rattle.debugger.specs.Faults.{forward_words};

    ghost output = { λ fault. Some (forward_words fault) };

    fn fmt<W: fmt::Write>(&self, f: &mut fmt::Formatter<W>) -> fmt::Result {
        match self {
            ForwardFault::PastEnd => write!(f, "past end"),
            ForwardFault::Memory => write!(f, "out of memory"),
        }
    }
}

impl Error for ForwardFault {}

impl From<AllocError> for ForwardFault {
    ghost use Rattle.std.specs.Prelude.{◌≡◌};
    ghost use Rattle.debugger.specs.declared.fault.ForwardFault.TheVariants.{Memory};

    ghost from_gives = { λ _ e. e ≡ Memory };

    fn from(_e: AllocError) -> ForwardFault {
        ForwardFault::Memory
    }
}

/// Why a debugger does not move back.
#[derive(Clone, Copy, Debug)]
pub enum BackFault {
    /// The run has no such place.
    PastStart,
    /// No memory was left.
    Memory,
}

impl fmt::Display for BackFault {
    ghost use Rattle.std.specs.Prelude.{Some};
    ghost use Rattle.debugger.specs.Faults.{back_words};

    ghost output = { λ fault. Some (back_words fault) };

    fn fmt<W: fmt::Write>(&self, f: &mut fmt::Formatter<W>) -> fmt::Result {
        match self {
            BackFault::PastStart => write!(f, "past start"),
            BackFault::Memory => write!(f, "out of memory"),
        }
    }
}

impl Error for BackFault {}

impl From<AllocError> for BackFault {
    ghost use Rattle.std.specs.Prelude.{◌≡◌};
    ghost use Rattle.debugger.specs.declared.fault.BackFault.TheVariants.{Memory};

    ghost from_gives = { λ _ e. e ≡ Memory };

    fn from(_e: AllocError) -> BackFault {
        BackFault::Memory
    }
}

/// Why a breakpoint is not added.
#[derive(Clone, Copy, Debug)]
pub enum AddFault {
    /// There are 64.
    Full,
}

impl fmt::Display for AddFault {
    ghost use Rattle.std.specs.Prelude.{Some};
    ghost use Rattle.debugger.specs.Faults.{add_words};

    ghost output = { λ fault. Some (add_words fault) };

    fn fmt<W: fmt::Write>(&self, f: &mut fmt::Formatter<W>) -> fmt::Result {
        match self {
            AddFault::Full => write!(f, "full"),
        }
    }
}

impl Error for AddFault {}

/// Why a breakpoint is not removed.
#[derive(Clone, Copy, Debug)]
pub enum RemoveFault {
    /// There is none of this number.
    NoSuch,
}

impl fmt::Display for RemoveFault {
    ghost use Rattle.std.specs.Prelude.{Some};
    ghost use Rattle.debugger.specs.Faults.{remove_words};

    ghost output = { λ fault. Some (remove_words fault) };

    fn fmt<W: fmt::Write>(&self, f: &mut fmt::Formatter<W>) -> fmt::Result {
        match self {
            RemoveFault::NoSuch => write!(f, "no such"),
        }
    }
}

impl Error for RemoveFault {}

/// Why nothing is shown of a device.
#[derive(Clone, Copy, Debug)]
pub enum DeviceFault {
    /// The scenario has no row for it.
    NoDevice,
}

impl fmt::Display for DeviceFault {
    ghost use Rattle.std.specs.Prelude.{Some};
    ghost use Rattle.debugger.specs.Faults.{device_words};

    ghost output = { λ fault. Some (device_words fault) };

    fn fmt<W: fmt::Write>(&self, f: &mut fmt::Formatter<W>) -> fmt::Result {
        match self {
            DeviceFault::NoDevice => write!(f, "no device"),
        }
    }
}

impl Error for DeviceFault {}
