//! Breakpoints, and why a resumed debugger stops.

use object_defs::Path;

/// A breakpoint. It holds at some places of a run, a place being a number of entries: those before it. At a place, each
/// kind but the first looks at the entry just before it.
#[derive(Clone, Copy)]
pub enum Break {
    /// At this place.
    At(usize),
    /// Where the entry is the device's, which has then made this many steps.
    DeviceStep {
        /// The device.
        device: u16,
        /// How many steps it has made.
        step: u32,
    },
    /// Where the entry changes the device's value at the path, adds one or takes it away.
    Changed {
        /// The device.
        device: u16,
        /// The path to the value, of three or four numbers; one of one or two never has a value.
        path: Path,
    },
    /// Where the entry is the device's, and sends a datagram of this code.
    Code {
        /// The device.
        device: u16,
        /// The code's byte (RFC 7252 section 3).
        code: u8,
    },
    /// Where the entry is the device's, its step is a tick, and it sends a datagram.
    Notified {
        /// The device.
        device: u16,
    },
}

/// Why a resumed debugger stops.
#[derive(Clone, Copy)]
pub enum Stop {
    /// The breakpoint of this number holds.
    Break(u8),
    /// The run ends.
    End,
}

/// A stop, and its place.
#[derive(Clone, Copy)]
pub(crate) struct StopAt {
    /// Why the debugger stops.
    pub(crate) stop: Stop,
    /// Where.
    pub(crate) place: usize,
}
