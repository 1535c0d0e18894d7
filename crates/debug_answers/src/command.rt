use object_defs::Path;

/// What a line of the debugger's input asks for. A device is named by its number.
#[derive(Clone, Copy)]
pub enum Command {
    /// `at`: the place that is shown.
    At,
    /// `forward N`: to the place that is N entries later.
    Forward(u64),
    /// `back N`: to the place that is N entries earlier.
    Back(u64),
    /// `break ..`: a new breakpoint.
    Break(Point),
    /// `clear ID`: the breakpoint of this number is removed.
    Clear(u8),
    /// `resume`: to the next place at which a breakpoint holds.
    Resume,
    /// `value D PATH`: the value that a device has at a path.
    Value(u16, Path),
    /// `obs D`: the observations of a device.
    Observations(u16),
    /// `out D`: the latest outputs of a device.
    Outputs(u16),
    /// `why D`: why a device handled so what arrived at its latest step.
    Why(u16),
    /// `quit`: the end.
    Quit,
}

/// Where a breakpoint holds.
#[derive(Clone, Copy)]
pub enum Point {
    /// `at N`: a place, which is a count of entries.
    At(u64),
    /// `step D K`: a device has made this many steps.
    Step(u16, u32),
    /// `changed D PATH`: the value that a device has at a path changed.
    Changed(u16, Path),
    /// `code D C`: a device sent a message of this code, by the code's byte.
    Code(u16, u8),
    /// `notified D`: a device sent a notification.
    Notified(u16),
}
