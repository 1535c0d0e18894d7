/// Why a worker has ended.
#[derive(Clone, Copy)]
pub enum LoopEnd {
    /// Each row is at its end.
    Done,
    /// No device can step, none is out, and a row is not at its end.
    Stalled,
    /// Another worker has stopped the trace.
    Stopped,
    /// Its memory ran out. It has stopped the trace, if a ticket was left for it.
    Memory,
    /// The lock has no ticket left.
    Spent,
}
