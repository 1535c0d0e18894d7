use crate::job::Job;

/// What a claim answers.
pub enum Claim {
    /// A device that was parked and can step, the lowest such, now out with this job.
    Got(Job),
    /// No parked device can step, and one is out.
    Busy,
    /// Each row is at its end.
    Done,
    /// No device is out and none can step, and some row is not at its end.
    Stalled,
    /// The trace was stopped.
    Stopped,
}
