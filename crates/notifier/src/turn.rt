//! What an observation does in a second: one whose last message waits for an acknowledgement sends it again.

ghost use Rattle.std.specs.Prelude.{◌≡◌};
ghost use Rattle.notification_times.specs.First.{IsFirst};
ghost use Rattle.notifier.specs.Due.{acts_at};
ghost use Rattle.notifier.specs.Resending.{turn_at, turn_of_resending};

use crate::observation::Observation;
use crate::pending::{Outlook, due_of};
use notification_times::{is_resent, is_timed_out, next_resending};

/// What an observation does in a second.
#[derive(Clone, Copy)]
pub enum Turn {
    /// It is evaluated: what it sends is up to its present answer.
    Evaluate,
    /// It waits for an acknowledgement, and sends nothing.
    Wait,
    /// It sends its last message again, with the same bytes.
    Resend,
    /// It is removed, and sends nothing.
    Expire,
}

/// What is done in the second that the clock shows for a notification that was first sent at `second`.
fn resending(second: u64, first: u8, clock: u64) -> Turn
    ensures { result ≡ turn_of_resending second first clock }
{
    if is_timed_out(second, first, clock) {
        Turn::Expire
    } else if is_resent(second, first, clock) {
        Turn::Resend
    } else {
        Turn::Wait
    }
}

/// The first second after `now` at which an observation sends, or is removed, by what was last said of it.
pub(crate) fn next_of(now: u64, observation: &Observation, outlook: &Outlook) -> Option<u64>
    ensures { IsFirst (acts_at observation.now outlook.now) now result }
{
    match &observation.timer {
        Some(timer) => next_resending(now, observation.second, timer.first),
        None => due_of(now, observation.second, outlook),
    }
}

impl Observation {
    /// What the observation does in the second that the clock shows.
    pub(crate) fn turn(&self, clock: u64) -> Turn
        ensures { result ≡ turn_at self.now clock }
    {
        match &self.timer {
            Some(timer) => resending(self.second, timer.first, clock),
            None => Turn::Evaluate,
        }
    }
}
