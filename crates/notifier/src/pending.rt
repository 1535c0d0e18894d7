//! The first second at which an observation sends or is removed, by what was last said of its present answer.

ghost use Rattle.std.specs.Prelude.{◌≡◌, ℕ, ◌-◌, nat_le, false};
ghost use Rattle.std.specs.Option.{option_map_or};
ghost use Rattle.notifier.specs.Trigger.{is_due};
ghost use Rattle.notification_times.specs.First.{IsFirst};
ghost use Rattle.notifier.specs.Due.{is_due_at};
ghost use Rattle.notifier.specs.Said.{initial_outlook};

use crate::trigger::is_due;
use notification_times::first_at;

/// What the present answer of an observation is, that of a GET of its path by its server, beside what the
/// observation last reported.
#[derive(Clone, Copy)]
pub enum Pending {
    /// It is content that does not trigger.
    Idle,
    /// It is content that triggers.
    Changed,
    /// It is no content, but an answer of this code: it is sent at once, and the observation is removed.
    Gone(u8),
}

/// What was last said of an observation.
#[derive(Clone, Copy)]
pub struct Outlook {
    /// What its present answer is.
    pub pending: Pending,
    /// The minimum period, in seconds.
    pub pmin: u64,
    /// The maximum period, in seconds, if there is one.
    pub pmax: Option<u64>,
}

impl Outlook {
    /// What is said of an observation whose reply has just registered it: nothing is pending, and there is no period.
    pub(crate) fn unsaid() -> Outlook
        ensures { result ≡ initial_outlook }
    {
        Outlook {
            pending: Pending::Idle,
            pmin: 0,
            pmax: None,
        }
    }

    /// Whether an observation whose last message is of `second`, and which is not open, sends, or is removed, at the
    /// second that the clock shows.
    pub fn is_due(&self, second: u64, clock: u64) -> bool
        ensures { result ≡ is_due_at second self.now clock }
    {
        let age = clock.saturating_sub(second);
        match self.pending {
            Pending::Idle => is_due(age, self.pmin, self.pmax, false),
            Pending::Changed => is_due(age, self.pmin, self.pmax, true),
            Pending::Gone(_) => true,
        }
    }
}

/// How old the last message of an observation is when content is sent, if it comes to be sent.
fn wait_of(pmin: u64, pmax: Option<u64>, triggered: bool) -> Option<u64>
    ensures { (age : ℕ) → is_due age pmin pmax triggered ≡ option_map_or (λ wait. nat_le wait age) result false }
{
    if triggered {
        return Some(pmin);
    }
    let pmax = pmax?;
    if 0 < pmax && pmin <= pmax {
        Some(pmax)
    } else {
        None
    }
}

/// The first second after `now` at which content is sent, triggered or not, of an observation whose last message is of
/// `second`.
fn content_due(now: u64, second: u64, pmin: u64, pmax: Option<u64>, triggered: bool) -> Option<u64>
    ensures { IsFirst (λ clock. is_due (clock - second) pmin pmax triggered) now result }
{
    let wait = wait_of(pmin, pmax, triggered)?;
    first_at(now, second, wait)
}

/// The first second after `now` at which an observation sends, or is removed, whose last message is of `second`, and
/// which is not open.
pub(crate) fn due_of(now: u64, second: u64, outlook: &Outlook) -> Option<u64>
    ensures { IsFirst (is_due_at second outlook.now) now result }
{
    match outlook.pending {
        Pending::Idle => content_due(now, second, outlook.pmin, outlook.pmax, false),
        Pending::Changed => content_due(now, second, outlook.pmin, outlook.pmax, true),
        Pending::Gone(_) => now.checked_add(1),
    }
}
