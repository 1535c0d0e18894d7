//! Why an observation sends or ends.

ghost use Rattle.std.specs.Prelude.{◌≡◌};
ghost use Rattle.notification_reasons.specs.Reasons.{sends};

use object_defs::Path;

/// Why content is due: the first of gt, lt and st that holds of the last report and the present value, or what else it
/// is.
#[derive(Clone, Copy)]
pub enum DueBy {
    /// One of the numbers is above gt, and the other is not.
    Gt {
        /// The number that was last reported.
        old: i64,
        /// The present number.
        now: i64,
        /// The attribute, in thousandths.
        gt: i64,
    },
    /// One of the numbers is below lt, and the other is not.
    Lt {
        /// The number that was last reported.
        old: i64,
        /// The present number.
        now: i64,
        /// The attribute, in thousandths.
        lt: i64,
    },
    /// The numbers are st or more apart.
    St {
        /// The number that was last reported.
        old: i64,
        /// The present number.
        now: i64,
        /// The attribute, in thousandths.
        st: i64,
    },
    /// The payload is another one, where there are no two numbers or no condition on them.
    Payload,
    /// Nothing triggers, but the maximum period has elapsed.
    Pmax {
        /// The maximum period, in seconds.
        pmax: u64,
    },
}

/// Why an observation sends something or ends in a second (docs/device/observe.md).
#[derive(Clone, Copy)]
pub enum NotificationReason {
    /// Its present answer is content, and due.
    Due {
        /// What makes it due.
        by: DueBy,
        /// How many seconds old the last message of the observation is.
        age: u64,
        /// The minimum period, in seconds, which is not above the age.
        pmin: u64,
    },
    /// Its open notification is sent again (RFC 7252 section 4.2).
    Resent {
        /// Which of the four resendings this is, from 1.
        times: u8,
        /// How many seconds after the first sending.
        after: u64,
    },
    /// Its present answer is not content: with that answer the observation ends.
    Ended {
        /// The code of the answer.
        code: u8,
    },
    /// All timeouts of its open notification have passed: it ends, and nothing is sent (RFC 7641 section 4.5).
    Unacknowledged {
        /// How many seconds after the first sending.
        after: u64,
    },
}

impl NotificationReason {
    /// Whether a datagram is sent for the reason: not for the end of an observation that nobody acknowledged.
    pub fn sends(self) -> bool
        ensures { result ≡ sends self }
    {
        match self {
            NotificationReason::Due { .. }
            | NotificationReason::Resent { .. }
            | NotificationReason::Ended { .. } => true,
            NotificationReason::Unacknowledged { .. } => false,
        }
    }
}

/// What happens to an observation by itself: a datagram that a device sends for it, or its end.
#[derive(Clone, Copy)]
pub struct Happening {
    /// What is observed.
    pub path: Path,
    /// The second in which it happens.
    pub second: u64,
    /// Why it happens.
    pub reason: NotificationReason,
}
