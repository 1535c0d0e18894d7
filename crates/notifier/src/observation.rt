ghost use Rattle.std.specs.Prelude.{◌≡◌};
ghost use Rattle.notifier.specs.Observed.{next_number};

use object_defs::Path;
use octets::Bytes;

/// What a message of an observation reported.
#[derive(Clone, Drop)]
pub struct Report {
    /// The payload.
    pub payload: Bytes,
    /// The number, where the observed resource is a single Integer or Time.
    pub number: Option<i64>,
}

/// What a confirmable notification is sent again by (RFC 7252 section 4.2).
#[derive(Clone, Drop)]
pub struct Timer {
    /// The bytes of the message.
    pub bytes: Bytes,
    /// The first timeout, in seconds.
    pub first: u8,
}

/// An observation (RFC 7641): a server's interest in a path, under a token.
#[derive(Clone, Drop)]
pub struct Observation {
    /// The Short Server ID of the server.
    pub server: u16,
    /// The token of the request.
    pub token: Bytes,
    /// What is observed.
    pub path: Path,
    /// The Content-Format that the request accepts, if it names one.
    pub accept: Option<u16>,
    /// What the last message reported.
    pub report: Report,
    /// The second of the last message.
    pub second: u64,
    /// The Observe number of the last message, from 0 to 2^24 - 1.
    pub number: u32,
    /// Whether the last message was a NON.
    pub non: bool,
    /// The message ID of the last message.
    pub mid: u16,
    /// Set while the last message is a CON that no acknowledgement has answered: the observation is open.
    /// `second` is that of its first sending.
    pub timer: Option<Timer>,
}

/// The Observe number after this one.
pub(crate) fn next_number(number: u32) -> u32
    ensures { result ≡ next_number number }
{
    if number == u32::MAX {
        0
    } else {
        (number + 1) % 16_777_216
    }
}

impl Observation {
    /// The Observe number of the next message: one more, modulo 2^24 (RFC 7641 section 4.4).
    pub fn next_number(&self) -> u32
        ensures { result ≡ next_number self.now.number }
    {
        next_number(self.number)
    }
}
