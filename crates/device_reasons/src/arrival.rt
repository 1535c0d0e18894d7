//! What decides how a datagram is handled.

use coap_codec::CoapFault;
use request_reasons::Reason;

/// What decides how a device handles a datagram: the first condition of the table of docs/device/requests.md that
/// holds, down to rule 2; for a request that is not a repeat, what decides its answer.
#[derive(Drop)]
pub enum ArrivalReason {
    /// The server is not an account of the device, which sends and changes nothing.
    Stranger {
        /// The Short Server ID of the server.
        server: u16,
    },
    /// Rule 1: the bytes are not a message, but their header says CON. They get a Reset.
    MalformedCon {
        /// Why they are not a message.
        fault: CoapFault,
        /// The message ID of the header.
        mid: u16,
    },
    /// Rule 1: the bytes are not a message, and no header of version 1 says CON. They get nothing.
    Malformed {
        /// Why they are not a message.
        fault: CoapFault,
    },
    /// Rule 1: a CON that is Empty, or whose code class is not 0. It gets a Reset.
    OtherCon {
        /// Its code.
        code: u8,
        /// Its message ID.
        mid: u16,
    },
    /// Rule 1: a NON that is Empty, or whose code class is not 0. It gets nothing.
    OtherNon {
        /// Its code.
        code: u8,
    },
    /// Rule 1: an Empty Reset, which ends the observations of its server whose last message has its message ID.
    EmptyReset {
        /// Its message ID.
        mid: u16,
        /// How many observations it ends.
        ended: usize,
    },
    /// Rule 1: an Empty ACK, which closes the open observations of its server whose last message has its message ID.
    EmptyAck {
        /// Its message ID.
        mid: u16,
        /// Whether it closes one.
        closes: bool,
    },
    /// Rule 1: an ACK that is not Empty. It gets nothing.
    OtherAck {
        /// Its code.
        code: u8,
    },
    /// Rule 1: a Reset that is not Empty. It gets nothing.
    OtherReset {
        /// Its code.
        code: u8,
    },
    /// Rule 2: a CON that repeats a request. It gets the recorded reply again.
    RepeatedCon {
        /// Its message ID.
        mid: u16,
    },
    /// Rule 2: a NON that repeats a request. It gets nothing.
    RepeatedNon {
        /// Its message ID.
        mid: u16,
    },
    /// A request that is not a repeat.
    Request {
        /// What decides its answer.
        reason: Reason,
    },
}
