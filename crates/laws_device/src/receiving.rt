//! What a device does on a datagram.

ghost use Rattle.laws_device.specs.Receiving.{ArrivalsAreOne, ReactionsAreOne, ReactionsAreSaid};

/// What a device does on a datagram is exactly what one record says in the words of RFC 7252 (`said`): what the bytes
/// are to the device (ignored, rejected by a Reset, an Empty ACK, an Empty Reset, a repeated request, a request that
/// repeats none), and by that the reply, the act that follows, what is recorded, the next message ID, the observations,
/// what is managed, and the clock. So there is one such reaction (`one`), and bytes are one of these (`arrival`).
/// Presumed is that what arrives are bytes.
pub fn reactions_are_said()
    ensures said { ReactionsAreSaid }
    ensures one { ReactionsAreOne }
    ensures arrival { ArrivalsAreOne }
{}
