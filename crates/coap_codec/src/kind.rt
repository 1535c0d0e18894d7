/// The type of a message (RFC 7252 section 3): confirmable, non-confirmable, acknowledgement, reset.
#[derive(Clone, Copy)]
pub enum Kind {
    Con,
    Non,
    Ack,
    Rst,
}
