use crate::packet::Packet;
use scenario_image::Step;

/// How a session ended.
#[derive(Clone, Copy)]
pub enum LiveEnd {
    /// All turns were made.
    Turns,
    /// The wire failed at a receive.
    ReceiveFault,
    /// The wire failed at a send.
    SendFault,
    /// No memory was left.
    Memory,
    /// The device was spent, or a tick would have taken its clock past its last second.
    Spent,
}

/// What a device did on a wire.
#[derive(Drop)]
pub struct LiveSession {
    /// The steps that the device took, in order.
    pub steps: Vec<Step>,
    /// The datagrams that the wire took in, in order.
    pub sent: Vec<Packet>,
    /// How it ended.
    pub end: LiveEnd,
}
