use coap_codec::Message;
use octets::Bytes;

/// A datagram that arrives at a device.
#[derive(Drop)]
pub struct Arrival {
    /// The second of the device in which it arrives.
    pub second: u64,
    /// The Short Server ID of the server that sent it.
    pub server: u16,
    /// Its bytes.
    pub bytes: Bytes,
    /// The message that its bytes spell, if they spell one.
    pub message: Option<Message>,
}
