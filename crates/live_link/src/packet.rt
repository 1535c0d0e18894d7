use octets::Bytes;

/// A datagram on a wire, and the server at the other end of the wire.
#[derive(Clone, Drop)]
pub struct Packet {
    /// The Short Server ID of the server that it comes from or goes to.
    pub server: u16,
    /// Its bytes.
    pub bytes: Bytes,
}
