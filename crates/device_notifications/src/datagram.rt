use octets::Bytes;

/// A datagram on its way to a server.
#[derive(Clone, Drop)]
pub struct Datagram {
    /// The Short Server ID of the server that it goes to.
    pub server: u16,
    /// Its bytes.
    pub bytes: Bytes,
}
