/// One end of a datagram's way: an address of IPv4, its first byte the highest, and a port of UDP.
#[derive(Clone, Copy)]
pub struct Endpoint {
    /// The address.
    pub address: u32,
    /// The port.
    pub port: u16,
}

/// When a datagram was captured, and between whom it went.
#[derive(Clone, Copy)]
pub struct Envelope {
    /// The whole seconds of its time.
    pub seconds: u32,
    /// The microseconds beside them.
    pub microseconds: u32,
    /// Where it comes from.
    pub source: Endpoint,
    /// Where it goes.
    pub destination: Endpoint,
}
