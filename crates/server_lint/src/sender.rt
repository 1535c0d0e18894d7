/// Who sent a datagram.
#[derive(Clone, Copy)]
pub enum Sender {
    /// A server, to the device.
    Server,
    /// The device, to a server.
    Device,
}
