//! The ends of datagrams on the network of a capture.

ghost use Rattle.std.specs.Prelude.{◌≡◌};
ghost use Rattle.trace_pcap.specs.Ends.{device_end, server_end};

use udp_capture::Endpoint;

/// Where a server is: at 10.0.x.y, by its number, at the port of CoAP.
pub(crate) fn server_end(server: u16) -> Endpoint
    ensures { result ≡ server_end server }
{
    Endpoint {
        address: 0x0A00_0000 + u32::from(server),
        port: 5683,
    }
}

/// Where a device is: at 10.1.x.y, by its number, at one of the dynamic ports.
pub(crate) fn device_end(device: u16) -> Endpoint
    ensures { result ≡ device_end device }
{
    Endpoint {
        address: 0x0A01_0000 + u32::from(device),
        port: 49152 + device % 16384,
    }
}
