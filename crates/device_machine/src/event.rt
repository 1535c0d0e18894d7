use lwm2m_values::Value;
use object_defs::Path;
use octets::Bytes;

/// What happens to a device.
#[derive(Clone, Drop)]
pub enum Event {
    /// A datagram arrives.
    Recv {
        /// The Short Server ID of the server that sent it.
        server: u16,
        /// The bytes of the datagram, of any length.
        bytes: Bytes,
    },
    /// A value changes, or comes to be there.
    Put {
        /// The path to the value, of three or four numbers.
        path: Path,
        /// The new value.
        value: Value,
    },
    /// The download or the update of the firmware ends with this code, the Update Result, from 0 to 9
    /// (OMA LwM2M 1.1 Core, Firmware Update; 0 says that the download is done).
    Firmware(u8),
    /// This many seconds pass.
    Tick(u32),
}
