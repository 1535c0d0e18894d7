ghost use Rattle.std.specs.Prelude.{◌≡◌};
ghost use Rattle.device_firmware.specs.Firmware.{event_of_package, event_of_uri};

use lwm2m_values::Text;

/// What happens to the firmware of a device.
#[derive(Drop)]
pub enum FirmwareEvent {
    /// An empty Package, one of a single zero byte, or an empty Package URI is written.
    Cleared,
    /// Another Package is written. Its bytes are not kept.
    Package,
    /// Another Package URI is written: this one.
    Uri(Text),
    /// Update is executed.
    Update,
    /// A download or an update ends with this code, from 0 to 9. No other code is in the table.
    Ended(u8),
}

impl FirmwareEvent {
    /// Which event it is to write these bytes as the Package.
    pub fn of_package(bytes: &[u8]) -> FirmwareEvent
        ensures { result ≡ event_of_package bytes.now }
    {
        match bytes {
            [] => FirmwareEvent::Cleared,
            [byte] => {
                if *byte == 0 {
                    FirmwareEvent::Cleared
                } else {
                    FirmwareEvent::Package
                }
            }
            _ => FirmwareEvent::Package,
        }
    }

    /// Which event it is to write this text as the Package URI.
    pub fn of_uri(text: Text) -> FirmwareEvent
        ensures { result ≡ event_of_uri text }
    {
        if text.as_str().is_empty() {
            FirmwareEvent::Cleared
        } else {
            FirmwareEvent::Uri(text)
        }
    }
}
