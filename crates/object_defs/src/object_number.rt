//! The numbers of the base objects (OMA LwM2M 1.1 Core).

/// Security.
pub const SECURITY: u16 = 0;

/// Server.
pub const SERVER: u16 = 1;

/// Access Control.
pub const ACCESS_CONTROL: u16 = 2;

/// Device.
pub const DEVICE: u16 = 3;

/// Firmware Update.
pub const FIRMWARE_UPDATE: u16 = 5;
