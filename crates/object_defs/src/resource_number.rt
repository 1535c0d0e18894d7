//! The numbers of those resources of the base objects for which there are rules (OMA LwM2M 1.1 Core).

/// Short Server ID, of Server.
pub const SHORT_SERVER_ID: u16 = 0;

/// Default Minimum Period, of Server.
pub const DEFAULT_MINIMUM_PERIOD: u16 = 2;

/// Default Maximum Period, of Server.
pub const DEFAULT_MAXIMUM_PERIOD: u16 = 3;

/// Disable, of Server.
pub const DISABLE: u16 = 4;

/// Registration Update Trigger, of Server.
pub const REGISTRATION_UPDATE_TRIGGER: u16 = 8;

/// Object ID, of Access Control.
pub const OBJECT_ID: u16 = 0;

/// Object Instance ID, of Access Control.
pub const OBJECT_INSTANCE_ID: u16 = 1;

/// ACL, of Access Control.
pub const ACL: u16 = 2;

/// Access Control Owner, of Access Control.
pub const ACCESS_CONTROL_OWNER: u16 = 3;

/// Reboot, of Device.
pub const REBOOT: u16 = 4;

/// Factory Reset, of Device.
pub const FACTORY_RESET: u16 = 5;

/// Error Code, of Device.
pub const ERROR_CODE: u16 = 11;

/// Reset Error Code, of Device.
pub const RESET_ERROR_CODE: u16 = 12;

/// Package, of Firmware Update.
pub const PACKAGE: u16 = 0;

/// Package URI, of Firmware Update.
pub const PACKAGE_URI: u16 = 1;

/// Update, of Firmware Update.
pub const UPDATE: u16 = 2;

/// State, of Firmware Update.
pub const UPDATE_STATE: u16 = 3;

/// Update Result, of Firmware Update.
pub const UPDATE_RESULT: u16 = 5;
