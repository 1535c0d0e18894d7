//! The numbers of the options that are known here (RFC 7252 section 5.10, RFC 7641 section 2).

/// Uri-Host.
pub const URI_HOST: u16 = 3;

/// Observe.
pub const OBSERVE: u16 = 6;

/// Uri-Port.
pub const URI_PORT: u16 = 7;

/// Location-Path.
pub const LOCATION_PATH: u16 = 8;

/// Uri-Path.
pub const URI_PATH: u16 = 11;

/// Content-Format.
pub const CONTENT_FORMAT: u16 = 12;

/// Uri-Query.
pub const URI_QUERY: u16 = 15;

/// Accept.
pub const ACCEPT: u16 = 17;
