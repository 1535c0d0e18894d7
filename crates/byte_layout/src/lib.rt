//! Formats of bytes, field by field: how a value is spelled, which values have a spelling, where other bytes break off,
//! and the fields that formats share, read and written. docs/inside/layouts.md has it in words.
#![tactic(auto)]

mod fault;
mod format;
mod items;
mod laws;
mod reading;
mod writing;

pub use fault::{Break, LayoutFault, ReadError, fault_at};
pub use format::{Format, load};
pub use items::{Items, PutItems, items_at, put_items};
pub use laws::{exact_fields, one_reading};
pub use reading::{bytes_at, i64_at, u8_at, u8_at_most, u16_at, u16_at_most, u32_at};
pub use writing::{put_bytes, put_i64, put_u8, put_u16, put_u32};
