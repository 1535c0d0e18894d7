//! Why a device sends something by itself, as seconds pass, or ends an observation: a trigger, a period, a resending,
//! an answer that is not content, or no acknowledgement.
#![tactic(auto)]

mod finding;
mod laws;
mod reasons;
mod text;
mod ticks;

pub use finding::turn_reason;
pub use laws::{reasons_are_for_doing, reasons_are_single, ticks_do_these};
pub use reasons::{DueBy, Happening, NotificationReason};
pub use text::{happening_line, happening_text};
pub use ticks::tick_happenings;
