//! Why a device answers a request as it does: the rule that decides, and what the rule read.
#![tactic(auto)]

mod deciding;
mod format;
mod invalid;
mod length_words;
mod limit;
mod options;
mod payload_words;
mod queries;
mod reasons;
mod right;
mod rule;
mod target;
mod text;
mod tlv_words;
mod unfit;
mod uri_path;
mod words;

pub use deciding::reason;
pub use format::Served;
pub use limit::{FirmwareState, Limit};
pub use options::OptionFault;
pub use reasons::{Reason, Rule};
pub use right::{Grant, Letter};
pub use rule::reason_rule;
pub use target::Missing;
pub use text::reason_text;
pub use unfit::{Standing, Unfit};
pub use uri_path::PathFault;
