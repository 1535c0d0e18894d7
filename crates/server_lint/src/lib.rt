//! What a server did wrong in the history of a device, by rules of RFC 7252 and RFC 7641.
#![tactic(auto)]

mod breaking;
mod earlier;
mod finding;
mod laws;
mod observing;
mod pairs;
mod path;
mod rule;
mod sender;
mod single;
mod text;
mod transmission;

pub use finding::{Finding, find_broken};
pub use laws::{all_are_findings, all_findings_are_there};
pub use rule::{RULES, Rule};
pub use sender::Sender;
pub use text::finding_text;
pub use transmission::Transmission;
