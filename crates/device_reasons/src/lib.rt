//! Why a device handles a datagram as it does: what the bytes are, whether they repeat a request, and the rule that
//! decides the answer.
#![tactic(auto)]

mod arrival;
mod deciding;
mod laws;
mod rule;
mod text;

pub use arrival::ArrivalReason;
pub use deciding::arrival_reason;
pub use laws::reasons_decide;
pub use request_reasons::Reason;
pub use rule::arrival_rule;
pub use text::{arrival_reason_text, reason_line};
