//! The rule that decides how a datagram is handled.

ghost use Rattle.std.specs.Prelude.{◌≡◌};
ghost use Rattle.device_reasons.specs.Rules.{arrival_rule};

use crate::arrival::ArrivalReason;
use request_reasons::reason_rule;

/// The number of the rule that decides how a datagram is handled; none where its server is a stranger, or where no rule
/// refuses the request.
pub fn arrival_rule(reason: &ArrivalReason) -> Option<u8>
    ensures { result ≡ arrival_rule reason.now }
{
    match reason {
        ArrivalReason::Stranger { .. } => None,
        ArrivalReason::MalformedCon { .. }
        | ArrivalReason::Malformed { .. }
        | ArrivalReason::OtherCon { .. }
        | ArrivalReason::OtherNon { .. }
        | ArrivalReason::EmptyReset { .. }
        | ArrivalReason::EmptyAck { .. }
        | ArrivalReason::OtherAck { .. }
        | ArrivalReason::OtherReset { .. } => Some(1),
        ArrivalReason::RepeatedCon { .. } | ArrivalReason::RepeatedNon { .. } => Some(2),
        ArrivalReason::Request { reason } => reason_rule(reason),
    }
}
