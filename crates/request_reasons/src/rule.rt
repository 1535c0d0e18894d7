//! The rule that decides an answer.

ghost use Rattle.std.specs.Prelude.{◌≡◌};
ghost use Rattle.request_reasons.specs.Rules.{reason_rule};

use crate::reasons::Reason;
use crate::text::rule_number;

/// The number of the rule that decides the answer; none where no rule refuses the request, so that its operation is
/// done.
pub fn reason_rule(reason: &Reason) -> Option<u8>
    ensures { result ≡ reason_rule reason.now }
{
    match reason {
        Reason::Unrecognized { .. } => Some(3),
        Reason::NoPath { .. } => Some(4),
        Reason::NoOperation { .. } => Some(5),
        Reason::Refused { rule, .. } => Some(rule_number(rule)),
        Reason::Done { .. } => None,
    }
}
