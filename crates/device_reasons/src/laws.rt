//! What follows from the definitions, for their readers. The calls do nothing; their contracts are the laws.

ghost use Rattle.device_reasons.specs.Laws.{ReasonsDecide};

/// A reason decides what the device does: nothing is sent to a stranger, to bytes that are not a message and do not
/// claim a CON, to a NON that is not a request or is a repeat, and to an ACK or a Reset; what claims a CON and is not a
/// request gets a Reset with its message ID; a repeated CON gets the recorded reply; a first request the answer of the
/// first rule that applies. Only that request, an Empty Reset and an Empty ACK change something.
pub fn reasons_decide()
    ensures { ReasonsDecide }
{}
