//! What follows from the definitions, for their readers. The calls do nothing; their contracts are the laws.

ghost use Rattle.notification_reasons.specs.Laws.{ReasonsAreForDoing, ReasonsAreSingle, ReasonsSayWhatIsDone};
ghost use Rattle.notification_reasons.specs.Laws.{TicksDoThese};

/// In a second something is sent for an observation, or it is changed or removed, exactly if there is a reason for it:
/// content that is due, a resending, or an end. For the end of one that nobody acknowledged nothing is sent, and it is
/// removed; for any other reason one datagram is sent.
pub fn reasons_are_for_doing()
    ensures exactly { ReasonsAreForDoing }
    ensures done { ReasonsSayWhatIsDone }
{}

/// There is one reason at most.
pub fn reasons_are_single()
    ensures { ReasonsAreSingle }
{}

/// A tick outputs the datagrams of its happenings, in their order, and nothing else: one for each reason for which one
/// is sent. Each is what the observation of its happening sends in that second.
pub fn ticks_do_these()
    ensures { TicksDoThese }
{}
