//! Why a device notifies, and when it doesn't.

ghost use Rattle.laws_device.specs.Notifying.{CausedIsSent, JustReportedIsSettled, NotifiesForCause, OpenIsSentAgain};
ghost use Rattle.laws_device.specs.Notifying.{SecondsNotifyForCause, SecondsSendAgain, SecondsSendCaused};
ghost use Rattle.laws_device.specs.Notifying.{SettledAreQuiet};

/// Each datagram of a second, or of more in one of them, ends its observation, is its open notification once more, or
/// is a notification that has a cause: pmax has elapsed; or gt, lt or st is set, both reports have a number, and a
/// threshold was passed between them; or, if numbers are not compared, the payload differs from that of the last report
/// (`one`, `more`). If a closed observation has a cause, its last message is pmin seconds old or older and its present
/// answer is 2.05, then its notification is sent in that second (`sent`, `sent_in_more`).
pub fn notifies_for_cause()
    ensures one { NotifiesForCause }
    ensures more { SecondsNotifyForCause }
    ensures sent { CausedIsSent }
    ensures sent_in_more { SecondsSendCaused }
{}

/// An open notification is sent again in each second in which its observation resends.
pub fn sends_again()
    ensures one { OpenIsSentAgain }
    ensures more { SecondsSendAgain }
{}

/// As long as every observation is closed, its present answer is 2.05 and equals its last report, none has a pmax and
/// no st is 0 or below, nothing is sent in any number of seconds, and the observations and the next message ID stay
/// (`quiet`). What was just reported is in that state, if it has no pmax; a confirmable notification once it is
/// acknowledged (`reported`).
pub fn settled_are_quiet()
    ensures quiet { SettledAreQuiet }
    ensures reported { JustReportedIsSettled }
{}
