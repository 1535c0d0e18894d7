//! What follows of notifications, for those who observe. The calls do nothing; their contracts are
//! the laws.

ghost use Rattle.device_notifications.specs.ConfirmableLaws.{EvaluatesWithNons, LosesNothing, SendsFiveTimesAtMost};
ghost use Rattle.device_notifications.specs.ConfirmableLaws.{StaysClosedWithNons};
ghost use Rattle.device_notifications.specs.Laws.{CountsMessageIds, CountsObserveNumbers, KeepsOrder, SecondsAdd};
ghost use Rattle.device_notifications.specs.Laws.{FindsNoSending, FindsTheFirstSending, QuietSecondsChangeNothing};
ghost use Rattle.device_notifications.specs.Laws.{SecondsJump};
ghost use Rattle.device_notifications.specs.Laws.{SecondsCountObserveNumbers, SecondsSendAfterPmin};
ghost use Rattle.device_notifications.specs.Laws.{SecondsSendBeforePmax, SendsAfterPmin, SendsBeforePmax};
ghost use Rattle.device_notifications.specs.Reach.{OthersDoNotReach};

/// Each datagram of a second is a notification of an observation whose last message was pmin seconds old or older, or
/// ends its observation, or is its open notification once more. So is each datagram of more seconds, in one of them.
pub fn sends_after_pmin()
    ensures one { SendsAfterPmin }
    ensures more { SecondsSendAfterPmin }
{}

/// After a second, or more, no closed observation whose pmax applies has a last message that is pmax seconds old or
/// older, and no open one is 31 first timeouts or more past its first sending.
pub fn sends_before_pmax()
    ensures one { SendsBeforePmax }
    ensures more { SecondsSendBeforePmax }
{}

/// The observations that a second leaves are those before it, in their order, each as it was or notified. One is
/// removed only if it is evaluated and its present answer is not 2.05, or if the last timeout of its open notification
/// has passed. What differs from its last report inside pmin, or while it is open, is not lost: the report stays.
pub fn keeps_order()
    ensures { KeepsOrder }
{}

/// An observation that stays sent nothing, or its open notification once more, and is as it was; or it sent its Observe
/// number, one more than before, modulo 2^24. Through more seconds its numbers rise by one with each message, whatever
/// the others send in between, and a notification is sent again only until the next one; after the message that ends it
/// there is none, and what is left of it has the last number.
pub fn counts_observe_numbers()
    ensures turn { CountsObserveNumbers }
    ensures more { SecondsCountObserveNumbers }
{}

/// A second uses as many message IDs as it sends datagrams, modulo 65,536, but for those that it sends again.
pub fn counts_message_ids()
    ensures { CountsMessageIds }
{}

/// Of one open observation, with a first timeout above 0, that nothing answers, n seconds after its first sending have
/// sent the same bytes once more for each of 1, 3, 7 and 15 first timeouts that have passed; after 31 it is removed,
/// with no message.
pub fn sends_five_times_at_most()
    ensures { SendsFiveTimesAtMost }
{}

/// An observation that an acknowledgement closes is evaluated in the next second, by the report of the last
/// notification that was sent. So nothing is lost.
pub fn loses_nothing()
    ensures { LosesNothing }
{}

/// In a class whose notifications are Non-confirmable no observation is ever open, and a closed one is evaluated in
/// each second and sends each message once, as a NON.
pub fn never_opens_with_nons()
    ensures turn { EvaluatesWithNons }
    ensures closed { StaysClosedWithNons }
{}

/// n seconds, and m seconds after them, are n + m seconds.
pub fn seconds_add()
    ensures { SecondsAdd }
{}

/// Seconds in which nothing is due, by the present answers, send nothing, and leave the observations and
/// the next message ID as they were.
pub fn quiet_seconds_change_nothing()
    ensures { QuietSecondsChangeNothing }
{}

/// The second that `Observations::due` finds, where what was said is what the present answers are, is the first in
/// which something is sent, or an observation removed; those before it, and all where it finds none, change nothing. So
/// a tick has to visit exactly the seconds at which something is sent or removed.
pub fn due_is_the_first_sending()
    ensures first { FindsTheFirstSending }
    ensures none { FindsNoSending }
{}

/// Seconds in which something is due are the first second in which it is, and those after it.
pub fn seconds_jump()
    ensures { SecondsJump }
{}

/// The present answer of an observation and its periods depend on the instances and on the values that reach it: those
/// at and below its path, those of Access Control, and the Short Server IDs and default periods of Server. Where these
/// are the same, so are the answer and the periods, whatever the other values are.
pub fn others_do_not_reach()
    ensures { OthersDoNotReach }
{}
