//! What Non-confirmable and Confirmable notifications are to a device.

ghost use Rattle.laws_device.specs.Confirming.{NonsIgnoreAcks, StartsWithNons, StaysWithNons, TicksSendNons};
ghost use Rattle.laws_device.specs.Confirming.{UnansweredIsSentFiveTimes};

use device_notifications::sends_five_times_at_most;

/// A device whose class sends Non-confirmable notifications never has an open observation (`starts`, `stays`); whatever
/// happens, all that it sends in ticks is Non-confirmable (`sent`), and it ignores each ACK (`ignored`).
pub fn nons_await_nothing()
    ensures starts { StartsWithNons }
    ensures stays { StaysWithNons }
    ensures sent { TicksSendNons }
    ensures ignored { NonsIgnoreAcks }
{}

/// For a device with one observation, whose notification was just sent, is open and is not answered: in a tick the same
/// bytes are sent again 1, 3, 7 and 15 first timeouts later and at no other time, and after 31 the observation is
/// removed and nothing is sent.
pub fn unanswered_are_sent_five_times()
    ensures { UnansweredIsSentFiveTimes }
{
    sends_five_times_at_most();
}
