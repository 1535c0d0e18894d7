//! Why a device notifies in a tick, and when it doesn't.

ghost use Rattle.laws_device.specs.Ticking.{DueEndsQuiet, QuietEndsWhenDue, QuietNeverEnds, SettledRowsAreQuiet};
ghost use Rattle.laws_device.specs.Ticking.{SilenceIsQuiet};
ghost use Rattle.laws_device.specs.Ticking.{SettledTicksAreQuiet};
ghost use Rattle.laws_device.specs.Ticking.{TicksAtRestAreQuiet, TicksNotifyForCause, TicksSendAgain, TicksSendCaused};

/// Each datagram of a tick notifies, in one of its seconds, an observation that exists then, for a cause as in
/// `notifies_for_cause`, or ends one, or is the open notification of one once more (`cause`). What has a cause in one
/// of the seconds, is not inside pmin and is 2.05 is sent, where the observation is closed (`sent`); and what is to be
/// sent again is (`again`).
pub fn ticks_notify_for_cause()
    ensures cause { TicksNotifyForCause }
    ensures sent { TicksSendCaused }
    ensures again { TicksSendAgain }
{}

/// A tick of a device whose observations are settled, as in `settled_are_quiet`, sends nothing, advances its clock and
/// changes nothing else.
pub fn settled_ticks_are_quiet()
    ensures { SettledTicksAreQuiet }
{}

/// As long as no event of a row changes what is managed or the observations, and these are settled at its start, no
/// tick of the row sends anything, however long it is and whatever else arrives.
pub fn settled_rows_are_quiet()
    ensures { SettledRowsAreQuiet }
{}

/// A tick of a device in whose seconds nothing is due, by the present answers of its observations, sends nothing,
/// advances the clock and changes nothing else.
pub fn ticks_at_rest_are_quiet()
    ensures { TicksAtRestAreQuiet }
{}

/// A second is the first in which something is due by the present answers exactly if every tick that ends before it is
/// quiet, and in one that ends with it something is sent or an observation is removed (`first`); nothing is ever due
/// exactly if every tick that ends below 2^64 is quiet (`none`). The same of the second that `Device::due` returns, and
/// of None (`said`, `silent`).
pub fn quiet_ends_when_due()
    ensures first { QuietEndsWhenDue }
    ensures none { QuietNeverEnds }
    ensures said { DueEndsQuiet }
    ensures silent { SilenceIsQuiet }
{}
