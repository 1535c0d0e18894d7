//! To whom a device sends, and on which events it sends nothing.

ghost use Rattle.laws_device.specs.Sending.{FirmwareSendsNothing, OnlyTheAskerIsAnswered, PutsSendNothing};
ghost use Rattle.laws_device.specs.Sending.{StrangersAreIgnored};

/// A datagram of a server without an account gets nothing and changes nothing.
pub fn strangers_are_ignored()
    ensures { StrangersAreIgnored }
{}

/// Whatever a server sends, nothing is sent for it to another.
pub fn only_the_asker_is_answered()
    ensures { OnlyTheAskerIsAnswered }
{}

/// A put, or the end of a download or an update of the firmware, sends nothing and changes values alone, neither
/// instances nor attributes nor observations; or it changes nothing, and the device only says `missed`.
pub fn changes_send_nothing()
    ensures put { PutsSendNothing }
    ensures firmware { FirmwareSendsNothing }
{}
