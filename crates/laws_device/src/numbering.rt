//! The message IDs of what a device sends.

ghost use Rattle.laws_device.specs.Numbering.{EventsNumberOn, RowsCountFrom0, StartsUnsent};

/// On each event, in the order of what is sent, each NON and each new CON has the device's next message ID, which then
/// advances by one, modulo 65,536; a CON that is sent again was sent to the same server before, byte for byte; an ACK
/// and a Reset have the message ID of the confirmable message that arrived. An observation keeps the token and the
/// message ID of its last message, which was sent to its server. So the messages of a device's own, from its start
/// through any events, have the message IDs 0, 1, 2 and so on, modulo 65,536, and two of them that are less than 65,536
/// apart never share one (`rows`). Presumed is that what arrives are bytes.
pub fn message_ids_count_on()
    ensures starts { StartsUnsent }
    ensures events { EventsNumberOn }
    ensures rows { RowsCountFrom0 }
{}
