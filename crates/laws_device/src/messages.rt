//! What a device sends are messages.

ghost use Rattle.laws_device.specs.Messages.{DatagramsAreMessages, StartsSound};

/// As long as what arrives are bytes, each datagram of a device spells one message and is read as that message: from a
/// state whose next message ID is below 65,536, whose observations have tokens of at most 8 bytes and open
/// notifications that are messages, and whose recorded replies are messages. Each event leaves such a state (`events`),
/// and a device starts in one (`starts`). Presumed of a Create that is done is that object and instance have numbers of
/// at most five digits.
pub fn datagrams_are_messages()
    ensures starts { StartsSound }
    ensures events { DatagramsAreMessages }
{}
