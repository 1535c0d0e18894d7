//! What follows from the table of firmware updates, for its readers. The calls do nothing; their contracts are the
//! laws.

ghost use Rattle.device_firmware.specs.Laws.{ClearingIsTaken, OutcomeIsHeld, UriIsHeld, OthersStay};

/// Where the instance exists, clearing is taken, whatever State holds.
pub fn clearing()
    ensures { ClearingIsTaken }
{}

/// After an event the State and the Update Result are those of the table, and the Package URI is the new one if there
/// is one, otherwise as it was.
pub fn after_event()
    ensures outcome { OutcomeIsHeld }
    ensures uri { UriIsHeld }
{}

/// An event changes no other value, that of Package included, and no instance. The bytes of a Package are not kept.
pub fn others()
    ensures { OthersStay }
{}
