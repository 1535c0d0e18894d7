//! The table of firmware updates.

ghost use Rattle.laws_tables.specs.Firmware.{LinesHold, OtherCodesAreRefused, StartsAsCleared};
ghost use Rattle.laws_tables.specs.Firmware.{WritesAreEvents};

/// Each line of a table holds of every store: an event, the States in which it is taken, and the Package URI, the State
/// and the Update Result that follow; all else stays, and in the other States the event is not taken (`lines`). Codes
/// above 9 are not taken (`others`). Which Writes are which event (`writes`). A device starts as one whose firmware was
/// cleared (`start`).
pub fn firmware_follows_its_table()
    ensures lines { LinesHold }
    ensures others { OtherCodesAreRefused }
    ensures writes { WritesAreEvents }
    ensures start { StartsAsCleared }
{}
