//! What an entry of an ACL grants, and to whom.

ghost use Rattle.laws_tables.specs.Entries.{CreatingIsOnOneNumber, DefaultSpeaksForTheRest};
ghost use Rattle.laws_tables.specs.Entries.{EntriesSpeakForOne, RightsAreGranted};
ghost use Rattle.laws_tables.specs.Rights.{AreLetters, LettersAreBits};

/// An entry of an ACL grants R, W, E, D and C exactly if its number is an odd multiple of 1, 2, 4, 8 or 16, and less
/// than that more: so the bits are those of two's complement (`bits`). 1 is R, 10 is W and D, 16 is C, -2 is all but R,
/// 32 is nothing (`examples`).
pub fn letters_are_bits()
    ensures bits { LettersAreBits }
    ensures examples { AreLetters }
{}

/// Alone a server has every right; with more accounts, on an instance of Access Control R and W as its owner and
/// otherwise R; on any other what the lowest instance of Access Control that refers to it grants: by the server's own
/// entry, or to its owner all, or by entry 0 (`rights`). Creating is asked of instance 65535 (`create`). An entry is of
/// no concern to another server (`own`), entry 0 to none that has an entry or is the owner (`rest`).
pub fn entries_speak_for_servers()
    ensures rights { RightsAreGranted }
    ensures create { CreatingIsOnOneNumber }
    ensures own { EntriesSpeakForOne }
    ensures rest { DefaultSpeaksForTheRest }
{}
