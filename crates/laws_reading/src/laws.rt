ghost use Rattle.std.specs.Prelude.{◌≡◌, ◌<◌, ◌↔◌, ℕ, List, Ok, Some};
ghost use Rattle.std.specs.Fmt.{decimal};
ghost use Rattle.coap_codec.specs.Message.{IsWellFormed, Message, spelling};
ghost use Rattle.coap_codec.specs.Reading.{reading_of};
ghost use Rattle.object_defs.specs.Decimal.{decimal_number};
ghost use Rattle.laws_reading.specs.Line.{LinesHaveWords};
ghost use Rattle.laws_reading.specs.Queries.{ChangesAreSaid, FirstFaultDecides, QueriesAreSaid};
ghost use Rattle.laws_reading.specs.Statements.{StatementsAreSaid};
ghost use Rattle.laws_reading.specs.WrongStatements.{WrongStatementsAreSaid};
ghost use Rattle.laws_reading.specs.WrongWords.{BytesAreHex, ConIsNamed, IntegersFit, KindsAreNamed, LinksArePairs};
ghost use Rattle.laws_reading.specs.WrongWords.{MandatoryIsNamed, MultipleIsNamed, NumbersAreWithin};
ghost use Rattle.laws_reading.specs.WrongWords.{OperationsAreNamed, PathsAreSlashed, TextsAreQuoted};

/// Every well-formed message is read from the bytes that spell it.
pub fn messages_read_again()
    ensures { (m : Message) → IsWellFormed m → reading_of (spelling m) ≡ Ok m }
{}

/// A path segment is read as a number exactly if it is that number's decimal form, of 16 bits.
pub fn decimals_are_read()
    ensures { (segment : List ℕ) (n : ℕ) → (decimal_number segment ≡ Some n) ↔ ((segment ≡ decimal n) × (n < 65536)) }
{}

/// A query of a Write-Attributes is read as a change exactly if it says it: a name alone unsets the attribute; a name,
/// `=` and a number of that name's form and range sets it; the name stands at the level.
pub fn queries_are_said()
    ensures { QueriesAreSaid }
{}

/// Queries are read as changes exactly if each says its own, no two of one name (`changes`). They have a fault exactly
/// if the first one that says no such change has it: no known name, or else a name that is there before, or else a text
/// that says no number, or else a level at which the name does not stand (`fault`).
pub fn first_fault_decides()
    ensures changes { ChangesAreSaid }
    ensures fault { FirstFaultDecides }
{}

/// A line is cut into words exactly if it is made of them: spaces, a word without spaces or one that begins with a
/// quoted text, then a space or the end; after them a comment or nothing. A quote that is not closed makes the rest of
/// the line one word.
pub fn lines_have_words()
    ensures { LinesHaveWords }
{}

/// Words are read as a statement exactly if they say it, so no other spelling is taken than in hex of either case and
/// escapes in quotes. That holds of the words of mnemonics too.
pub fn statements_are_said()
    ensures { StatementsAreSaid }
{}

/// A word is refused exactly if it does not have the form of a word in its place (`Token`), or has it and is none of
/// the words that are allowed there, with a clause for each kind of word. A name has bytes 21 to 7E or is a quoted text
/// (`UnknownWord`); numbers, paths and links are of decimal numbers without needless zeros, of any size and sign
/// (`Range`); of bytes in hex and of quoted texts the form is all.
pub fn wrong_words_are_said()
    ensures con { ConIsNamed }
    ensures operations { OperationsAreNamed }
    ensures multiple { MultipleIsNamed }
    ensures mandatory { MandatoryIsNamed }
    ensures kinds { KindsAreNamed }
    ensures numbers { NumbersAreWithin }
    ensures integers { IntegersFit }
    ensures paths { PathsAreSlashed }
    ensures links { LinksArePairs }
    ensures bytes { BytesAreHex }
    ensures texts { TextsAreQuoted }
{}

/// The words of a line are refused exactly if the first is not a keyword, or if of the places that its statement or
/// mnemonic has one is filled by a wrong word and those before it are not, or has no word (`Missing`), or if there is a
/// word too many (`Token`); so the first wrong word from the left decides. The queries of an `attr` are wrong (`Token`)
/// if any of them is.
pub fn wrong_statements_are_said()
    ensures { WrongStatementsAreSaid }
{}
