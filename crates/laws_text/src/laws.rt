//! What follows from the definitions, for their readers. The calls do nothing; their contracts are the laws.

ghost use Rattle.laws_text.specs.FirstCause.{FaultsAreFirst};
ghost use Rattle.laws_text.specs.Held.{ClassesHoldWhatIsStated};
ghost use Rattle.laws_text.specs.Parts.{PartsAreSaid, PartsSayOne};
ghost use Rattle.laws_text.specs.SaidCause.{CausesAreSaid, LinesAreSaid};
ghost use Rattle.laws_text.specs.SameWords.{BlankLinesAddNothing, BlankLinesMoveFaults, OnlyWordsCount};
ghost use Rattle.laws_text.specs.WrongLine.{LaterLinesChangeNothing, NothingElseEndsWrong, NothingIsMissing};
ghost use Rattle.laws_text.specs.WrongLine.{RefusedAtFirstWrong};

/// A text is refused at line n exactly if some scenario's text begins with the lines before it and none with these and
/// that line; or if the text states nothing, and n is 1 (`line`). Whatever follows that line, the fault is the same
/// (`stays`). A text without words is the only one whose fault is found at its end (`nothing`, `end`).
pub fn refused_at_first_wrong_line()
    ensures line { RefusedAtFirstWrong }
    ensures stays { LaterLinesChangeNothing }
    ensures nothing { NothingIsMissing }
    ensures end { NothingElseEndsWrong }
{}

/// Texts with the same words in each line have the same scenario or fault (`words`). Lines without words change only
/// the numbers of lines (`scenario`, `fault`).
pub fn blank_lines_add_nothing()
    ensures words { OnlyWordsCount }
    ensures scenario { BlankLinesAddNothing }
    ensures fault { BlankLinesMoveFaults }
{}

/// The classes are, in order, what the lines from each `class` to the next `class` or `device` say, and the devices
/// what each `device` and the steps up to the next say. So what the lines say is one scenario (`one`).
pub fn parts_are_said()
    ensures said { PartsAreSaid }
    ensures one { PartsSayOne }
{}

/// A class has exactly the first timeout, accounts, objects, resources, instances and values that its lines state, in
/// whatever order.
pub fn classes_hold_what_is_stated()
    ensures { ClassesHoldWhatIsStated }
{}

/// The fault is that of the first line that cannot be read, or else the first that applies of four tables with a row
/// for each statement: what it needs is not stated, it does not fit, it was stated, a limit is reached.
pub fn faults_are_first()
    ensures { FaultsAreFirst }
{}

/// A line states just what its words say, by the relations of `laws_reading` (`lines`). It is refused exactly for the
/// first of its words that is wrong, or else by the first of the four tables of `faults_are_first` (`causes`).
pub fn causes_are_said()
    ensures lines { LinesAreSaid }
    ensures causes { CausesAreSaid }
{}
