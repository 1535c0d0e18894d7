ghost use Rattle.std.specs.Prelude.{◌≡◌, Ok, Some};
ghost use Rattle.scenario_words.specs.Words.{words, IsLine};
ghost use Rattle.scenario_statements.specs.declared.statement.Statement.{Statement};
ghost use Rattle.scenario_statements.specs.Grammar.{statement_of};
ghost use Rattle.scenario_statements.specs.Spelling.{IsSayable, line_of, words_of_statement};

/// The law of statements: the words of a statement that is written are found again, stand in one line, and are read as
/// this statement; so two statements that are written alike are one.
pub fn statements_read_again()
    ensures words { (s : Statement) → IsSayable s → words (line_of s) ≡ words_of_statement s }
    ensures line { (s : Statement) → IsSayable s → IsLine (line_of s) }
    ensures statement { (s : Statement) → IsSayable s → statement_of (words_of_statement s) ≡ Ok (Some s) }
{}
