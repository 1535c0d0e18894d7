ghost use Rattle.std.specs.Prelude.{◌≡◌, ℕ, List};
ghost use Rattle.scenario_words.specs.Words.{words};
ghost use Rattle.debug_answers.specs.declared.command.Command.{Command};
ghost use Rattle.debug_answers.specs.Saying.{IsHelp, IsLineOf, IsSaidBy};
ghost use Rattle.debug_answers.specs.Spelling.{IsCommand, line_of, words_of};

/// The law of lines: the same words say at most one command (`at_most_one`), and the numbers of that one have their
/// bits (`numbers_fit`); `help` says none.
pub fn one_command()
    ensures at_most_one { (c d : Command) (ws : List (List ℕ)) → IsSaidBy c ws → IsSaidBy d ws → c ≡ d }
    ensures numbers_fit { (c : Command) (ws : List (List ℕ)) → IsSaidBy c ws → IsCommand c }
    ensures help_says_none { (c : Command) (line : List ℕ) → IsHelp line → IsLineOf c line → ⊥ }
{}

/// The law of written commands: every command whose numbers have their bits has words, which say it and are found again
/// in its line; so its line, if it is of printable characters without `#`, is read as this command.
pub fn commands_read_again()
    ensures words_say_it { (c : Command) → IsCommand c → IsSaidBy c (words_of c) }
    ensures words_found_again { (c : Command) → IsCommand c → words (line_of c) ≡ words_of c }
{}
