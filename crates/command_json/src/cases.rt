//! The words of a refusal of a file of cases.
ghost use Rattle.std.specs.Prelude.{◌≡◌, ◌++◌, codes, IfOk};
ghost use Rattle.std.specs.String.{string_bytes};
ghost use Rattle.command_files.specs.FaultLine.{case_cause, case_word, word_with_cause};

use case_text::Why;
use command_files::{case_cause, case_word};
use scenario_words::cause_words;
use std::alloc::{AllocError, Global};

fn with_cause(alloc: Global, word: &str, cause: &str) -> Result<String, AllocError>
    ensures { IfOk result (λ t. string_bytes t ≡ word.now ++ codes ": " ++ cause.now) }
{
    format!(in alloc; "{word}: {cause}")
}

/// Why a line of a file of cases is refused.
pub(crate) fn case_words(alloc: Global, why: Why) -> Result<String, AllocError>
    ensures { IfOk result (λ t. string_bytes t ≡ word_with_cause (case_word why) (case_cause why)) }
{
    match case_cause(why) {
        Some(cause) => with_cause(alloc, case_word(why), cause_words(cause)),
        None => String::from_str(alloc, case_word(why)),
    }
}
