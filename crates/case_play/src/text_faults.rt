//! Why a text is refused, in the words of a case.

ghost use Rattle.std.specs.Prelude.{◌≡◌, IfOk};
ghost use Rattle.std.specs.String.{string_bytes};
ghost use Rattle.case_play.specs.FaultWords.{line_and_word, text_fault_words};

use scenario_asm::AsmFault;
use scenario_words::cause_words;
use std::alloc::{AllocError, Global};

fn line_and_word(alloc: Global, line: usize, word: &str) -> Result<String, AllocError>
    ensures { IfOk result (λ words. string_bytes words ≡ line_and_word line word.now) }
{
    format!(in alloc; "line {line} {word}")
}

/// The line that is refused, and the cause.
pub(crate) fn text_fault_words(alloc: Global, fault: AsmFault) -> Result<String, AllocError>
    ensures { IfOk result (λ words. string_bytes words ≡ text_fault_words fault) }
{
    line_and_word(alloc, fault.line, cause_words(fault.cause))
}
