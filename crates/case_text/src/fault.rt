use scenario_words::Cause;
use std::alloc::{AllocError, AllocFailed};

/// Why a file of cases is refused.
#[derive(Clone, Copy)]
pub enum Why {
    /// The line is not UTF-8.
    NotText,
    /// What stands after `=>` or `=/>` is not an answer.
    NotAnAnswer(Cause),
    /// What stands after `?` is not a question with an answer to it.
    NotAQuestion(Cause),
    /// What stands after `!` is not an event.
    NotAnEvent(Cause),
    /// What stands after `<=` is not an expectation.
    NotAnExpectation(Cause),
    /// `*` without a number from 1 to 100,000 and a line.
    NotACount,
    /// What stands where bytes have to stand is not bytes in pieces.
    NotBytes(Cause),
    /// A line that begins with `=`, `?`, `!` or `<=` and is none of theirs, or is none of a case of a file.
    NoSuchLine,
    /// `+ BYTES` or `| LINE` in a case of a file, below a line that they add nothing to.
    AddsToNothing,
    /// `=| LINE` without `=> text` above it, or in a case of a file `=> entries`.
    NoTextAbove,
    /// Something stands before the first case.
    BeforeFirstCase,
    /// A case without a title.
    NoTitle,
    /// A case with the title of one above it.
    SameTitle,
    /// A case that states no answer and asks no question.
    NoAnswer,
    /// A file, or a recorded trace, without an answer below it.
    NoAnswerBelow,
    /// There is no case.
    NoCase,
    /// Memory ran out.
    Memory,
}

/// The line of a file of cases that is refused, and why.
#[derive(Clone, Copy)]
pub struct CaseFault {
    /// The line, counted from 1; 0 where memory ran out for more than one line.
    pub line: usize,
    /// Why.
    pub why: Why,
}

impl From<AllocError> for Why {
    ghost use Rattle.std.specs.Prelude.{◌≡◌};
    ghost use Rattle.case_text.specs.declared.fault.Why.TheVariants.{Memory};

    ghost from_gives = { λ _ e. e ≡ Memory };

    fn from(_e: AllocError) -> Why {
        Why::Memory
    }
}

impl<T: Drop> From<AllocFailed<T>> for Why {
    ghost use Rattle.std.specs.Prelude.{◌≡◌};
    ghost use Rattle.case_text.specs.declared.fault.Why.TheVariants.{Memory};

    ghost from_gives = { λ _ e. e ≡ Memory };

    fn from(_e: AllocFailed<T>) -> Why {
        Why::Memory
    }
}

impl From<AllocError> for CaseFault {
    ghost use Rattle.std.specs.Prelude.{◌≡◌};
    ghost use Rattle.case_text.specs.declared.fault.Why.TheVariants.{Memory};

    ghost from_gives = { λ _ f. f.why ≡ Memory };

    fn from(_e: AllocError) -> CaseFault {
        CaseFault {
            line: 0,
            why: Why::Memory,
        }
    }
}

impl<T: Drop> From<AllocFailed<T>> for CaseFault {
    ghost use Rattle.std.specs.Prelude.{◌≡◌};
    ghost use Rattle.case_text.specs.declared.fault.Why.TheVariants.{Memory};

    ghost from_gives = { λ _ f. f.why ≡ Memory };

    fn from(_e: AllocFailed<T>) -> CaseFault {
        CaseFault {
            line: 0,
            why: Why::Memory,
        }
    }
}
