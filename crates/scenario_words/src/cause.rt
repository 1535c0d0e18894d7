ghost use Rattle.std.specs.Prelude.{◌≡◌};
ghost use Rattle.scenario_words.specs.CauseWords.{cause_words};

use std::alloc::{AllocError, AllocFailed};
use thiserror::Error;

/// Why a line of scenario text was refused.
#[derive(Clone, Copy, Debug, PartialEq, Eq, Error)]
pub enum Cause {
    /// A word is absent, or something was not stated before.
    #[error("missing")]
    Missing,
    /// A word has the wrong form, or is one too many.
    #[error("token")]
    Token,
    /// A word that is none of those that may stand there.
    #[error("unknown word")]
    UnknownWord,
    /// A number outside its range, or something that does not fit.
    #[error("range")]
    Range,
    /// Something was stated before.
    #[error("duplicate")]
    Duplicate,
    /// A count or a length above its limit.
    #[error("limit")]
    Limit,
    /// Memory ran out.
    #[error("memory")]
    Memory,
}

/// Returns the words for a cause, as the bench prints them.
pub fn cause_words(cause: Cause) -> &'static str
    ensures { result.now ≡ cause_words cause }
{
    match cause {
        Cause::Missing => "missing",
        Cause::Token => "token",
        Cause::UnknownWord => "unknown word",
        Cause::Range => "range",
        Cause::Duplicate => "duplicate",
        Cause::Limit => "limit",
        Cause::Memory => "memory",
    }
}

impl From<AllocError> for Cause {
    ghost use Rattle.std.specs.Prelude.{◌≡◌};
    ghost use Rattle.scenario_words.specs.declared.cause.Cause.TheVariants.{Memory};

    ghost from_gives = { λ _ e. e ≡ Memory };

    fn from(_e: AllocError) -> Cause {
        Cause::Memory
    }
}

impl<T: Drop> From<AllocFailed<T>> for Cause {
    ghost use Rattle.std.specs.Prelude.{◌≡◌};
    ghost use Rattle.scenario_words.specs.declared.cause.Cause.TheVariants.{Memory};

    ghost from_gives = { λ _ e. e ≡ Memory };

    fn from(_e: AllocFailed<T>) -> Cause {
        Cause::Memory
    }
}
