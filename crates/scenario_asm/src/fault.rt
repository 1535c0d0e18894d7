use crate::limit::ScenarioLimit;
use scenario_words::Cause;
use thiserror::Error;

/// The first line of a text that is refused, and why.
#[derive(Clone, Copy, Debug, Error)]
#[error("line {line}: {cause}")]
pub struct AsmFault {
    /// The line, counted from 1.
    pub line: usize,
    /// Why it is refused.
    pub cause: Cause,
}

/// The first line of a text that is refused, and why; of a limit also which one.
#[derive(Clone, Copy)]
pub struct TextFault {
    /// The line, counted from 1.
    pub line: usize,
    /// Why it is refused.
    pub cause: Cause,
    /// The limit that it passes, where it is refused for one.
    pub limit: Option<ScenarioLimit>,
}
