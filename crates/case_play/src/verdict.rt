use crate::came::Came;
use scenario_words::Cause;

/// Whether a case passes.
#[derive(Drop)]
pub enum Verdict {
    /// It does.
    Passes,
    /// It does not: something else came than a line states.
    Differs {
        /// The first line of the file that does not hold, counted from 1.
        line: usize,
        /// What came.
        came: Came,
    },
    /// It does not: its text is refused, and the case does not say so.
    Refused {
        /// The line of the case that is refused, counted from 1 below the title.
        line: usize,
        /// Why.
        cause: Cause,
    },
}
