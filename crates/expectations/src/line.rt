use crate::expectation::Expected;
use lwm2m_values::Text;

/// What a line of a file of expectations is.
#[derive(Drop)]
pub(crate) enum Line {
    /// A line without words: it is empty, or a comment.
    Remark,
    /// `case TITLE`: a case begins.
    Title(Text),
    /// `<= ..`: an expectation.
    Expected(Expected),
}

/// A line and its number.
#[derive(Drop)]
pub(crate) struct Numbered {
    /// The number, counted from 1.
    pub(crate) number: usize,
    /// What the line is.
    pub(crate) line: Line,
}
