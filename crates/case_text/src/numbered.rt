ghost use Rattle.std.specs.Prelude.{◌≡◌};

use crate::line::Line;

/// A line of a file of cases and its number.
pub(crate) struct Numbered {
    /// The number, counted from 1.
    pub(crate) number: usize,
    /// What the line is.
    pub(crate) line: Line,
}

impl Numbered {
    /// The number and the line.
    pub(crate) fn parts(self) -> (usize, Line)
        ensures { result ≡ (self.number, self.line) }
    {
        let Numbered { number, line } = self;
        (number, line)
    }
}

/// By hand, so that a caller's proof has one step where a line is dropped, and no case for each thing that it may be.
impl Drop for Numbered {
    fn drop(self) {
        let Numbered {
            number: _,
            line: _line,
        } = self;
    }
}
