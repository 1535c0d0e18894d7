ghost use Rattle.std.specs.Prelude.{◌≡◌};
ghost use Rattle.case_text.specs.Above.{above_none, adding_after, after, kind_after, kind_after_answer};

use crate::file_case::FileKind;
use crate::file_stated::FileStated;
use crate::item::Part;
use crate::line::{FileLine, Line};
use crate::trial::Made;

/// What a case is as far as the lines above a line show it.
#[derive(Clone, Copy)]
pub enum CaseKind {
    /// No line with words stands below the title yet.
    Open,
    /// A case of a scenario.
    Scenario,
    /// A case of a scenario, in which the last line that states no answer is a recorded trace.
    Recorded,
    /// A case of a file.
    File(FileKind),
}

/// What `+ BYTES` adds to.
#[derive(Clone, Copy)]
pub enum Adding {
    /// Nothing: the line above gives and states no bytes.
    Nothing,
    /// The bytes that the line above gives.
    Bytes,
    /// The bytes that the line above states, of which some digits may be any.
    Digits,
}

/// What stands above a line, which decides how it is read.
#[derive(Clone, Copy)]
pub struct Above {
    /// What the case is.
    pub kind: CaseKind,
    /// What `+ BYTES` adds to.
    pub adding: Adding,
}

impl Above {
    /// Above the first line of a file.
    pub fn none() -> Above
        ensures { result ≡ above_none }
    {
        Above {
            kind: CaseKind::Open,
            adding: Adding::Nothing,
        }
    }

    /// What stands above the line that follows this one.
    pub fn after(self, line: &Line) -> Above
        ensures { result ≡ after self line.now }
    {
        Above {
            kind: kind_after(self.kind, line),
            adding: adding_after(self.adding, line),
        }
    }
}

fn kind_after(kind: CaseKind, line: &Line) -> CaseKind
    ensures { result ≡ kind_after kind line.now }
{
    match line {
        Line::Title(_) => CaseKind::Open,
        Line::Part {
            part: Part::Recorded(_),
            ..
        } => CaseKind::Recorded,
        Line::Part { .. } => CaseKind::Scenario,
        Line::Answer { .. } => kind_after_answer(kind),
        Line::File(FileLine::Gives { kind, .. }) => CaseKind::File(*kind),
        Line::Remark | Line::More(_) | Line::MoreDigits(_) | Line::File(_) => kind,
    }
}

/// An answer may be the first line of a case, whose text is then empty.
fn kind_after_answer(kind: CaseKind) -> CaseKind
    ensures { result ≡ kind_after_answer kind }
{
    match kind {
        CaseKind::Open => CaseKind::Scenario,
        CaseKind::Scenario | CaseKind::Recorded | CaseKind::File(_) => kind,
    }
}

fn adding_after(adding: Adding, line: &Line) -> Adding
    ensures { result ≡ adding_after adding line.now }
{
    match line {
        Line::Remark | Line::More(_) | Line::MoreDigits(_) => adding,
        Line::Part {
            part: Part::Recorded(_),
            ..
        }
        | Line::File(FileLine::Gives { .. } | FileLine::Makes(Made::And(_))) => Adding::Bytes,
        Line::File(
            FileLine::Answer {
                stated: FileStated::Image(_) | FileStated::Trace(_),
                ..
            },
        ) => Adding::Digits,
        Line::Title(_) | Line::Answer { .. } | Line::Part { .. } | Line::File(_) => Adding::Nothing,
    }
}
