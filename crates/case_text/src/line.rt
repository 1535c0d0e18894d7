use crate::digits::Digits;
use crate::file_case::FileKind;
use crate::file_stated::FileStated;
use crate::item::Part;
use crate::stated::Stated;
use crate::trial::Made;
use lwm2m_values::Text;
use octets::Bytes;

/// What a line of a file of cases is.
#[derive(Drop)]
pub enum Line {
    /// A line without words: it is empty, or a comment.
    Remark,
    /// `case TITLE`: a case begins.
    Title(Text),
    /// `=> ANSWER`, `=/> ANSWER` or `=| LINE` in a case of a scenario.
    Answer {
        /// Whether the answer must not come (`=/>`).
        must_not: bool,
        /// The answer.
        stated: Stated,
    },
    /// Any other line of a case of a scenario.
    Part {
        /// What it is.
        part: Part,
        /// What it adds to the scenario's text: itself, as often as it says, or one empty line, each ended by LF.
        text: Text,
        /// How many lines that are.
        lines: u32,
    },
    /// `+ BYTES`, or `| LINE` with the LF that ends it: more of the bytes that the line above gives.
    More(Bytes),
    /// `+ BYTES`: more of the bytes that the line above states.
    MoreDigits(Digits),
    /// Any other line of a case of a file.
    File(FileLine),
}

/// What a line of a case of a file is that adds nothing to another one.
#[derive(Drop)]
pub enum FileLine {
    /// `image BYTES`, `trace BYTES` or `text`: the file.
    Gives {
        /// What it is.
        kind: FileKind,
        /// Its bytes, or the first of them.
        bytes: Bytes,
    },
    /// `with BYTES at N`, `and BYTES`, `and LINE`, `each front` or `each change`: files that are made of it.
    Makes(Made),
    /// `=> ANSWER`, `=/> ANSWER` or `=| LINE`.
    Answer {
        /// Whether the answer must not come (`=/>`).
        must_not: bool,
        /// The answer.
        stated: FileStated,
    },
}
