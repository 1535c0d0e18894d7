ghost use Rattle.std.specs.Prelude.{◌≡◌};

use crate::file_stated::FileStated;
use std::marker::Model;

/// An answer that a line states of a file.
#[derive(Drop)]
pub struct FileAnswer {
    /// The line, counted in the file of cases from 1.
    pub line: usize,
    /// Whether it must not come (`=/>`). A `=| LINE` has to come.
    pub must_not: bool,
    /// The answer.
    pub stated: FileStated,
}

/// Answers of a file, in the order of their lines. Contracts see the list of them.
#[derive(Drop)]
pub struct FileAnswers {
    items: Vec<FileAnswer>,
}

impl Model for FileAnswers {
    ghost use Rattle.std.specs.Prelude.{List};
    ghost use Rattle.case_text.specs.declared.file_answer.FileAnswer.{FileAnswer};

    ghost Value = { List FileAnswer };

    ghost view = { λ a. a.items.items };
}

impl FileAnswers {
    /// The answers of a vector, which keeps its memory.
    pub fn from_vec(items: Vec<FileAnswer>) -> FileAnswers
        ensures { result ≡ items.items }
    {
        FileAnswers { items }
    }

    /// The answers.
    pub fn as_slice(&self) -> &[FileAnswer]
        ensures { result.now ≡ self.now }
    {
        self.items.as_slice()
    }
}
