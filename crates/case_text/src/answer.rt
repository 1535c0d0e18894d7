ghost use Rattle.std.specs.Prelude.{◌≡◌};

use crate::stated::Stated;
use std::marker::Model;

/// An answer that a line states.
#[derive(Drop)]
pub struct Answer {
    /// The line, counted in the file from 1.
    pub line: usize,
    /// Whether it must not come (`=/>`). A `=| LINE` has to come.
    pub must_not: bool,
    /// The answer.
    pub stated: Stated,
}

/// Answers, in the order of their lines. Contracts see the list of them.
#[derive(Drop)]
pub struct Answers {
    items: Vec<Answer>,
}

impl Model for Answers {
    ghost use Rattle.std.specs.Prelude.{List};
    ghost use Rattle.case_text.specs.declared.answer.Answer.{Answer};

    ghost Value = { List Answer };

    ghost view = { λ a. a.items.items };
}

impl Answers {
    /// The answers of a vector, which keeps its memory.
    pub fn from_vec(items: Vec<Answer>) -> Answers
        ensures { result ≡ items.items }
    {
        Answers { items }
    }

    /// The answers.
    pub fn as_slice(&self) -> &[Answer]
        ensures { result.now ≡ self.now }
    {
        self.items.as_slice()
    }
}
